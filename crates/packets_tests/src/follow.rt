//! Connections that are followed: what texts name them, what is written of a capture by then, and outputs that fail.

use crate::captured::captured;
use crate::checks::{equal, fail, holds, is_text};
use crate::outcomes::every_packet;
use captures::RunError;
use fault_devices::UnflushableWriter;
use packets::program::{write_follow_end, write_followed_flushed};
use packets::{ConnectionId, FollowForm, FollowOptions, Following, Omitted, Way, write_followed};
use std::alloc::Global;
use std::hash::{BuildHasherDefault, FoldHasher};
use std::process::Abort;

// IP packets: SYN from port 5 of 10.0.0.1 to port 80 of 10.0.0.2, number 7, and with ACK four bytes after it, the last one
// first and those in the middle last.
const FRAMES: &[&str] = &[
    "4500002800010000400600000a0000010a0000020005005000000007000000005002000900000000",
    "4500002900010000400600000a0000010a000002000500500000000b00000001501000090000000064",
    "4500002900010000400600000a0000010a000002000500500000000800000001501000090000000061",
    "4500002a00010000400600000a0000010a00000200050050000000090000000150100009000000006263",
];

const LINES: &str = "\
connection 1 packet 1: begins
> packet 2: gap 0..3
> packet 3: bytes 0..1
\ta
> packet 3: gap 1..3
> packet 4: bytes 1..4
\tbcd
";

const END: &str = "\
> ends: bytes 0..4, no FIN
< ends: bytes 0..0, no FIN
connection 1: open
";

fn id(rt: impl Abort + Copy) -> ConnectionId {
    match ConnectionId::of("10.0.0.1:5-10.0.0.2:80") {
        Some(id) => id,
        None => fail(rt, "no connection"),
    }
}

fn following(rt: impl Abort + Copy, alloc: Global, form: FollowForm) -> Following {
    let options = FollowOptions {
        id: id(rt),
        direction: None,
        form,
        window: 64,
    };
    Following::new(alloc, options)
}

fn is_followed(rt: impl Abort + Copy, alloc: Global, following: &Following, wanted: &str) {
    let capture = captured(rt, alloc, 101, FRAMES);
    let mut lines = Vec::new(alloc);
    let written = write_followed(
        alloc,
        BuildHasherDefault::<FoldHasher>::new(),
        &every_packet(alloc),
        following,
        capture.as_slice(),
        &mut lines,
        &mut Omitted::NOTHING,
    );
    equal(rt, written, Ok(()));
    is_text(rt, lines.as_slice(), wanted);
}

#[test]
fn lines_of_a_connection(rt: HostRuntime) {
    let following = following(&rt, rt.alloc(), FollowForm::Text);
    is_followed(&rt, rt.alloc(), &following, LINES);
    let mut end = Vec::new(rt.alloc());
    equal(
        &rt,
        write_follow_end(rt.alloc(), &following, &mut end),
        Ok(()),
    );
    is_text(&rt, end.as_slice(), END);
    end.clear();
    // It ended before.
    equal(
        &rt,
        write_follow_end(rt.alloc(), &following, &mut end),
        Ok(()),
    );
    holds(&rt, end.is_empty());
}

#[test]
fn bytes_of_a_connection(rt: HostRuntime) {
    let following = following(&rt, rt.alloc(), FollowForm::Raw);
    is_followed(&rt, rt.alloc(), &following, "abcd");
}

#[test]
fn an_end_that_cannot_be_written(rt: HostRuntime) {
    let following = following(&rt, rt.alloc(), FollowForm::Json);
    let capture = captured(&rt, rt.alloc(), 101, FRAMES);
    let mut lines = Vec::new(rt.alloc());
    let written = write_followed_flushed(
        rt.alloc(),
        BuildHasherDefault::<FoldHasher>::new(),
        &every_packet(rt.alloc()),
        &following,
        capture.as_slice(),
        &mut lines,
        &mut Omitted::NOTHING,
    );
    equal(&rt, written, Ok(()));
    let mut writer = UnflushableWriter::new(rt.alloc(), 10);
    let ended = write_follow_end(rt.alloc(), &following, &mut writer);
    equal(&rt, ended, Err(RunError::WriteZero));
}

// Texts, and whether they name a connection.
const NAMES: &[(&str, bool)] = &[
    ("10.0.0.1:5-10.0.0.2:80", true),
    ("[2001:db8::1]:0-[::]:65535", true),
    ("10.0.0.1.5 > 10.0.0.2.80", true),
    ("10.0.0.1.5 > 10.0.0.2.80 TCP", true),
    ("2001:db8::1.5 > 2001:db8::2.80 TCP", true),
    ("10.0.0.1:5-10.0.0.2:80 TCP", true),
    ("10.0.0.1.5 > 10.0.0.2.80 UDP", false),
    ("10.0.0.1.5 > 10.0.0.2.80 TCP TCP", false),
    ("10.0.0.1.5 > 2001:db8::2.80", false),
    ("10.0.0.1.5 > 10.0.0.2.80 > 10.0.0.3.80", false),
    ("10.0.0.1.5>10.0.0.2.80", false),
    (" > ", false),
    (" TCP", false),
    ("10.0.0.1:5-10.0.0.2:65536", false),
    ("10.0.0.1:5-10.0.0.2:", false),
    ("10.0.0.1:+5-10.0.0.2:80", false),
    ("10.0.0.1:5 10.0.0.2:80", false),
    ("10.0.0.1:5-[2001:db8::1]:80", false),
    ("2001:db8::1:5-2001:db8::2:80", false),
    ("[10.0.0.1]:5-[10.0.0.2]:80", false),
    ("10.0.0.1-10.0.0.2", false),
    ("", false),
];

#[test]
fn texts_that_name_a_connection(rt: HostRuntime) {
    for (text, is_named) in NAMES {
        equal(&rt, ConnectionId::of(*text).is_some(), *is_named);
    }
    let conversation = id(&rt).conversation;
    let listed = ConnectionId::of("10.0.0.1.5 > 10.0.0.2.80 TCP");
    equal(&rt, listed.map(|id| id.conversation), Some(conversation));
    let listed = ConnectionId::of("2001:db8::1.5 > 2001:db8::2.80 TCP");
    let named = ConnectionId::of("[2001:db8::1]:5-[2001:db8::2]:80");
    equal(
        &rt,
        listed.map(|id| id.conversation),
        named.map(|id| id.conversation),
    );
    let turned = ConnectionId::of("10.0.0.2:80-10.0.0.1:5");
    equal(
        &rt,
        turned.map(|id| id.conversation.turned()),
        Some(conversation),
    );
    holds(&rt, Way::FromFirst != Way::FromSecond);
}
