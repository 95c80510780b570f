//! Runs out of memory. Each of these tests passes as it is, and where one of its growths is
//! refused: then a call reports that and nothing else, what it worked on is as before, and the same
//! call succeeds after it. All growths are those of the calls.

use crate::checks::{equal, fail, holds};
use crate::outcomes::{LINES, every_packet};
use captures::{Packet, Packets, RunError, Unfit};
use packets::{Dissection, Dissector, NoProgress, Omitted, Summary, Tally, summarize, write_lines};
use std::alloc::Global;
use std::hash::{BuildHasherDefault, FoldHasher};
use std::process::Abort;

/// Two fragments of a UDP datagram, and an IPv4 header that is cut off.
pub(super) const CAPTURE: &[u8; 189] = b"\
    \xd4\xc3\xb2\xa1\x02\x00\x04\x00\x00\x00\x00\x00\x00\x00\x00\x00\
    \x00\x00\x04\x00\x01\x00\x00\x00\
    \x00\xf1\x53\x65\x00\x00\x00\x00\x32\x00\x00\x00\x32\x00\x00\x00\
    \x02\x00\x00\x00\x00\x02\x02\x00\x00\x00\x00\x01\x08\x00\x45\x00\x00\x24\x12\x34\x20\x00\x40\
    \x11\x34\x93\x0a\x00\x00\x01\x0a\x00\x00\x02\x00\x35\x0f\xa0\x00\x1c\xb3\xac\x61\x62\x63\x64\
    \x65\x66\x67\x68\
    \x00\xf1\x53\x65\x00\x00\x00\x00\x2e\x00\x00\x00\x2e\x00\x00\x00\
    \x02\x00\x00\x00\x00\x02\x02\x00\x00\x00\x00\x01\x08\x00\x45\x00\x00\x20\x12\x34\x00\x02\x40\
    \x11\x54\x95\x0a\x00\x00\x01\x0a\x00\x00\x02\x69\x6a\x6b\x6c\x6d\x6e\x6f\x70\x71\x72\x73\x74\
    \x00\xf1\x53\x65\x00\x00\x00\x00\x15\x00\x00\x00\x15\x00\x00\x00\
    \x02\x00\x00\x00\x00\x02\x02\x00\x00\x00\x00\x01\x08\x00\x45\x00\x00\x28\x00\x01\x00";

// The first twelve bytes of each line, and the newline that ends it.
const WANTED: &[u8; 39] = b"    1   0.00\n    2   0.00\n    3   0.00\n";

// Whether a run writes all lines. If not, it found no memory, and what it wrote are whole lines.
fn are_written(rt: impl Abort + Copy, alloc: Global) -> bool {
    let mut buffer = [0u8; 64];
    let mut left = buffer.as_mut_slice();
    let result = write_lines(
        alloc,
        BuildHasherDefault::<FoldHasher>::new(),
        &every_packet(alloc),
        &LINES,
        CAPTURE.as_slice(),
        &mut left,
        &mut Omitted::NOTHING,
    );
    let written = 64 - left.len().min(64);
    holds(
        rt,
        WANTED.starts_with(&buffer[..written]) && written % 13 == 0,
    );
    if result.is_ok() {
        holds(rt, written == WANTED.len());
        return true;
    }
    holds(rt, result == Err(RunError::Memory));
    false
}

#[test]
fn lines_run_out_of_memory(rt: HostRuntime) {
    let first = are_written(rt, rt.alloc());
    let second = are_written(rt, rt.alloc());
    holds(rt, first || second);
}

// Whether a run counts all packets. If not, it found no memory, and counted those before.
fn are_counted(rt: impl Abort + Copy, alloc: Global) -> bool {
    let rules = every_packet(alloc);
    let mut summary = Summary::new(alloc);
    let reader = CAPTURE.as_slice();
    let state = BuildHasherDefault::new();
    let ending = summarize(alloc, state, &rules, &mut summary, reader, &mut NoProgress);
    if ending.result.is_ok() {
        holds(rt, summary.all.packets == 3 && summary.flows.len() == 2);
        return true;
    }
    holds(
        rt,
        ending.result == Err(RunError::Memory) && summary.all.packets < 3,
    );
    false
}

#[test]
fn counts_run_out_of_memory(rt: HostRuntime) {
    let first = are_counted(rt, rt.alloc());
    let second = are_counted(rt, rt.alloc());
    holds(rt, first || second);
}

fn dissected<'a>(
    rt: impl Abort + Copy,
    dissector: &mut Dissector,
    packet: &Packet<'a>,
) -> Dissection<'a> {
    if let Ok(dissection) = dissector.dissect(packet, true) {
        return dissection;
    }
    let Ok(dissection) = dissector.dissect(packet, true) else {
        fail(rt, "no memory");
    };
    dissection
}

// Adds a packet after so many.
fn add(rt: impl Abort + Copy, summary: &mut Summary, packet: &Dissection<'_>, number: u64) {
    if summary.add(packet).is_err() {
        let counted = (summary.all.packets, summary.refused);
        equal(rt, counted, (number, Tally::NONE));
        holds(rt, summary.add(packet).is_ok());
    }
}

// Where memory runs out for a packet, it is dissected and counted the next time.
#[test]
fn packets_run_out_of_memory(rt: HostRuntime) {
    let mut dissector = Dissector::new(rt.alloc());
    let mut summary = Summary::new(rt.alloc());
    let mut number = 0u64;
    for packet in Packets::new(Unfit::Refuse, CAPTURE) {
        let dissection = dissected(rt, &mut dissector, &packet);
        add(rt, &mut summary, &dissection, number);
        number = number.saturating_add(1);
        equal(
            rt,
            (dissection.number, summary.all.packets),
            (number, number),
        );
    }
    let counted = (number, dissector.open(), summary.parts.completing.packets);
    equal(rt, counted, (3, 0, 1));
    equal(rt, (summary.reasons.len(), summary.flows.len()), (1, 2));
}
