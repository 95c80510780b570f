//! Conversations at literal values.

use crate::captured::{captured, dissected, first};
use crate::checks::{equal, fail, holds, is_text};
use crate::frames::FRAMES;
use crate::outcomes::every_packet;
use captures::{RunError, Skipped};
use etherparse::{Addresses, IpNumber};
use fault_devices::UnflushableWriter;
use packets::program::write_flows;
use packets::{
    By, Conversation, ConversationCounts, DirectionCounts, Dissector, Flags, FollowedFlows,
    Listing, NoProgress, Period, Ports, Row, TcpColumn, Transfer, count_flows,
};
use std::alloc::Global;
use std::hash::{BuildHasherDefault, FoldHasher};
use std::process::Abort;

const ENDS: Addresses = Addresses::V4 {
    source: [10, 0, 0, 1],
    destination: [10, 0, 0, 2],
};

const SERVER_FIRST: Conversation = Conversation {
    addresses: ENDS,
    ports: Some(Ports {
        source: 53,
        destination: 5353,
    }),
    protocol: IpNumber::UDP,
};

// A datagram, and the fragment that completes another one.
const DATAGRAMS: DirectionCounts = DirectionCounts {
    packets: 2,
    bytes: 96,
    flags: Flags {
        syn: false,
        no_syn: true,
        fin: false,
        rst: false,
    },
};

// The conversations of all frames.
fn counted(rt: impl Abort + Copy, alloc: Global) -> FollowedFlows<BuildHasherDefault<FoldHasher>> {
    let capture = captured(rt, alloc, 1, FRAMES);
    let mut flows = none_followed(alloc);
    let (rules, reader) = (every_packet(alloc), capture.as_slice());
    let names = BuildHasherDefault::new();
    let ending = count_flows(alloc, names, &rules, &mut flows, reader, &mut NoProgress);
    holds(rt, ending.result.is_ok());
    equal(rt, ending.open, 1);
    flows
}

fn none_followed(alloc: Global) -> FollowedFlows<BuildHasherDefault<FoldHasher>> {
    FollowedFlows::with_hashers(alloc, BuildHasherDefault::new(), BuildHasherDefault::new())
}

#[test]
fn conversations(rt: HostRuntime) {
    let followed = counted(rt, rt.alloc());
    let flows = &followed.flows;
    let left_out = (flows.refused.packets, flows.without_ip.packets);
    equal(rt, (flows.all.packets, left_out), (10, (2, 1)));
    equal(rt, (flows.len(), flows.is_empty()), (5, false));
    let Some(row) = flows.row(1) else {
        fail(rt, "no row");
    };
    let counts = (row.conversation, row.forward, row.backward);
    equal(rt, counts, (SERVER_FIRST, DATAGRAMS, DirectionCounts::NONE));
    equal(
        rt,
        (row.packets(), row.bytes(), row.tcp_column()),
        (2, 96, None),
    );
    let times = (row.period.earliest, row.period.latest);
    holds(rt, times.0 < times.1 && row.duration() > 0);
}

fn flags_of(bits: u8) -> Flags {
    Flags {
        syn: bits & 1 > 0,
        no_syn: bits & 2 > 0,
        fin: bits & 4 > 0,
        rst: bits & 8 > 0,
    }
}

// SYN, no SYN, FIN and RST as bits, forward and backward.
const TCP_COLUMNS: &[(u8, u8, TcpColumn, &str)] = &[
    (1, 0, TcpColumn::SynOnly, "S"),
    (1, 1, TcpColumn::SynOnly, "S"),
    (3, 3, TcpColumn::Open, "open"),
    (7, 3, TcpColumn::Open, "open"),
    (7, 7, TcpColumn::Ended, "SF"),
    (7, 6, TcpColumn::Open, "open"),
    (1, 10, TcpColumn::Reset, "R"),
    (15, 7, TcpColumn::Reset, "R"),
];

fn direction_with(bits: u8) -> DirectionCounts {
    DirectionCounts {
        packets: 1,
        bytes: 60,
        flags: flags_of(bits),
    }
}

fn row_with(forward: u8, backward: u8, ports: Option<Ports>) -> Row {
    Row {
        conversation: Conversation {
            addresses: ENDS,
            ports,
            protocol: IpNumber::TCP,
        },
        forward: direction_with(forward),
        backward: direction_with(backward),
        period: Period::NONE,
    }
}

#[test]
fn tcp_columns(rt: HostRuntime) {
    for (forward, backward, wanted, name) in TCP_COLUMNS {
        let row = row_with(*forward, *backward, SERVER_FIRST.ports);
        equal(rt, row.tcp_column(), Some(*wanted));
        is_text(rt, wanted.name().as_bytes(), *name);
    }
    equal(rt, row_with(7, 7, None).tcp_column(), None);
}

// A datagram goes from the lower end, and one with its ends turned from the higher one.
#[test]
fn directions(rt: HostRuntime) {
    let capture = captured(rt, rt.alloc(), 1, &FRAMES[1..2]);
    let packet = first(rt, capture.as_slice());
    let sent = Transfer::of(&dissected(rt, &mut Dissector::new(rt.alloc()), &packet));
    equal(
        rt,
        (sent.conversation, sent.ascends),
        (Some(SERVER_FIRST), true),
    );
    let mut answered = sent;
    answered.ascends = false;
    let mut flow = ConversationCounts::NONE;
    flow.add(&answered);
    flow.add(&sent);
    flow.add(&answered);
    let packets = (flow.ascending.packets, flow.descending.packets);
    equal(rt, (packets, flow.begins_ascending), ((1, 2), Some(false)));
    equal(rt, SERVER_FIRST.turned().turned(), SERVER_FIRST);
    holds(rt, SERVER_FIRST.turned() != SERVER_FIRST);
}

fn written(alloc: Global, listing: &Listing, capacity: usize) -> Result<(), RunError> {
    let flows = none_followed(alloc);
    let mut writer = UnflushableWriter::new(alloc, capacity);
    write_flows(alloc, &flows, listing, Skipped::NONE, &mut writer)
}

// The text has 17 bytes.
#[test]
fn flows_that_cannot_be_written(rt: HostRuntime) {
    let listing = Listing {
        by: By::Bytes,
        top: None,
        json: false,
    };
    equal(
        rt,
        written(rt.alloc(), &listing, 16),
        Err(RunError::WriteZero),
    );
    equal(rt, written(rt.alloc(), &listing, 17), Err(RunError::Write));
}
