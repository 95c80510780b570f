//! The table of connections: what is counted, and which flow is dropped.

use crate::checks::{equal, fail, holds_in};
use std::alloc::Global;
use std::hash::RandomState;
use std::num::NonZeroUsize;
use std::process::Abort;
use tcp_streams::{ConnectionState, Control, Direction, Flow, FlowPacket, Flows, Traffic};

const SYN: FlowPacket = FlowPacket {
    time: 20,
    bytes: 60,
    direction: Direction::FromLower,
    control: Control::Syn,
};

const ANSWER: FlowPacket = FlowPacket {
    time: 10,
    bytes: 61,
    direction: Direction::FromHigher,
    control: Control::SynAck,
};

fn add(
    rt: impl Abort + Copy,
    table: &mut Flows<u8, u32>,
    key: u32,
    packet: FlowPacket,
    value: u8,
) -> Option<(u32, Flow<u8>)> {
    match table.add(key, packet, value) {
        Ok(dropped) => dropped,
        Err(_) => fail(rt, "no memory"),
    }
}

fn two_flows(rt: impl Abort + Copy, alloc: Global) -> Flows<u8, u32> {
    let Some(two) = NonZeroUsize::new(2) else {
        fail(rt, "two is zero")
    };
    match Flows::new(alloc, two) {
        Ok(table) => table,
        Err(_) => fail(rt, "no memory"),
    }
}

#[test]
fn packets_are_counted_by_direction(rt: HostRuntime) {
    let mut table = two_flows(&rt, rt.alloc());
    holds_in(&rt, "empty", table.is_empty());
    equal(&rt, add(&rt, &mut table, 7, SYN, 1), None);
    equal(&rt, add(&rt, &mut table, 7, ANSWER, 2), None);
    let wanted = Flow {
        from_lower: Traffic {
            packets: 1,
            bytes: 60,
        },
        from_higher: Traffic {
            packets: 1,
            bytes: 61,
        },
        first: 10,
        last: 20,
        state: ConnectionState::SynReceived {
            opener: Direction::FromLower,
        },
        value: 1,
    };
    holds_in(&rt, "counted", table.get(&7) == Some(&wanted));
    holds_in(&rt, "no other", table.get(&8).is_none());
    equal(&rt, table.remove(&7), Some(wanted));
    equal(&rt, table.len(), 0);
}

#[test]
fn flows_by_a_random_state(rt: HostRuntime) {
    let (Some(two), Ok(state)) = (NonZeroUsize::new(2), RandomState::new(&rt)) else {
        fail(&rt, "no state");
    };
    let Ok(mut table) = Flows::with_hasher(rt.alloc(), two, state) else {
        fail(&rt, "no memory");
    };
    match table.add(7_u32, SYN, 1_u8) {
        Ok(dropped) => holds_in(&rt, "none dropped", dropped.is_none()),
        Err(_) => fail(&rt, "no memory"),
    }
    equal(&rt, table.count(&7, ANSWER), Some(1));
    equal(&rt, table.count(&8, ANSWER), None);
}

#[test]
fn silent_flows_are_dropped_first(rt: HostRuntime) {
    let mut table = two_flows(&rt, rt.alloc());
    equal(&rt, add(&rt, &mut table, 1, SYN, 1), None);
    equal(&rt, add(&rt, &mut table, 2, SYN, 2), None);
    equal(&rt, add(&rt, &mut table, 1, ANSWER, 3), None);
    let dropped = add(&rt, &mut table, 3, SYN, 4);
    equal(
        &rt,
        dropped.map(|pair| (pair.0, pair.1.value)),
        Some((2, 2)),
    );
    equal(&rt, table.len(), 2);
    equal(&rt, table.pop_oldest().map(|pair| pair.0), Some(1));
    equal(&rt, table.pop_oldest().map(|pair| pair.0), Some(3));
    equal(&rt, table.pop_oldest(), None);
}

#[test]
fn values_are_replaced(rt: HostRuntime) {
    let mut table = two_flows(&rt, rt.alloc());
    equal(&rt, add(&rt, &mut table, 1, SYN, 1), None);
    equal(&rt, add(&rt, &mut table, 2, SYN, 2), None);
    equal(&rt, table.replace_value(&1, 9), Some(1));
    equal(&rt, table.replace_value(&3, 9), None);
    // It stays the oldest.
    equal(
        &rt,
        table.oldest().map(|pair| (*pair.0, pair.1.value)),
        Some((1, 9)),
    );
    let mut flow = Flow::new(2);
    flow.count(SYN);
    holds_in(&rt, "of one packet", table.get(&2) == Some(&flow));
}

// Five flows, each with its key as value. That with key 2 has the newest packet, so the oldest one
// comes first in the order of 1, 3, 4, 5, 2.
fn five_flows(rt: impl Abort + Copy, alloc: Global) -> Flows<u8, u32> {
    let Some(five) = NonZeroUsize::new(5) else {
        fail(rt, "five is zero")
    };
    let Ok(mut table) = Flows::new(alloc, five) else {
        fail(rt, "no memory")
    };
    equal(rt, add(rt, &mut table, 1, SYN, 1), None);
    equal(rt, add(rt, &mut table, 2, SYN, 2), None);
    equal(rt, add(rt, &mut table, 3, SYN, 3), None);
    equal(rt, add(rt, &mut table, 4, SYN, 4), None);
    equal(rt, add(rt, &mut table, 5, SYN, 5), None);
    equal(rt, add(rt, &mut table, 2, ANSWER, 9), None);
    table
}

#[test]
fn flows_are_kept_in_their_order(rt: HostRuntime) {
    let mut table = five_flows(&rt, rt.alloc());
    // The keys of its calls, as digits.
    let mut calls = 0u64;
    table.retain(|key, flow| {
        calls = calls.wrapping_mul(10).wrapping_add(u64::from(*key));
        *key != 1 && flow.value != 4
    });
    equal(&rt, calls, 13452);
    equal(&rt, table.len(), 3);
    equal(
        &rt,
        table.oldest().map(|pair| (*pair.0, pair.1.value)),
        Some((3, 3)),
    );
    // Those that are kept are as they were.
    equal(&rt, table.get(&1).is_none(), true);
    equal(&rt, table.get(&4).is_none(), true);
    equal(
        &rt,
        table
            .get(&2)
            .map(|flow| (flow.value, flow.last, flow.from_higher.packets)),
        Some((2, 20, 1)),
    );
    // There may be as many as before: the sixth one drops the oldest.
    equal(&rt, add(&rt, &mut table, 6, SYN, 6), None);
    equal(&rt, add(&rt, &mut table, 7, SYN, 7), None);
    equal(
        &rt,
        add(&rt, &mut table, 8, SYN, 8).map(|pair| pair.0),
        Some(3),
    );
    equal(&rt, table.pop_oldest().map(|pair| pair.0), Some(5));
    equal(&rt, table.pop_oldest().map(|pair| pair.0), Some(2));
    equal(&rt, table.pop_oldest().map(|pair| pair.0), Some(6));
}

#[test]
fn all_flows_are_kept(rt: HostRuntime) {
    let mut table = five_flows(&rt, rt.alloc());
    table.retain(|_, _| true);
    equal(&rt, table.len(), 5);
    equal(&rt, table.pop_oldest().map(|pair| pair.0), Some(1));
    equal(&rt, table.pop_oldest().map(|pair| pair.0), Some(3));
    equal(&rt, table.pop_oldest().map(|pair| pair.0), Some(4));
    equal(&rt, table.pop_oldest().map(|pair| pair.0), Some(5));
    equal(&rt, table.pop_oldest().map(|pair| pair.0), Some(2));
    equal(&rt, table.pop_oldest(), None);
}

#[test]
fn no_flow_is_kept(rt: HostRuntime) {
    let mut table = five_flows(&rt, rt.alloc());
    let mut calls = 0u64;
    table.retain(|key, _| {
        calls = calls.wrapping_mul(10).wrapping_add(u64::from(*key));
        false
    });
    equal(&rt, calls, 13452);
    equal(&rt, table.is_empty(), true);
    equal(&rt, table.pop_oldest(), None);
    // An empty table has none to test.
    table.retain(|key, _| {
        calls = u64::from(*key);
        true
    });
    equal(&rt, calls, 13452);
    equal(&rt, table.is_empty(), true);
    equal(&rt, add(&rt, &mut table, 6, SYN, 6), None);
    equal(&rt, table.len(), 1);
}
