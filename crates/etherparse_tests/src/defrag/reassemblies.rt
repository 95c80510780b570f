//! Reassemblies with numbers as their names.
use crate::checks::{equal, equal_bytes, equal_in, fail};
use ep_base::IpFragOffset;
use ep_packet::SlicedFragment;
use etherparse::defrag::{IpDefragError, OverlapRule, ReassemblyTable};
use std::hash::{BuildHasherDefault, FoldHasher};
use std::process::Abort;
use std::test::*;

type Numbered = ReassemblyTable<u32, u64, BuildHasherDefault<FoldHasher>>;

fn received(offset: u16, more_fragments: bool, bytes: &[u8]) -> SlicedFragment<'_> {
    SlicedFragment {
        offset: IpFragOffset::try_new(offset).unwrap_or(IpFragOffset::ZERO),
        more_fragments,
        bytes,
    }
}

// Takes a fragment of the datagram of this name, which isn't refused.
fn take(
    rt: impl Abort + Copy,
    reassemblies: &mut Numbered,
    name: u32,
    received: &SlicedFragment<'_>,
    time: u64,
) -> Option<Vec<u8>> {
    match reassemblies.add(name, OverlapRule::Refuses, received, time) {
        Ok(described) => described,
        Err(_) => fail(rt, "refused"),
    }
}

#[test]
fn a_complete_datagram_is_returned_by_its_name(rt: HostRuntime) {
    let mut reassemblies = ReassemblyTable::with_hasher(rt.alloc(), BuildHasherDefault::new());
    for (name, byte) in [(7, 1), (8, 3)] {
        let first = take(
            rt,
            &mut reassemblies,
            name,
            &received(0, true, &[byte; 8]),
            0,
        );
        equal(rt, first.is_none(), true);
    }
    equal(rt, reassemblies.len(), 2);
    let Some(whole) = take(rt, &mut reassemblies, 7, &received(1, false, &[2; 8]), 0) else {
        fail(rt, "it waits");
    };
    let bytes = [1, 1, 1, 1, 1, 1, 1, 1, 2, 2, 2, 2, 2, 2, 2, 2];
    equal_bytes(rt, whole.as_slice(), bytes.as_slice());
    equal(rt, (reassemblies.len(), reassemblies.spare_len()), (1, 0));
    equal(rt, reassemblies.give(whole).is_ok(), true);
    equal(rt, reassemblies.spare_len(), 1);
}

#[test]
fn a_complete_datagram_may_be_empty(rt: HostRuntime) {
    let mut reassemblies = ReassemblyTable::with_hasher(rt.alloc(), BuildHasherDefault::new());
    let whole = take(rt, &mut reassemblies, 7, &received(0, false, &[]), 0);
    equal(rt, whole.map(|bytes| bytes.len()), Some(0));
}

#[test]
fn reassemblies_stay_whose_time_is_kept(rt: HostRuntime) {
    let mut reassemblies = ReassemblyTable::with_hasher(rt.alloc(), BuildHasherDefault::new());
    for (name, time) in [(7, 5), (8, 6)] {
        take(
            rt,
            &mut reassemblies,
            name,
            &received(0, true, &[1; 8]),
            time,
        );
    }
    reassemblies.retain(&|time: &u64| *time >= 6);
    equal(rt, (reassemblies.len(), reassemblies.spare_len()), (1, 1));
    let kept = (
        reassemblies.timestamp_of(&7).copied(),
        reassemblies.timestamp_of(&8).copied(),
    );
    equal(rt, kept, (None, Some(6)));
}

#[test]
fn the_reassembly_that_started_first_is_forgotten(rt: HostRuntime) {
    let mut reassemblies = ReassemblyTable::with_hasher(rt.alloc(), BuildHasherDefault::new());
    for (name, time) in [(8, 5), (7, 6)] {
        let fragment = received(2, true, &[1; 8]);
        take(rt, &mut reassemblies, name, &fragment, time);
    }
    equal(rt, reassemblies.open_bytes(), 24 + 24);
    equal(rt, reassemblies.forget_oldest(), Some((8, 5)));
    equal(
        rt,
        (reassemblies.open_bytes(), reassemblies.spare_len()),
        (24, 1),
    );
    reassemblies.free_spare();
    equal(rt, (reassemblies.len(), reassemblies.spare_len()), (1, 0));
}

// Of one datagram a first fragment, one at the same offset with other bytes, and the last one: by
// the rule of the first of them the second overwrites it, or ends the reassembly, whatever rule the
// second comes with.
#[test]
fn a_reassembly_keeps_the_rule_that_it_started_with(rt: HostRuntime) {
    for (row, first, second, is_refused) in [
        (
            "both overwrite",
            OverlapRule::Overwrites,
            OverlapRule::Overwrites,
            false,
        ),
        (
            "the first overwrites",
            OverlapRule::Overwrites,
            OverlapRule::Refuses,
            false,
        ),
        (
            "the first refuses",
            OverlapRule::Refuses,
            OverlapRule::Overwrites,
            true,
        ),
        (
            "both refuse",
            OverlapRule::Refuses,
            OverlapRule::Refuses,
            true,
        ),
    ] {
        let mut reassemblies: Numbered = ReassemblyTable::with_hasher(
            rt.alloc(),
            BuildHasherDefault::new(),
        );
        let started = reassemblies.add(7, first, &received(0, true, &[1; 8]), 0);
        equal_in(rt, row, &started.is_ok(), &true);
        let refusal = reassemblies
            .add(7, second, &received(0, true, &[2; 8]), 0)
            .err();
        let wanted = is_refused.then_some(IpDefragError::OverlappingFragment {
            offset: IpFragOffset::ZERO,
            payload_len: 8,
        });
        equal_in(rt, row, &refusal, &wanted);
        equal_in(rt, row, &reassemblies.len(), &usize::from(!is_refused));
        let whole = reassemblies
            .add(7, second, &received(1, false, &[3]), 0)
            .ok()
            .flatten();
        let bytes = whole.as_ref().map(|bytes| bytes.as_slice());
        let all = [2, 2, 2, 2, 2, 2, 2, 2, 3];
        equal_in(rt, row, &bytes, &(!is_refused).then_some(all.as_slice()));
    }
}
