//! Buffers of each rule, and where a fragment ends.

use crate::checks::{equal, holds};
use crate::defrag::fragments::offset;
use ep_base::IpNumber;
use etherparse::defrag::{IpDefragBuf, IpDefragError, OverlapRule, checked_end};
use std::test::*;

const RULES: &[OverlapRule] = &[OverlapRule::Overwrites, OverlapRule::Refuses];

#[test]
fn buffers_of_each_rule(rt: HostRuntime) {
    let alloc = rt.alloc();
    for rule in RULES.iter() {
        let bytes = Vec::new(alloc);
        let buf = IpDefragBuf::of_rule(*rule, alloc, IpNumber::UDP, bytes, Vec::new(alloc));
        holds(rt, buf.overlap_rule() == *rule);
    }
}

// Eight bytes at byte 16 end at 24.
#[test]
fn ends_of_fragments(rt: HostRuntime) {
    let offset = offset(rt, 2);
    let conflict = IpDefragError::ConflictingEnd {
        previous_end: 16,
        conflicting_end: 24,
    };
    let ends = [
        checked_end(None, offset, true, &[0; 8]) == Ok(24),
        checked_end(Some(24), offset, false, &[0; 8]) == Ok(24),
        checked_end(Some(16), offset, true, &[0; 8]) == Err(conflict),
    ];
    equal(rt, ends, [true; 3]);
}
