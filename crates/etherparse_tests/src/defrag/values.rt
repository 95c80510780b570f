//! The class of a frame, fragments, and pools, as values.

use crate::checks::{fail, holds};
use crate::defrag::frames::{FIRST, SECOND};
use ep_base::IpFragOffset;
use ep_packet::{Class, SlicedFragment};
use etherparse::defrag::IpDefragPool;
use std::test::*;

#[test]
fn classes_are_compared(rt: HostRuntime) {
    let class = Class::from_ethernet(FIRST);
    let copy: Result<_, _> = class.clone();
    holds(rt, copy == Ok(Class::from_ethernet(FIRST)));
    holds(rt, class != Class::from_ethernet(SECOND));
}

#[test]
fn sliced_fragments_are_compared(rt: HostRuntime) {
    let first = SlicedFragment {
        offset: IpFragOffset::ZERO,
        more_fragments: true,
        bytes: FIRST,
    };
    let last = SlicedFragment {
        more_fragments: false,
        ..first
    };
    holds(rt, first == first && first != last);
}

#[test]
fn pools_are_printed(rt: HostRuntime) {
    let pool = IpDefragPool::<u64, u32>::new(rt.alloc());
    match format!(in rt.alloc(); "{pool:?}") {
        Ok(text) => holds(rt, text.starts_with("IpDefragPool")),
        Err(_) => fail(rt, "there is no memory"),
    }
}
