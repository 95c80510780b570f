//! Out of memory. To be run with each allocation failing in turn, too: then one of the calls runs
//! out of memory and leaves its buffer empty, and the others write.

use super::ipv4_extensions::AUTH;
use super::ipv6_extensions::CHAIN;
use super::kinds::{Kind, is_all_or_nothing};
use crate::checks::holds;
use std::process::Abort;
use std::test::*;

fn is_so(rt: impl Abort + AllocGlobal + Copy, kind: Kind, bytes: &[u8], written: &[u8]) {
    holds(rt, is_all_or_nothing(rt.alloc(), kind, bytes, written));
}

#[test]
fn headers_run_out_of_memory(rt: HostRuntime) {
    let fragment = &[17, 0, 0, 9, 0, 0, 0, 7];
    is_so(rt, Kind::Raw, &CHAIN, &CHAIN[..8]);
    is_so(rt, Kind::Fragment, fragment, fragment);
    is_so(rt, Kind::Auth, &AUTH, &AUTH[..16]);
    is_so(rt, Kind::Ipv6(0), &CHAIN, &CHAIN[..72]);
    is_so(rt, Kind::Ipv4(51), &AUTH, &AUTH[..16]);
}
