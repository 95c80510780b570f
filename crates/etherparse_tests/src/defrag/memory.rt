//! Out of memory. `tools/faults_tried` runs these tests with each allocation failing in turn: then
//! one of the calls finds no memory and leaves its buffer as it was, and the next one finds it.

use crate::checks::{equal, holds};
use crate::defrag::fragments::{ZEROS, empty, has_bytes, is_its_copy, offset, refusing};
use ep_base::IpFragOffset;
use etherparse::defrag::{IpDefragBuf, IpDefragError};
use std::process::Abort;
use std::test::*;

#[test]
fn a_fragment_runs_out_of_memory(rt: HostRuntime) {
    let mut buf = empty(rt.alloc());
    let first = offset(rt, 1);
    match buf.add(first, false, &ZEROS[..8]) {
        Ok(()) => holds(rt, has_bytes(&buf, &ZEROS[..16])),
        Err(error) => {
            equal(rt, error, IpDefragError::AllocationFailure { len: 16 });
            equal(rt, &buf, &empty(rt.alloc()));
            holds(rt, buf.add(first, false, &ZEROS[..8]).is_ok());
        }
    }
    equal(rt, buf.end(), Some(16));
}

#[test]
fn refused_fragments_have_no_memory_error(rt: HostRuntime) {
    let mut buf = empty(rt.alloc());
    let zero = offset(rt, 0);
    let unaligned = (zero, true, &ZEROS[..7]);
    let long = (offset(rt, 8191), false, &ZEROS[..8]);
    equal(rt, buf.add_all(&[unaligned, long]), Ok(0));
    equal(rt, &buf, &empty(rt.alloc()));
}

#[test]
fn one_of_many_fragments_runs_out_of_memory(rt: HostRuntime) {
    let mut buf = empty(rt.alloc());
    let all = [
        (offset(rt, 0), true, &ZEROS[..8]),
        (offset(rt, 2), true, &ZEROS[..64]),
    ];
    match buf.add_all(&all) {
        Ok(count) => equal(rt, count, 2),
        Err(IpDefragError::AllocationFailure { len: 8 }) => equal(rt, &buf, &empty(rt.alloc())),
        Err(error) => {
            equal(rt, error, IpDefragError::AllocationFailure { len: 80 });
            holds(rt, has_bytes(&buf, &ZEROS[..8]));
        }
    }
    equal(rt, buf.add_all(&all), Ok(2));
    equal(rt, buf.sections().len(), 2);
}

#[test]
fn a_copy_runs_out_of_memory(rt: HostRuntime) {
    let mut buf = empty(rt.alloc());
    let zero = offset(rt, 0);
    holds(rt, buf.try_clone().is_ok());
    let taken = buf.add(zero, false, ZEROS).is_ok() || buf.add(zero, false, ZEROS).is_ok();
    holds(rt, taken);
    let copied = is_its_copy(&buf).or(is_its_copy(&buf));
    equal(rt, copied, Some(true));
    holds(rt, has_bytes(&buf, ZEROS));
}

const BYTES: &[u8] = &[1, 2, 3, 4, 5, 6, 7, 8];

// Adds a fragment twice. Where the first call finds no memory for this end, the other one does. It
// has no contract, as tests alone call it.
fn comes_twice(rt: impl Abort + Copy, buf: &mut IpDefragBuf, offset: IpFragOffset, len: usize) {
    let count = buf.sections().len();
    if let Err(error) = buf.add(offset, true, BYTES) {
        equal(rt, error, IpDefragError::AllocationFailure { len });
        equal(rt, buf.sections().len(), count);
        holds(rt, buf.add(offset, true, BYTES).is_ok());
    }
    holds(rt, buf.add(offset, true, BYTES).is_ok());
}

/// A fragment that is there already takes no memory, where overlaps are refused.
#[test]
fn a_repeat_takes_no_memory(rt: HostRuntime) {
    let mut buf = refusing(rt.alloc());
    comes_twice(rt, &mut buf, offset(rt, 2), 24);
    comes_twice(rt, &mut buf, IpFragOffset::ZERO, 8);
    equal(rt, buf.sections().len(), 2);
}

/// Of the accepted fragments the fifth takes memory beside its bytes and its section.
#[test]
fn a_fifth_fragment_runs_out_of_memory(rt: HostRuntime) {
    let mut buf = refusing(rt.alloc());
    for (units, end) in [(0, 8), (2, 24), (4, 40), (6, 56), (8, 72)] {
        comes_twice(rt, &mut buf, offset(rt, units), end);
    }
    equal(rt, buf.sections().len(), 5);
}
