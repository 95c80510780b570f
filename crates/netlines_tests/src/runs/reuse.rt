//! Two runs side by side.
use crate::checks::equal;
use fault_devices::FaultReader;
use netlines::two_runs;
use std::test::*;

// The two fragments of a message, and between them a fragment of a TCP segment.
const ONE: &[u8] = b"\
    frame 0 02000000000202000000000108004500001c00072000401146c80a0000010a000002\
    000100020010dbb4\n\
    frame 0 02000000000202000000000108004500001800070002400666d50a0000010a000002\
    97da0000\n\
    frame 0 02000000000202000000000108004500001c00070001401166c70a0000010a000002\
    0102030405060708\n";

// The same two fragments, and between them a bad line.
const OTHER: &[u8] = b"\
    frame 0 02000000000202000000000108004500001c00072000401146c80a0000010a000002\
    000100020010dbb4\n\
    forgets\n\
    frame 0 02000000000202000000000108004500001c00070001401166c70a0000010a000002\
    0102030405060708\n";

const ONE_ANSWERS: &[u8] = b"wait\nwait\nmessage 17 good 000100020010dbb40102030405060708\n";

const OTHER_ANSWERS: &[u8] = b"wait\nbad line\nmessage 17 good 000100020010dbb40102030405060708\n";

// A fragment of another message and a bad line change nothing for a message whose fragments are in
// lines 1 and 3. The second run reads byte by byte.
#[test]
fn two_runs_over_the_same_halves(rt: HostRuntime) {
    let mut reader = ONE;
    let mut actual = Vec::new(rt.alloc());
    let mut other_reader = FaultReader::new(OTHER, 1);
    let mut other_actual = Vec::new(rt.alloc());
    let results = two_runs(
        rt.alloc(),
        &mut reader,
        &mut actual,
        &mut other_reader,
        &mut other_actual,
    );
    equal(rt, results, (Ok(()), Ok(())));
    let actual = (actual.as_slice(), other_actual.as_slice());
    equal(rt, actual, (ONE_ANSWERS, OTHER_ANSWERS));
}
