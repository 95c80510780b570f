//! The lines that the captures of these tests hold, and what a run gives.
//! Calls have no contracts: tests alone make them, and are run.
use crate::checks::equal;
use captures::{CaptureError, Extra, Position, RunError, Skipped, Unfit, run};
use std::alloc::Global;
use std::io::{Read, Write};
use std::process::Abort;

// The packets that the files hold.
pub const LINES: &[u8; 202] =
    b"frame 0 02000000000202000000000108004500002400010000401166c60a0000010a000002000100020010dbb40102030405060708\n\
    frame 0 ffffffffffff020000000001080600010800060400010200000000010a0000010000000000000a000002\n";

// A refusal at a position.
pub fn refused(
    error: CaptureError,
    packet: u64,
    offset: u64,
    block: Option<u32>,
) -> Result<(), RunError> {
    Err(RunError::Capture(
        error,
        Position {
            packet,
            offset,
            block,
        },
    ))
}

// A run that ends where a packet can't be reported.
pub fn lines_to<R: Read, W: Write>(
    alloc: Global,
    reader: &mut R,
    writer: &mut W,
) -> Result<(), RunError> {
    let mut skipped = Skipped::NONE;
    run(
        alloc,
        Extra::Nothing,
        Unfit::Refuse,
        reader,
        writer,
        &mut skipped,
    )
}

/// The lines of a run whose lines hold this beside frames and that ends so.
pub fn lines_of<R: Read>(
    rt: impl Abort + AllocGlobal + Copy,
    extra: Extra,
    reader: &mut R,
    wanted: Result<(), RunError>,
) -> Vec<u8> {
    let mut lines = Vec::new(rt.alloc());
    let mut skipped = Skipped::NONE;
    let result = run(
        rt.alloc(),
        extra,
        Unfit::Refuse,
        reader,
        &mut lines,
        &mut skipped,
    );
    equal(rt, result, wanted);
    lines
}

/// A run over what is read ends so, and these are its lines.
pub fn reports_read<R: Read>(
    rt: impl Abort + AllocGlobal + Copy,
    reader: &mut R,
    wanted: Result<(), RunError>,
    lines: &[u8],
) {
    let actual = lines_of(rt, Extra::Nothing, reader, wanted);
    equal(rt, actual.as_slice(), lines);
}

/// The same of a capture.
pub fn reports(
    rt: impl Abort + AllocGlobal + Copy,
    capture: &[u8],
    wanted: Result<(), RunError>,
    lines: &[u8],
) {
    reports_read(rt, &mut &*capture, wanted, lines);
}

/// The same where only the number of the lines' bytes is compared.
pub fn reports_bytes(
    rt: impl Abort + AllocGlobal + Copy,
    capture: &[u8],
    wanted: Result<(), RunError>,
    count: usize,
) {
    let actual = lines_of(rt, Extra::Nothing, &mut &*capture, wanted);
    equal(rt, actual.len(), count);
}

/// A run whose lines hold this beside frames reports the whole capture by these lines.
pub fn reports_all(
    rt: impl Abort + AllocGlobal + Copy,
    extra: Extra,
    capture: &[u8],
    lines: &[u8],
) {
    let actual = lines_of(rt, extra, &mut &*capture, Ok(()));
    equal(rt, actual.as_slice(), lines);
}

/// A run that passes over packets that can't be reported ends so, after these lines, and has passed
/// over this many. It doesn't add to what was there.
pub fn reports_skipping(
    rt: impl Abort + AllocGlobal + Copy,
    capture: &[u8],
    wanted: Result<(), RunError>,
    lines: &[u8],
    passed: Skipped,
) {
    let mut actual = Vec::new(rt.alloc());
    let mut skipped = Skipped {
        of_other_links: 7,
        too_long: 8,
        without_frame: 9,
    };
    let result = run(
        rt.alloc(),
        Extra::Nothing,
        Unfit::Skip,
        &mut &*capture,
        &mut actual,
        &mut skipped,
    );
    equal(rt, result, wanted);
    equal(rt, actual.as_slice(), lines);
    equal(rt, skipped, passed);
}
