//! What is written and flushed.
ghost use Rattle.std.specs.Prelude.{List, Result, ℕ};
ghost use Rattle.device_runs.specs.Endings.{EndsFlushed};
ghost use Rattle.captures.specs.declared.translation.run_error.RunError.{RunError};
ghost use Rattle.packets.specs.Written.{AreTexts, Writes, WritesLines};
ghost use Rattle.packets.specs.WrittenCaptures.{WritesCapture, WritesRecords};
ghost use Rattle.packets.specs.declared.dissection.Dissection.{Dissection};

use crate::{
    FlowObject, FlowTable, FollowedFlows, Following, LineWriter, Listing, Omitted, Rules,
    StreamTable, SummaryText, WebPage, write_capture, write_followed, write_lines, write_records,
};
use captures::{RunError, Skipped};
use device_runs::flush_after;
use std::alloc::Global;
use std::hash::BuildHasher;
use std::io::{ErrorKind, Read, Write};

/// [`write_lines`], and a flush after it, also where the input is refused. A flush that fails after
/// a whole input is a failed write.
pub fn write_flushed<R: Read + Drop, W: Write, L: LineWriter, S: BuildHasher + Drop>(
    alloc: Global,
    state: S,
    rules: &Rules,
    lines: &L,
    reader: R,
    writer: &mut W,
    omitted: &mut Omitted,
) -> Result<(), RunError>
    ensures { (done : Result Unit RunError) × EndsFlushed RunError.Write done result
        × WritesLines (L.describes lines.now) (L.details lines.now) rules.now omitted.new (R.remaining reader)
        (W.contents writer.old) (W.contents writer.new) done }
{
    let written = write_lines(alloc, state, rules, lines, reader, writer, omitted);
    flush_after(writer, written, RunError::Write)
}

/// [`write_capture`], and a flush after it, as [`write_flushed`].
pub fn write_capture_flushed<R: Read + Drop, W: Write, S: BuildHasher + Drop>(
    alloc: Global,
    state: S,
    rules: &Rules,
    reader: R,
    writer: &mut W,
    omitted: &mut Omitted,
) -> Result<(), RunError>
    ensures { (done : Result Unit RunError) × EndsFlushed RunError.Write done result
        × WritesCapture rules.now omitted.new (R.remaining reader)
        (W.contents writer.old) (W.contents writer.new) done }
{
    let ended = write_capture(alloc, state, rules, reader, writer, omitted);
    flush_after(writer, ended, RunError::Write)
}

/// [`write_records`], and a flush after it, as [`write_flushed`].
pub fn write_records_flushed<R: Read + Drop, W: Write, S: BuildHasher + Drop>(
    alloc: Global,
    state: S,
    rules: &Rules,
    reader: R,
    writer: &mut W,
    omitted: &mut Omitted,
) -> Result<(), RunError>
    ensures { (done : Result Unit RunError) × EndsFlushed RunError.Write done result
        × WritesRecords rules.now omitted.new (R.remaining reader)
        (W.contents writer.old) (W.contents writer.new) done }
{
    let ended = write_records(alloc, state, rules, reader, writer, omitted);
    flush_after(writer, ended, RunError::Write)
}

/// [`write_followed`], and a flush after it, as [`write_flushed`].
pub fn write_followed_flushed<R: Read + Drop, W: Write, S: BuildHasher + Drop>(
    alloc: Global,
    state: S,
    rules: &Rules,
    following: &Following,
    reader: R,
    writer: &mut W,
    omitted: &mut Omitted,
) -> Result<(), RunError>
    ensures { (done : Result Unit RunError) × EndsFlushed RunError.Write done result
        × Writes (AreTexts (λ (packet : Dissection) (text : List ℕ). Unit {0})) rules.now omitted.new
        (R.remaining reader) (W.contents writer.old) (W.contents writer.new) done }
{
    let ended = write_followed(alloc, state, rules, following, reader, writer, omitted);
    flush_after(writer, ended, RunError::Write)
}

/// Writes how the connection ends that is followed. It has no contract: tests compare the texts.
pub fn write_follow_end<W: Write>(
    alloc: Global,
    following: &Following,
    writer: &mut W,
) -> Result<(), RunError> {
    let mut text = Vec::new(alloc);
    match following.append_end(&mut text) {
        Ok(()) => write_whole_flushed(text.as_slice(), writer),
        Err(_) => Err(RunError::Memory),
    }
}

/// Writes what is in a capture, counted, as text. It has no contract: tests compare the texts.
pub fn write_summary<S: BuildHasher, W: Write>(
    alloc: Global,
    summary: &SummaryText<'_, S>,
    writer: &mut W,
) -> Result<(), RunError> {
    let Ok(text) = format!(in alloc; "{summary}") else {
        return Err(RunError::Memory);
    };
    write_whole_flushed(text.as_bytes(), writer)
}

/// Writes the conversations that are listed, as tables or as a JSON object in one line. It has no
/// contract: tests compare the texts.
pub fn write_flows<S: BuildHasher, W: Write>(
    alloc: Global,
    followed: &FollowedFlows<S>,
    listing: &Listing,
    skipped: Skipped,
    writer: &mut W,
) -> Result<(), RunError> {
    let Ok(indices) = listing.indices(alloc, &followed.flows) else {
        return Err(RunError::Memory);
    };
    let indices = indices.as_slice();
    if listing.json {
        return write_object(alloc, &FlowObject { followed, indices }, writer);
    }
    let table = FlowTable {
        flows: &followed.flows,
        indices,
        skipped,
    };
    let streams = StreamTable { followed, indices };
    let Ok(text) = format!(in alloc; "{table}{streams}") else {
        return Err(RunError::Memory);
    };
    write_whole_flushed(text.as_bytes(), writer)
}

fn write_object<S: BuildHasher, W: Write>(
    alloc: Global,
    object: &FlowObject<'_, S>,
    writer: &mut W,
) -> Result<(), RunError> {
    // The only error is that memory ran out.
    let Ok(mut bytes) = serde_json::to_vec(alloc, object) else {
        return Err(RunError::Memory);
    };
    match bytes.push(b'\n') {
        Ok(()) => write_whole_flushed(bytes.as_slice(), writer),
        Err(_) => Err(RunError::Memory),
    }
}

/// Writes a report as a page. It has no contract: tests compare the texts.
pub fn write_page<S: BuildHasher, W: Write>(
    alloc: Global,
    page: &WebPage<'_, S>,
    writer: &mut W,
) -> Result<(), RunError> {
    match page.write(alloc) {
        Ok(page) => write_whole_flushed(page.bytes(), writer),
        Err(_) => Err(RunError::Memory),
    }
}

fn write_whole_flushed<W: Write>(bytes: &[u8], writer: &mut W) -> Result<(), RunError> {
    match writer.write_all(bytes) {
        Ok(()) => flush_after(writer, Ok(()), RunError::Write),
        Err(error) if error.kind() == ErrorKind::WriteZero => Err(RunError::WriteZero),
        Err(_) => Err(RunError::Write),
    }
}
