//! Runs in which each line is answered by its frame and those of the lines before it.
ghost use Rattle.std.specs.Prelude.{◌≡◌, ◌≤◌, length, OnOk, IfOk, IfSome, IsErrOf};
ghost use Rattle.std.specs.Io.KnownBytes.{Appends, IsAtEnd};
ghost use Rattle.device_runs.specs.Known.{KnownCall, known_of};
ghost use Rattle.netlines.specs.Answers.{answers_of};
ghost use Rattle.netlines.specs.FrameRuns.{Runs, RunsWithin, Transfers};

use crate::frames::frame_answerer::FrameAnswerer;
use device_runs::{Device, ReaderWriter};
use lines::{READ_COUNT_LIMIT, RunError, answers_by, run_with};
use std::alloc::{AllocError, Global};
use std::hash::{BuildHasher, BuildHasherDefault, FoldHasher};
use std::io::{Read, Write};

/// Answers each line of the reader by a line on the writer, up to the end of the reader.
///
/// A read that returns no bytes is the end, and nothing is read after it. Any error that a read or
/// a write returns ends the run, that of an interrupted call too. Only [`run_over`] says that such
/// a call caused an error: the contracts of `Read` and `Write` don't say what a failed call does.
///
/// Memory is taken before the first read, and then only for fragments that no rule refuses. Where
/// it runs out for one of these, the answers to all lines before it are written.
///
/// The names of messages are hashed by a fixed seed. Where untrusted senders choose the names, use
/// [`run_with_hasher`].
pub fn run<R: Read, W: Write>(alloc: Global, reader: &mut R, writer: &mut W) -> Result<(), RunError>
    // All lines are answered, and no byte is left to read.
    ensures ok { OnOk result (IfSome (R.remaining reader.old) (λ bytes.
        Appends (W.contents writer.old) (W.contents writer.new) (answers_of bytes))) }
    ensures end { OnOk result (IsAtEnd (R.remaining reader.new)) }

    // However reads and writes cut the bytes, what is written is the output for the bytes read.
    ensures bytes { Transfers (R.remaining reader.old) (R.remaining reader.new)
        (W.contents writer.old) (W.contents writer.new) result }

    // The calls, one by one, as far as they show in the known bytes.
    ensures calls { Runs KnownCall READ_COUNT_LIMIT
        (known_of (R.remaining reader.old) (W.contents writer.old))
        (known_of (R.remaining reader.new) (W.contents writer.new)) result }

    // Each of these reads gave a byte at least.
    ensures too_many { IsErrOf result RunError.TooManyReads
        → IfSome (R.remaining reader.old) (λ bytes. READ_COUNT_LIMIT ≤ length bytes) }
{
    run_bounded(alloc, reader, writer, READ_COUNT_LIMIT)
}

/// [`run`] with a bound on the number of reads; the one that finds the end counts too.
pub fn run_bounded<R: Read, W: Write>(
    alloc: Global,
    reader: &mut R,
    writer: &mut W,
    reads: u64,
) -> Result<(), RunError>
    requires { reads ≤ READ_COUNT_LIMIT }
    ensures { RunsWithin reads (R.remaining reader.old) (R.remaining reader.new)
        (W.contents writer.old) (W.contents writer.new) result }
{
    run_with_hasher(
        alloc,
        BuildHasherDefault::<FoldHasher>::new(),
        reader,
        writer,
        reads,
    )
}

/// [`run_bounded`] with the names of messages hashed by this state. The state changes no byte of
/// the output: no clause names it. A [`std::hash::RandomState`] keeps names that untrusted senders
/// choose from colliding by intent.
pub fn run_with_hasher<S: BuildHasher + Drop, R: Read, W: Write>(
    alloc: Global,
    state: S,
    reader: &mut R,
    writer: &mut W,
    reads: u64,
) -> Result<(), RunError>
    requires { reads ≤ READ_COUNT_LIMIT }
    ensures { RunsWithin reads (R.remaining reader.old) (R.remaining reader.new)
        (W.contents writer.old) (W.contents writer.new) result }
{
    let mut device = ReaderWriter { reader, writer };
    let result = run_over_with_hasher(alloc, state, &mut device, reads);
    // No effect at run time. The proof reads here what both hold at the end.
    let _ = &*device.reader;
    let _ = &*device.writer;
    result
}

/// A run of at most so many reads over any device: each call that it makes, in its order, and how
/// these calls end it.
pub fn run_over<D: Device>(alloc: Global, device: &mut D, reads: u64) -> Result<(), RunError>
    requires { reads ≤ READ_COUNT_LIMIT }
    ensures { Runs D.transition reads device.old device.new result }
{
    run_over_with_hasher(
        alloc,
        BuildHasherDefault::<FoldHasher>::new(),
        device,
        reads,
    )
}

/// [`run_over`] with the names of messages hashed by this state, as in [`run_with_hasher`].
pub fn run_over_with_hasher<S: BuildHasher + Drop, D: Device>(
    alloc: Global,
    state: S,
    device: &mut D,
    reads: u64,
) -> Result<(), RunError>
    requires { reads ≤ READ_COUNT_LIMIT }
    ensures { Runs D.transition reads device.old device.new result }
{
    let Ok(answerer) = FrameAnswerer::with_hasher(alloc, state) else {
        return Err(RunError::Memory);
    };
    run_with(alloc, answerer, device, reads)
}

/// The answers to all lines of a text, each ended by 0a. The only error is out of memory.
pub fn answers(alloc: Global, text: &[u8]) -> Result<Vec<u8>, AllocError>
    ensures { IfOk result (λ answers. answers.items ≡ answers_of text.now) }
{
    answers_by(alloc, FrameAnswerer::new(alloc)?, text)
}
