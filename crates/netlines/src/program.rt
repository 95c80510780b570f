//! What the program `netlines` does, apart from the system that it runs on: it answers an input,
//! and ends with a status.
ghost use Rattle.std.specs.Prelude.{◌≡◌, ℕ, List, Option, Result, OnOk, IfSome, MatchResult};
ghost use Rattle.std.specs.Io.KnownBytes.{Appends, IsAtEnd, Keeps};
ghost use Rattle.std.specs.Process.{exit_status};
ghost use Rattle.lines.specs.declared.run_error.RunError.{RunError};
ghost use Rattle.device_runs.specs.Endings.{EndsFlushed};
ghost use Rattle.netlines.specs.Answers.{answers_of};
ghost use Rattle.netlines.specs.FrameRuns.{RunsWithin};

use crate::frames::run_frames::run;
use device_runs::flush_after;
use lines::{READ_COUNT_LIMIT, RunError};
use std::alloc::Global;
use std::io::{Read, Write};
use std::process::ExitCode;

/// [`run`], and a flush after it where all lines are answered. A flush that fails is a failed
/// write. After another error what [`run`] says of it holds.
pub fn answer_input<R: Read, W: Write>(
    alloc: Global,
    reader: &mut R,
    writer: &mut W,
) -> Result<(), RunError>
    // All lines are answered, and no byte is left to read.
    ensures ok { OnOk result (IfSome (R.remaining reader.old) (λ bytes.
        Appends (W.contents writer.old) (W.contents writer.new) (answers_of bytes))) }
    ensures end { OnOk result (IsAtEnd (R.remaining reader.new)) }

    // What holds of the run before the flush, which keeps what is written.
    ensures run { (done : Result Unit RunError) × (held : Option (List ℕ))
        × EndsFlushed RunError.Write done result × Keeps held (W.contents writer.new)
        × RunsWithin READ_COUNT_LIMIT (R.remaining reader.old) (R.remaining reader.new)
        (W.contents writer.old) held done }
{
    run(alloc, reader, writer)?;
    flush_after(writer, Ok(()), RunError::Write)
}

/// Prints the [`fault_name`] of an error on standard error, and returns the status, which says that
/// there was an error also where printing fails.
pub fn exit_code<P: Eprint>(rt: &P, done: Result<(), RunError>) -> ExitCode
    ensures { MatchResult done (λ _. exit_status result ≡ 0) (λ _. exit_status result ≡ 1) }
{
    match done {
        Ok(()) => ExitCode::SUCCESS,
        Err(error) => {
            let _ = eprintln!(rt; "netlines: {}", fault_name(error));
            ExitCode::FAILURE
        }
    }
}

/// What the program calls an error: `read`, `write`, `memory` or `reads`. It has no contract: tests
/// compare the texts.
pub fn fault_name(error: RunError) -> &'static str {
    match error {
        RunError::Read => "read",
        RunError::Write | RunError::WriteZero => "write",
        RunError::Memory => "memory",
        RunError::TooManyReads => "reads",
    }
}
