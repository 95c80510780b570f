//! How the program ends.
ghost use Rattle.std.specs.Prelude.{◌≡◌};
ghost use Rattle.std.specs.Process.{exit_status};
ghost use Rattle.capture_programs.specs.ErrorStatus.{run_status};

use crate::captures_program::notes::note;
use crate::ending::{self, Subject};
use crate::looks::Look;
use captures::RunError;
use std::process::ExitCode;

/// [`crate::exit_code`], with a note by what the input looks like. The status is 0, 3
/// where the input is refused, 4 where a read or a write failed, and 5 out of memory or after too
/// many reads.
pub fn exit_code<P: Eprint>(
    rt: &P,
    subject: Subject<'_>,
    made: Result<(), RunError>,
    closed: bool,
    look: Look,
) -> ExitCode
    ensures { exit_status result ≡ run_status closed made }
{
    let note = match made {
        Ok(()) => "",
        Err(error) => note(error, look),
    };
    ending::exit_code(rt, subject, made, closed, note)
}
