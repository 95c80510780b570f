//! What a program that reads captures reports at its end.
ghost use Rattle.std.specs.Prelude.{◌≡◌};
ghost use Rattle.std.specs.Process.{exit_status};
ghost use Rattle.capture_programs.specs.ErrorStatus.{run_status};

use crate::exit_status::status;
use crate::notes::ReportedError;
use captures::{RunError, Skipped};
use std::process::ExitCode;
use std::{fmt, io};

/// What reports are about: a program and its input.
#[derive(Clone, Copy, Debug)]
pub struct Subject<'a> {
    /// The program's name.
    pub program: &'a str,
    /// The input's name as it was given, or `-` for standard input.
    pub input: &'a str,
}

/// It has no contract: tests compare the texts.
impl fmt::Display for Subject<'_> {
    fn fmt<W: fmt::Write>(&self, f: &mut fmt::Formatter<W>) -> fmt::Result {
        let (program, input) = (self.program, self.input);
        match input {
            "-" => write!(f, "{program}: standard input"),
            _ => write!(f, "{program}: {input}"),
        }
    }
}

/// Reports on standard error what was passed over, if anything was. It has no contract: tests
/// compare the texts.
pub fn report_skipped<P: Eprint>(rt: &P, subject: Subject<'_>, skipped: Skipped) {
    if skipped != Skipped::NONE {
        let _ = eprintln!(rt; "{subject}: passed over: {skipped}");
    }
}

/// Reports on standard error why nothing is read. The status is 1.
pub fn failure<P: Eprint, E: fmt::Display + Drop>(rt: &P, program: &str, error: E) -> ExitCode
    ensures { exit_status result ≡ 1 }
{
    let _ = eprintln!(rt; "{program}: {error:#}");
    ExitCode::FAILURE
}

/// Reports on standard error why the input isn't opened. The status is 1.
pub fn unopened<P: Eprint>(rt: &P, subject: Subject<'_>, error: io::Error) -> ExitCode
    ensures { exit_status result ≡ 1 }
{
    let _ = eprintln!(rt; "{subject}: cannot be opened: {error}");
    ExitCode::FAILURE
}

/// The exit status of a run; `closed` says whether its output was found closed. An error is reported
/// on standard error, with this note after it, but not a failed write to a closed output. Where the
/// report fails too, the status still says it.
pub fn exit_code<P: Eprint, N: fmt::Display + Drop>(
    rt: &P,
    subject: Subject<'_>,
    ended: Result<(), RunError>,
    closed: bool,
    note: N,
) -> ExitCode
    ensures { exit_status result ≡ run_status closed ended }
{
    match ended {
        Ok(()) => ExitCode::SUCCESS,
        Err(RunError::Write) if closed => ExitCode::SUCCESS,
        Err(error) => {
            report_error(rt, subject, ReportedError { error, note });
            ExitCode::from(status(error))
        }
    }
}

// Only what the input has to do with is reported with its name.
fn report_error<P: Eprint, N: fmt::Display + Drop>(
    rt: &P,
    subject: Subject<'_>,
    reported: ReportedError<N>,
) {
    let program = subject.program;
    let _ = match reported.error {
        RunError::Write | RunError::WriteZero | RunError::Memory => {
            eprintln!(rt; "{program}: {reported}")
        }
        RunError::Read | RunError::TooManyReads | RunError::Capture(_, _) | RunError::BadLine(_) =>
            eprintln!(rt; "{subject}: {reported}"),
    };
}
