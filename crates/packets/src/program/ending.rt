//! How the program ends.
ghost use Rattle.std.specs.Prelude.{◌≡◌, ◌&&◌, not, MatchResult};
ghost use Rattle.std.specs.Process.{exit_status};
ghost use Rattle.capture_programs.specs.ErrorStatus.{run_status};
ghost use Rattle.packets.specs.Inputs.{is_of_input};

use capture_programs::{Look, Subject, note, opener};
use captures::{CaptureError, RunError};
use std::fmt;
use std::process::ExitCode;

/// [`capture_programs::exit_code`], with a note by what the input looks like: of a compressed one the
/// words that this command reads it by. The status is 0, 3 where the input is refused, 4 where a read
/// or a write failed, and 5 out of memory or after too many reads.
pub fn exit_code<P: Eprint>(
    rt: &P,
    subject: Subject<'_>,
    command: &str,
    reported: Result<(), RunError>,
    closed: bool,
    look: Look,
) -> ExitCode
    ensures { exit_status result ≡ run_status closed reported }
{
    let note = InputNote {
        subject,
        command,
        reported,
        look,
    };
    capture_programs::exit_code(rt, subject, reported, closed, note)
}

/// Whether the input after one that ended so is read: not where nobody reads the output any more, where
/// that can't be written, or where memory ran out.
pub fn goes_on(reported: Result<(), RunError>, closed: bool) -> bool
    ensures { MatchResult reported (λ _. result ≡ not closed)
        (λ error. result ≡ not closed && is_of_input error) }
{
    match reported {
        Ok(()) => !closed,
        Err(RunError::Write | RunError::WriteZero | RunError::Memory) => false,
        Err(_) => !closed,
    }
}

// The note on an input, after the error.
#[derive(Drop)]
struct InputNote<'a> {
    subject: Subject<'a>,
    command: &'a str,
    reported: Result<(), RunError>,
    look: Look,
}

impl fmt::Display for InputNote<'_> {
    fn fmt<W: fmt::Write>(&self, f: &mut fmt::Formatter<W>) -> fmt::Result {
        let Err(error) = self.reported else {
            return Ok(());
        };
        match (error, opener(self.look)) {
            (RunError::Capture(CaptureError::NotCapture, _), Some(opener)) => {
                self.write_words(f, opener)
            }
            _ => f.write_str(note(error, self.look)),
        }
    }
}

impl InputNote<'_> {
    // What reads a compressed input, as it is typed.
    fn write_words<W: fmt::Write>(&self, f: &mut fmt::Formatter<W>, opener: &str) -> fmt::Result {
        let Subject { program, input } = self.subject;
        let command = self.command;
        write!(f, ": the input is compressed, `{opener}")?;
        match input {
            "-" => write!(f, " | {program} {command}` reads it"),
            _ => write!(f, " {input} | {program} {command}` reads it"),
        }
    }
}

/// Reports on standard error how many incomplete messages were dropped, if any were, so that the
/// others take no more than so many bytes. It has no contract: tests compare the texts.
pub fn report_dropped<P: Eprint>(rt: &P, subject: Subject<'_>, dropped: u64, memory: u64) {
    if dropped > 0 {
        let _ = eprintln!(rt;
            "{subject}: incomplete messages dropped: {dropped} (above {memory} bytes)"
        );
    }
}
