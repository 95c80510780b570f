//! The words of the command line, and the end of a program whose words request nothing.
ghost use Rattle.std.specs.Prelude.{◌≡◌, ◌≢◌, ◌⊎◌};
ghost use Rattle.std.specs.Process.{exit_status};
ghost use Rattle.clap.specs.Values.{kind_of};
ghost use Rattle.clap.specs.declared.error.kind.ErrorKind.TheVariants.{DisplayHelp, DisplayVersion};

use crate::exit_status::status;
use anyhow::Context;
use captures::RunError;
use clap::Error;
use std::env::{self, Env};
use std::io::ErrorKind;
use std::process::ExitCode;

/// The words of the command line, of which the first is the program's name. It has no contract: it
/// rests with the system which they are.
pub fn words<R: Env + AllocGlobal>(rt: &R) -> anyhow::Result<Vec<String>> {
    let words = env::args(rt).context("the arguments are not UTF-8")?;
    Ok(words.collect(rt.alloc())?)
}

/// Prints the help or the version that the words request on standard output, or their mistake on
/// standard error. The status of a mistake is 2; else it is 0, or 4 where standard output can't be
/// written and isn't closed.
pub fn parse_failure<P: Print + Eprint>(rt: &P, program: &str, error: &Error) -> ExitCode
    ensures shown { (kind_of error.now ≡ DisplayHelp) ⊎ (kind_of error.now ≡ DisplayVersion)
        → (exit_status result ≡ 0) ⊎ (exit_status result ≡ 4) }
    ensures mistake { kind_of error.now ≢ DisplayHelp → kind_of error.now ≢ DisplayVersion
        → exit_status result ≡ 2 }
{
    let printed = error.print(rt);
    if error.use_stderr() {
        return ExitCode::from(2);
    }
    match printed {
        Err(cause) if cause.kind() != ErrorKind::BrokenPipe => {
            let failed = RunError::Write;
            let _ = eprintln!(rt; "{program}: {failed}");
            ExitCode::from(status(failed))
        }
        _ => ExitCode::SUCCESS,
    }
}
