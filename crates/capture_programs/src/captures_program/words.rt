//! What the words of the command line request.
use crate::captures_program::modes::Mode;
use captures::{Extra, TimeUnit, Unfit};
use clap::ArgMatches;

/// What the words request, of the file with this name.
#[derive(Drop)]
pub struct Requested<'m> {
    /// What is made of the file.
    pub mode: Mode,
    /// The file's name, or `-` for standard input.
    pub name: &'m str,
}

/// What the words request, if they name a command. It has no contract: tests compare what words
/// request.
pub fn requested_by<'m>(matches: &'m ArgMatches) -> Option<Requested<'m>> {
    let (mode, words) = match matches.subcommand() {
        Some(("lines", words)) => {
            let extra = extra_by(words.get_flag("times"), words.get_one::<u32>("forget"));
            (Mode::Lines(extra, unfit_by(words.get_flag("skip"))), words)
        }
        Some(("capture", words)) => {
            (Mode::Capture(unit_by(words.get_flag("nanoseconds"))), words)
        }
        _ => return None,
    };
    Some(Requested {
        mode,
        name: words.get_str("FILE").unwrap_or("-"),
    })
}

fn unfit_by(skips: bool) -> Unfit {
    if skips { Unfit::Skip } else { Unfit::Refuse }
}

// The parser of the words refuses both.
fn extra_by(times: bool, forget: Option<u32>) -> Extra {
    match forget {
        Some(seconds) => Extra::Forget(seconds),
        None if times => Extra::Times,
        None => Extra::Nothing,
    }
}

fn unit_by(nanoseconds: bool) -> TimeUnit {
    if nanoseconds {
        TimeUnit::Nanoseconds
    } else {
        TimeUnit::Microseconds
    }
}
