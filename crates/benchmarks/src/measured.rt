//! What a benchmark gives, and how the arguments name the benchmarks.

use crate::streams::Arrival;
use crate::{calls, reassemblies, streams};
use std::process::ExitCode;
use std::time::Duration;
use std::{env, io};

/// How often a benchmark does its job: in so many blocks of so many turns.
#[derive(Clone, Copy)]
pub struct Repeats {
    pub blocks: u32,
    pub turns: u32,
}

/// What a benchmark returns.
#[derive(Clone, Copy)]
pub struct Measured {
    /// A sum of all that was computed, the same in each run, so that two programs of the same job
    /// can be compared.
    pub sum: u64,
    /// The time of the fastest block.
    pub fastest: Duration,
}

/// Runs the benchmarks that the program's arguments name, one after another, and prints a line for
/// each: its name, its sum and, where the first argument is `--timed`, the nanoseconds of its
/// fastest block. It has no contract, as `measure`.
pub fn run(rt: &HostRuntime) -> io::Result<ExitCode> {
    let words: Vec<String> = env::args(rt)?.skip(1).collect(rt.alloc())?;
    let is_timed = words.first().is_some_and(|word| word.as_str() == "--timed");
    let repeats = if is_timed {
        Repeats {
            blocks: 50,
            turns: 20,
        }
    } else {
        Repeats {
            blocks: 1,
            turns: 1,
        }
    };
    for name in words.iter().skip(usize::from(is_timed)) {
        let Some(measured) = measure(rt, name.as_str(), repeats)? else {
            eprintln!(rt; "no benchmark has the name {name}")?;
            return Ok(ExitCode::FAILURE);
        };
        let sum = measured.sum;
        if is_timed {
            println!(rt; "{name} {sum} {}", measured.fastest.as_nanos())?;
        } else {
            println!(rt; "{name} {sum}")?;
        }
    }
    Ok(ExitCode::SUCCESS)
}

/// It has no contract: the time is a measurement, and the sum is compared with that of a plain program.
fn measure(rt: &HostRuntime, name: &str, repeats: Repeats) -> io::Result<Option<Measured>> {
    let arrival = match name {
        "streams_ordered" => Arrival::Ordered,
        "streams_swapped" => Arrival::Swapped,
        "streams_late" => Arrival::Late,
        "streams_repeated" => Arrival::Repeated,
        _ => return by_packets(rt, name, repeats),
    };
    streams::measure(rt, arrival, repeats.turns).map(Some)
}

/// It has no contract, as `measure`.
fn by_packets(rt: &HostRuntime, name: &str, repeats: Repeats) -> io::Result<Option<Measured>> {
    match calls::measure(rt, name, repeats)? {
        Some(measured) => Ok(Some(measured)),
        None => reassemblies::measure(rt, name, repeats),
    }
}
