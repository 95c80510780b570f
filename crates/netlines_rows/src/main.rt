//! Compares the answers of `netlines` with worked rows.
//!
//! A row NAME is an input, `NAME.in`, and the output that it has to give, `NAME.out`. The rows were
//! worked out by hand, or by a program that is independent of this project. The arguments name the rows that
//! are compared, with each hasher's state for the names of messages. Those that differ are printed,
//! and then the program fails. The file `refusals` says of each frame that is refused which layer
//! breaks, and at which offset that starts.
#![tactic(auto)]

mod comparison;
mod frame_count;
mod headers;

use crate::comparison::{agrees, agrees_in_chunks};
use crate::frame_count::count_frames;
use crate::headers::Frames;
use anyhow::{Context, Result};
use std::hash::{BuildHasherDefault, FoldHasher, RandomState};
use std::process::ExitCode;
use std::rt::Files;
use std::{env, fs};

fn main(rt: HostRuntime) -> Result<ExitCode> {
    let names: Vec<String> = env::args(&rt)?.skip(1).collect(rt.alloc())?;
    let random = RandomState::new(&rt).context("taking random keys")?;
    let mut differing = 0usize;
    let mut frames = Frames::new(rt.alloc());
    for name in &names {
        let input = read(&rt, name.as_str(), "in")?;
        if !is_answered(&rt, random, name.as_str(), input.as_slice())? {
            differing += 1;
        }
        count_frames(rt.alloc(), name.as_str(), input.as_slice(), &mut frames)?;
    }
    println!(rt; "{} rows compared, {differing} of them differ", names.len())?;
    let agrees = print_frames(&rt, &frames)?;
    Ok(if differing == 0 && agrees {
        ExitCode::SUCCESS
    } else {
        ExitCode::FAILURE
    })
}

// Whether a row agrees. Where it differs its name is printed.
fn is_answered(rt: &HostRuntime, random: RandomState, name: &str, input: &[u8]) -> Result<bool> {
    let wanted = read(rt, name, "out")?;
    let wanted = wanted.as_slice();
    let fixed = BuildHasherDefault::<FoldHasher>::new();
    let outcome = if !agrees(rt.alloc(), input, wanted)? {
        "differs"
    } else if !agrees_in_chunks(rt.alloc(), fixed, input, wanted)? {
        "differs where reads give few bytes"
    } else if !agrees_in_chunks(rt.alloc(), random, input, wanted)? {
        "differs where names are hashed by random keys"
    } else {
        return Ok(true);
    };
    println!(rt; "{name} {outcome}")?;
    Ok(false)
}

// Prints how many frames are read alike. Whether the refusals are those that are stored.
fn print_frames(rt: &HostRuntime, frames: &Frames) -> Result<bool> {
    println!(rt;
        "{} frames have the same headers as slices, {} are refused alike, {} are read otherwise",
        frames.same, frames.refused, frames.apart,
    )?;
    let refusals = fs::read(rt, "refusals").context("reading refusals")?;
    let agrees = frames.refusals.as_bytes() == refusals.as_slice();
    println!(rt;
        "the layers and offsets of refused frames {}",
        if agrees { "agree" } else { "differ" }
    )?;
    Ok(agrees)
}

// The bytes of one file of a row.
fn read<R: Files + AllocGlobal>(rt: &R, name: &str, extension: &str) -> Result<Vec<u8>> {
    let path = format!(in rt.alloc(); "{name}.{extension}")?;
    fs::read(rt, path.as_str()).context(format_args!("reading {name}.{extension}"))
}
