//! Answers the lines of standard input on standard output.
#![tactic(auto)]

use netlines::{answer_input, exit_code};
use std::process::ExitCode;

fn main(rt: HostRuntime) -> ExitCode {
    let done = answer_input(rt.alloc(), &mut rt.stdin(), &mut rt.stdout());
    exit_code(&rt, done)
}
