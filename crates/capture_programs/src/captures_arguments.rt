//! The command line of the program `captures`.
use crate::arguments::{file, flag, number, program, with_command};
use clap::{Arg, Command};
use std::alloc::{AllocError, Global};

/// The program's name, as it is installed.
pub const PROGRAM: &str = "captures";

const EXAMPLES: &str = "\
Examples:
  captures lines x.pcap | netlines                            the answer to each packet
  captures lines --times x.pcap                               a line for each packet, with its time
  captures lines --times x.pcap | captures capture > y.pcap   the same packets as a classic capture";

const EXAMPLES_OF_LINES: &str = "\
Examples:
  captures lines x.pcap | netlines                            the answer to each packet
  captures lines --skip --forget 30 x.pcap | netlines         the same, in bounded memory
  tcpdump -U -w - | captures lines                            lines as packets come";

const EXAMPLES_OF_CAPTURE: &str = "\
Examples:
  captures lines --times x.pcap | captures capture > y.pcap   the same packets as a classic capture
  captures capture --nanoseconds x.lines > x.pcap             with times in nanoseconds
  captures capture x.lines | packets show                     what is in the frames of lines";

/// The command line. It has no contract: tests compare what words request.
pub fn command<'a>(alloc: Global) -> Result<Command<'a>, AllocError> {
    let program = program(
        alloc,
        PROGRAM,
        "Turns capture files into lines, and lines into capture files",
    )?
    .after_help(EXAMPLES);
    let program = with_command(program.subcommand_required(true), lines(alloc))?;
    with_command(program, capture(alloc))
}

fn lines<'a>(alloc: Global) -> Result<Command<'a>, AllocError> {
    let command = Command::new(alloc, "lines")
        .about("Reads a capture, pcap or pcapng, and writes a line for each packet")
        .after_help(EXAMPLES_OF_LINES)
        .arg(flag(
            alloc,
            "skip",
            "Passes over packets of link types that are not read, without a frame or too long",
        ))?;
    with_times(alloc, command)?.arg(input(alloc))
}

fn with_times<'a>(alloc: Global, command: Command<'a>) -> Result<Command<'a>, AllocError> {
    command.arg(times(alloc)?)?.arg(number(
        alloc,
        "forget",
        "SECONDS",
        "Has `netlines` drop messages that got no fragment for one to two times SECONDS",
    ))
}

fn times<'a>(alloc: Global) -> Result<Arg<'a>, AllocError> {
    let help = "Adds the time of each packet, as `capture` reads it";
    flag(alloc, "times", help).conflicts_with("forget")
}

fn capture<'a>(alloc: Global) -> Result<Command<'a>, AllocError> {
    Command::new(alloc, "capture")
        .about("Reads lines as `lines` writes them, and writes a capture, pcap, of their frames")
        .after_help(EXAMPLES_OF_CAPTURE)
        .arg(flag(
            alloc,
            "nanoseconds",
            "Writes times in nanoseconds, not microseconds",
        ))?
        .arg(input(alloc))
}

fn input<'a>(alloc: Global) -> Arg<'a> {
    file(alloc, "The file to read, or - for standard input")
}
