//! What the command lines of both programs have in common, each with a help of its own.
use clap::{Arg, ArgAction, Command, value_parser};
use std::alloc::{AllocError, Global};

/// A program that has this name under whatever name it is called. It has no contract: tests compare
/// what words request.
pub fn program<'a>(
    alloc: Global,
    name: &'a str,
    about: &'a str,
) -> Result<Command<'a>, AllocError> {
    Command::new(alloc, name)
        .about(about)
        .version("2.0.0")
        .bin_name(name)
}

/// The program with one more command. It has no contract, as `program`.
pub fn with_command<'a>(
    program: Command<'a>,
    command: Result<Command<'a>, AllocError>,
) -> Result<Command<'a>, AllocError> {
    program.subcommand(command?)
}

/// An option without a value. It has no contract: tests compare what words request.
pub fn flag<'a>(alloc: Global, name: &'a str, help: &'a str) -> Arg<'a> {
    Arg::new(alloc, name)
        .long(name)
        .help(help)
        .action(ArgAction::SetTrue)
}

/// An option whose value is a whole number of 32 bits that isn't 0. It has no contract: tests
/// compare what words request.
pub fn number<'a>(alloc: Global, name: &'a str, value: &'a str, help: &'a str) -> Arg<'a> {
    Arg::new(alloc, name)
        .long(name)
        .value_name(value)
        .help(help)
        .value_parser(value_parser!(u32).range(1..4_294_967_296))
}

/// The file to be read. It has no contract: tests compare what words request.
pub fn file<'a>(alloc: Global, help: &'a str) -> Arg<'a> {
    Arg::new(alloc, "FILE").help(help).default_value("-")
}
