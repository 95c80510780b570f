//! Turns a capture file into lines for `netlines`, `captures lines [FILE|-]`, and lines into a
//! capture file, `captures capture [FILE|-]`.
#![tactic(auto)]

use capture_programs::captures_arguments::{PROGRAM, command};
use capture_programs::captures_program::{Mode, Requested, exit_code, make, requested_by};
use capture_programs::{
    ClosableWriter, Input, ProgressLine, ProgressReader, Subject, failure, len_of, parse_failure,
    report_skipped, unopened, words,
};
use captures::Skipped;
use std::fs::File;
use std::io::Read;
use std::process::ExitCode;

fn main(rt: HostRuntime) -> ExitCode {
    run(&rt).unwrap_or_else(|error| failure(&rt, PROGRAM, error))
}

fn run(rt: &HostRuntime) -> anyhow::Result<ExitCode> {
    let words = words(rt)?;
    let matches = match command(rt.alloc())?.try_get_matches_from(words.as_slice()) {
        Ok(matches) => matches,
        Err(error) => return Ok(parse_failure(rt, PROGRAM, &error)),
    };
    match requested_by(&matches) {
        Some(requested) => make_of_file(rt, &requested),
        None => Ok(ExitCode::SUCCESS),
    }
}

fn make_of_file(rt: &HostRuntime, requested: &Requested<'_>) -> anyhow::Result<ExitCode> {
    let subject = Subject {
        program: PROGRAM,
        input: requested.name,
    };
    if subject.input == "-" {
        let input = Input::new(rt.alloc(), rt.stdin())?;
        return Ok(make_of(rt, subject, requested.mode, None, input));
    }
    let file = match File::open(rt, subject.input) {
        Ok(file) => file,
        Err(error) => return Ok(unopened(rt, subject, error)),
    };
    let len = len_of(&file);
    let input = Input::new(rt.alloc(), file)?;
    Ok(make_of(rt, subject, requested.mode, len, input))
}

fn make_of<R: Read + Drop>(
    rt: &HostRuntime,
    subject: Subject<'_>,
    mode: Mode,
    len: Option<u64>,
    mut input: Input<R>,
) -> ExitCode {
    let look = input.look();
    let mut progress = ProgressLine::beside_output(rt, len);
    let mut input = ProgressReader::new(input, &mut progress);
    let mut skipped = Skipped::NONE;
    let mut output = ClosableWriter::new(rt.stdout());
    let made = make(rt.alloc(), mode, &mut input, &mut output, &mut skipped);
    drop(input);
    progress.end();
    if !output.is_closed() {
        report_skipped(rt, subject, skipped);
    }
    exit_code(rt, subject, made, output.is_closed(), look)
}
