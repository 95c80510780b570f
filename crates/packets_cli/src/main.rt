//! Shows what is in captures: `packets [show|json|summary|flows|report|follow ID] [FILE|-]..`.
#![tactic(auto)]

mod capture_output;
mod counting;
mod following;
mod local_zone;

use crate::capture_output::CaptureOutput;
use crate::counting::{FlowCounts, PageCounts, SummaryCounts, count_files};
use crate::following::follow_files;
use crate::local_zone::LocalZone;
use capture_programs::packets_arguments::PROGRAM;
use capture_programs::{
    ClosableWriter, Input, Look, ProgressLine, ProgressReader, Subject, failure, len_of,
    parse_failure, report_skipped, unopened, words,
};
use captures::RunError;
use packets::program::{
    Coloring, LineRequest, Output, RequestError, Requested, command, exit_code, goes_on,
    report_dropped, requested_by, write_capture_flushed, write_flushed, write_records_flushed,
};
use packets::{
    Connections, FollowedFlows, JsonLines, LineWriter, Omitted, Overview, ShowLines, ShowOptions,
    Style, Summary, TimeForm,
};
use std::env::{self, VarError};
use std::fs::{self, File, Metadata};
use std::hash::RandomState;
use std::io::{self, IsTerminal, Read, Write};
use std::os::unix::fs::MetadataExt;
use std::process::ExitCode;

fn main(rt: HostRuntime) -> ExitCode {
    run(&rt).unwrap_or_else(|error| failure(&rt, PROGRAM, error))
}

fn run(rt: &HostRuntime) -> anyhow::Result<ExitCode> {
    let words = words(rt)?;
    let matches = match command(rt.alloc())?.try_get_matches_from(words.as_slice()) {
        Ok(matches) => matches,
        Err(error) => return Ok(parse_failure(rt, PROGRAM, &error)),
    };
    match requested_by(rt.alloc(), &matches) {
        Ok(requested) => run_on_files(rt, &requested, words.get(1..).unwrap_or(&[])),
        Err(RequestError::Memory(error)) => Err(error.into()),
        Err(error) => {
            let _ = eprintln!(rt; "error: {error}\n\nFor more information, try '--help'.");
            Ok(ExitCode::from(2))
        }
    }
}

fn run_on_files(
    rt: &HostRuntime,
    requested: &Requested<'_>,
    words: &[String],
) -> anyhow::Result<ExitCode> {
    let mut output = ClosableWriter::new(rt.stdout());
    match &requested.output {
        Output::Capture(name) => capture_files(rt, requested, *name),
        Output::Show(request) => show_files(rt, requested, request, &mut output),
        Output::Json(payload) => {
            let lines = JsonLines::new(rt.alloc(), *payload);
            write_files(rt, requested, &lines, &mut output)
        }
        Output::Summary => {
            let counts = SummaryCounts {
                summary: Summary::with_hashers(
                    rt.alloc(),
                    RandomState::new(rt)?,
                    RandomState::new(rt)?,
                    RandomState::new(rt)?,
                ),
            };
            count_files(rt, requested, counts, &mut output)
        }
        Output::Report => {
            let summary = Summary::with_hashers(
                rt.alloc(),
                RandomState::new(rt)?,
                RandomState::new(rt)?,
                RandomState::new(rt)?,
            );
            let counts = PageCounts {
                overview: Overview::new(summary),
                names: requested.names,
                words,
            };
            count_files(rt, requested, counts, &mut output)
        }
        Output::Flows(listing) => {
            let counts = FlowCounts {
                flows: FollowedFlows::with_hashers(
                    rt.alloc(),
                    RandomState::new(rt)?,
                    RandomState::new(rt)?,
                ),
                listing: *listing,
            };
            count_files(rt, requested, counts, &mut output)
        }
        Output::Follow(options) => follow_files(rt, requested, *options, &mut output),
    }
}

fn show_files<W: Write>(
    rt: &HostRuntime,
    requested: &Requested<'_>,
    request: &LineRequest,
    output: &mut ClosableWriter<W>,
) -> anyhow::Result<ExitCode> {
    let options = ShowOptions {
        style: style_of(rt, request.coloring),
        time: request.time,
        width: request.width,
        link: request.link,
        bytes: request.bytes,
    };
    let connections = if request.relative {
        let state = RandomState::new(rt)?;
        Some(Connections::with_hasher(rt.alloc(), state)?)
    } else {
        None
    };
    let local = match request.time {
        TimeForm::Local => LocalZone::read(rt),
        _ => Ok(LocalZone::utc(rt)),
    };
    match &local {
        Ok(local) => match local.zone() {
            Ok(zone) => {
                let lines = ShowLines::new(options, zone, connections);
                write_files(rt, requested, &lines, output)
            }
            Err(error) => Ok(zone_unread(rt, error)),
        },
        Err(error) => Ok(zone_unread(rt, *error)),
    }
}

// Where the local time zone can't be read nothing is.
fn zone_unread(rt: &HostRuntime, error: jiff::Error) -> ExitCode {
    failure(
        rt,
        PROGRAM,
        format_args!("the local time zone cannot be read: {error}"),
    )
}

/// What is done with each file.
pub trait Task {
    /// Takes a file.
    fn take<R: Read + Drop>(
        &mut self,
        subject: Subject<'_>,
        len: Option<u64>,
        input: Input<R>,
    ) -> anyhow::Result<FileEnd>;
}

/// How a file ended.
#[derive(Drop)]
pub struct FileEnd {
    /// The status, if it isn't 0.
    pub failed: Option<ExitCode>,
    /// Whether the next one is read.
    pub goes_on: bool,
}

/// Takes the files one after the other, up to one after which none is read. The status is that of the
/// first one that failed, if any did. It has no contract, nor has the next: it rests with the system
/// what files hold.
pub fn take_files<T: Task>(
    rt: &HostRuntime,
    names: &[&str],
    task: &mut T,
) -> anyhow::Result<Option<ExitCode>> {
    let mut failed = None;
    'files: for name in names {
        let end = take_file(rt, *name, task)?;
        if failed.is_none() {
            failed = end.failed;
        }
        if !end.goes_on {
            break 'files;
        }
    }
    Ok(failed)
}

fn take_file<T: Task>(rt: &HostRuntime, name: &str, task: &mut T) -> anyhow::Result<FileEnd> {
    let subject = Subject {
        program: PROGRAM,
        input: name,
    };
    if name == "-" {
        return task.take(subject, None, Input::new(rt.alloc(), rt.stdin())?);
    }
    let file = match File::open(rt, name) {
        Ok(file) => file,
        Err(error) => {
            return Ok(FileEnd {
                failed: Some(unopened(rt, subject, error)),
                goes_on: true,
            });
        }
    };
    task.take(subject, len_of(&file), Input::new(rt.alloc(), file)?)
}

/// Reports how a file ended.
pub fn end_of<W: Write>(
    rt: &HostRuntime,
    requested: &Requested<'_>,
    subject: Subject<'_>,
    ended: (Result<(), RunError>, Omitted, Look),
    output: &ClosableWriter<W>,
) -> FileEnd {
    let (result, omitted, look) = ended;
    let closed = output.is_closed();
    if !closed {
        report_skipped(rt, subject, omitted.skipped);
        report_dropped(
            rt,
            subject,
            omitted.dropped,
            requested.rules.reassembly_memory,
        );
    }
    let command = requested.output.command();
    let code = exit_code(rt, subject, command, result, closed, look);
    FileEnd {
        failed: if result.is_err() { Some(code) } else { None },
        goes_on: goes_on(result, closed),
    }
}

fn write_files<L: LineWriter, W: Write>(
    rt: &HostRuntime,
    requested: &Requested<'_>,
    lines: &L,
    output: &mut ClosableWriter<W>,
) -> anyhow::Result<ExitCode> {
    let mut writing = Writing {
        rt,
        requested,
        lines,
        output,
    };
    let failed = take_files(rt, requested.names, &mut writing)?;
    Ok(failed.unwrap_or(ExitCode::SUCCESS))
}

// Writes the lines of a file.
#[derive(Drop)]
struct Writing<'a, L, W> {
    rt: &'a HostRuntime,
    requested: &'a Requested<'a>,
    lines: &'a L,
    output: &'a mut ClosableWriter<W>,
}

impl<L: LineWriter, W: Write> Task for Writing<'_, L, W> {
    fn take<R: Read + Drop>(
        &mut self,
        subject: Subject<'_>,
        len: Option<u64>,
        mut input: Input<R>,
    ) -> anyhow::Result<FileEnd> {
        let look = input.look();
        let mut progress = ProgressLine::beside_output(self.rt, len);
        let mut omitted = Omitted::NOTHING;
        let result = write_flushed(
            self.rt.alloc(),
            RandomState::new(self.rt)?,
            &self.requested.rules,
            self.lines,
            ProgressReader::new(input, &mut progress),
            self.output,
            &mut omitted,
        );
        progress.end();
        let ended = (result, omitted, look);
        Ok(end_of(self.rt, self.requested, subject, ended, self.output))
    }
}

fn capture_files(
    rt: &HostRuntime,
    requested: &Requested<'_>,
    name: &str,
) -> anyhow::Result<ExitCode> {
    if is_read(rt, name, requested.names) {
        let reason = "the argument '--write <FILE>' names a file that is read";
        let _ = eprintln!(rt; "error: {reason}\n\nFor more information, try '--help'.");
        return Ok(ExitCode::from(2));
    }
    let mut capturing = Capturing {
        rt,
        requested,
        name,
        output: None,
    };
    let failed = take_files(rt, requested.names, &mut capturing)?;
    Ok(failed.unwrap_or(ExitCode::SUCCESS))
}

// Whether the file with this name is one of those that are read, by whatever names.
fn is_read(rt: &HostRuntime, name: &str, names: &[&str]) -> bool {
    let Ok(output) = fs::metadata(rt, name) else {
        return false;
    };
    name != "-" && output.is_file() && names.iter().any(|input| is_file(rt, *input, &output))
}

// Whether a name means this file. Standard input is none.
fn is_file(rt: &HostRuntime, name: &str, file: &Metadata) -> bool {
    match fs::metadata(rt, name) {
        Ok(named) => name != "-" && (named.dev(), named.ino()) == (file.dev(), file.ino()),
        Err(_) => false,
    }
}

// Writes the packets of all files into one capture. It is created when the first file is open.
#[derive(Drop)]
struct Capturing<'a> {
    rt: &'a HostRuntime,
    requested: &'a Requested<'a>,
    name: &'a str,
    output: Option<ClosableWriter<CaptureOutput>>,
}

impl Task for Capturing<'_> {
    fn take<R: Read + Drop>(
        &mut self,
        subject: Subject<'_>,
        len: Option<u64>,
        mut input: Input<R>,
    ) -> anyhow::Result<FileEnd> {
        let has_header = self.output.is_some();
        let mut output = match self.output.take() {
            Some(output) => output,
            None => match CaptureOutput::create(self.rt, self.name) {
                Ok(output) => ClosableWriter::new(output),
                Err(error) => return Ok(uncreated(self.rt, self.name, error)),
            },
        };
        let look = input.look();
        let mut progress = if self.name == "-" {
            ProgressLine::beside_output(self.rt, len)
        } else {
            ProgressLine::new(self.rt, len)
        };
        let input = ProgressReader::new(input, &mut progress);
        let mut omitted = Omitted::NOTHING;
        let state = RandomState::new(self.rt)?;
        let (alloc, rules) = (self.rt.alloc(), &self.requested.rules);
        let result = if has_header {
            write_records_flushed(alloc, state, rules, input, &mut output, &mut omitted)
        } else {
            write_capture_flushed(alloc, state, rules, input, &mut output, &mut omitted)
        };
        progress.end();
        let ended = (result, omitted, look);
        let end = end_of(self.rt, self.requested, subject, ended, &output);
        self.output = Some(output);
        Ok(end)
    }
}

// Where a capture can't be created nothing is read.
fn uncreated(rt: &HostRuntime, name: &str, error: io::Error) -> FileEnd {
    let subject = Subject {
        program: PROGRAM,
        input: name,
    };
    FileEnd {
        failed: Some(unopened(rt, subject, error)),
        goes_on: false,
    }
}

// Whether lines have colors on this standard output.
fn style_of(rt: &HostRuntime, coloring: Coloring) -> Style {
    let colored = match coloring {
        Coloring::Always => true,
        Coloring::Never => false,
        Coloring::Auto => rt.stdout().is_terminal() && !is_set(rt, "NO_COLOR"),
    };
    if colored { Style::Ansi } else { Style::Plain }
}

// Whether there is such a variable, whatever its value.
fn is_set(rt: &HostRuntime, name: &str) -> bool {
    !matches!(env::var(rt, name), Err(VarError::NotPresent))
}
