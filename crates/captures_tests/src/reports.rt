//! What programs report on standard error, and outputs that are closed.
use crate::checks::{equal, holds};
use capture_programs::captures_arguments::{PROGRAM, command};
use capture_programs::captures_program::{Mode, make};
use capture_programs::{
    ClosableWriter, Subject, exit_code, failure, parse_failure, report_skipped, status, unopened,
};
use captures::{BadLine, CaptureError, Extra, LineFault, Position, RunError, Skipped, Unfit};
use fault_devices::{Fault, FaultWriter, UnflushableWriter};
use std::alloc::Global;
use std::cell::RefCell;
use std::fmt::Display;
use std::io::{self, ErrorKind, Write};
use std::process::{Abort, ExitCode};
use std::test::Fail;

// A standard error that keeps what is written there.
#[derive(Drop)]
struct KeptText {
    text: RefCell<String>,
}

impl KeptText {
    fn new(alloc: Global) -> KeptText {
        KeptText {
            text: RefCell::new(String::new(alloc)),
        }
    }
}

impl Eprint for KeptText {
    fn eprint<D: Display + Drop>(&self, value: D) -> io::Result<()> {
        let mut text = self.text.try_borrow_mut()?;
        write!(text, "{value}")?;
        Ok(())
    }

    fn eprintln<D: Display + Drop>(&self, value: D) -> io::Result<()> {
        let mut text = self.text.try_borrow_mut()?;
        writeln!(text, "{value}")?;
        Ok(())
    }
}

fn is_kept(rt: impl Abort + Copy, kept: &KeptText, wanted: &str) {
    let Ok(text) = kept.text.try_borrow() else {
        panic!(rt; "borrowed");
    };
    equal(rt, text.as_str(), wanted);
}

const FILE: Subject<'static> = Subject {
    program: "packets",
    input: "a b/x.pcap",
};

const STANDARD_INPUT: Subject<'static> = Subject {
    program: "captures",
    input: "-",
};

const THIRD: Position = Position {
    packet: 3,
    offset: 112,
    block: None,
};

const BAD_LINE: RunError = RunError::BadLine(BadLine {
    number: 2,
    fault: LineFault::NoFrame,
});

// Of each error what is reported: the name of the input where the error is about it.
#[rattlefmt::skip]
const REPORTS: &[(Subject<'static>, RunError, &str, &str)] = &[
    (FILE, RunError::Read, ": it is a directory", "packets: a b/x.pcap: the input cannot be read: it is a directory\n"),
    (
        FILE,
        RunError::Capture(CaptureError::NotCapture, THIRD),
        ": the input is empty",
        "packets: a b/x.pcap: no capture file: the input is empty\n",
    ),
    (
        FILE,
        RunError::Capture(CaptureError::CutOff, THIRD),
        "",
        "packets: a b/x.pcap: packet 3, byte 112: the capture ends within a packet\n",
    ),
    (FILE, BAD_LINE, "", "packets: a b/x.pcap: line 2 has no frame\n"),
    (FILE, RunError::TooManyReads, "", "packets: a b/x.pcap: too many reads\n"),
    (FILE, RunError::Write, "", "packets: the output cannot be written\n"),
    (FILE, RunError::WriteZero, "", "packets: the output takes no more bytes\n"),
    (FILE, RunError::Memory, "", "packets: out of memory\n"),
    (STANDARD_INPUT, RunError::Read, "", "captures: standard input: the input cannot be read\n"),
    (STANDARD_INPUT, BAD_LINE, "", "captures: standard input: line 2 has no frame\n"),
    (STANDARD_INPUT, RunError::Write, "", "captures: the output cannot be written\n"),
];

#[test]
fn errors_are_reported(rt: HostRuntime) {
    for (subject, error, note, wanted) in REPORTS.iter() {
        let kept = KeptText::new(rt.alloc());
        let code = exit_code(&kept, *subject, Err(*error), false, *note);
        is_kept(rt, &kept, *wanted);
        equal(rt, code, ExitCode::from(status(*error)));
    }
}

// Whoever closed the output has read enough. Any other error is reported.
#[test]
fn a_closed_output_is_no_error(rt: HostRuntime) {
    for (subject, error, note, wanted) in REPORTS.iter() {
        let kept = KeptText::new(rt.alloc());
        let code = exit_code(&kept, *subject, Err(*error), true, *note);
        if *error == RunError::Write {
            is_kept(rt, &kept, "");
            equal(rt, code, ExitCode::SUCCESS);
        } else {
            is_kept(rt, &kept, *wanted);
            equal(rt, code, ExitCode::from(status(*error)));
        }
    }
}

const SKIPPED: Skipped = Skipped {
    of_other_links: 1,
    too_long: 2,
    without_frame: 3,
};

#[test]
fn packets_that_are_passed_over_are_reported(rt: HostRuntime) {
    let kept = KeptText::new(rt.alloc());
    report_skipped(&kept, FILE, Skipped::NONE);
    is_kept(rt, &kept, "");
    report_skipped(&kept, FILE, SKIPPED);
    report_skipped(&kept, STANDARD_INPUT, SKIPPED);
    is_kept(
        rt,
        &kept,
        "packets: a b/x.pcap: passed over: 1 of other links, 2 too long, 3 without a frame\n\
        captures: standard input: passed over: 1 of other links, 2 too long, 3 without a frame\n",
    );
}

// The number and the text are those of Linux.
#[test]
fn files_that_are_not_opened_are_reported(rt: HostRuntime) {
    let kept = KeptText::new(rt.alloc());
    let code = unopened(&kept, FILE, io::Error::from_raw_os_error(2));
    is_kept(
        rt,
        &kept,
        "packets: a b/x.pcap: cannot be opened: No such file or directory (os error 2)\n",
    );
    equal(rt, code, ExitCode::FAILURE);
}

#[test]
fn failures_are_reported(rt: HostRuntime) {
    let kept = KeptText::new(rt.alloc());
    let code = failure(&kept, "captures", "out of memory");
    is_kept(rt, &kept, "captures: out of memory\n");
    equal(rt, code, ExitCode::FAILURE);
}

// A standard output at which each print fails so, beside such a standard error.
#[derive(Drop)]
struct FailingOutput {
    errors: KeptText,
    kind: ErrorKind,
}

impl Print for FailingOutput {
    fn print<D: Display + Drop>(&self, _value: D) -> io::Result<()> {
        Err(self.kind.into())
    }

    fn println<D: Display + Drop>(&self, _value: D) -> io::Result<()> {
        Err(self.kind.into())
    }

    fn write_all(&self, _bytes: &[u8]) -> io::Result<()> {
        Err(self.kind.into())
    }
}

impl Eprint for FailingOutput {
    fn eprint<D: Display + Drop>(&self, value: D) -> io::Result<()> {
        self.errors.eprint(value)
    }

    fn eprintln<D: Display + Drop>(&self, value: D) -> io::Result<()> {
        self.errors.eprintln(value)
    }
}

// How words are answered that request nothing, where standard output fails so.
const PARSES: &[(&[&str], ErrorKind, u8, &str)] = &[
    (&["x", "--help"], ErrorKind::BrokenPipe, 0, ""),
    (
        &["x", "--help"],
        ErrorKind::StorageFull,
        4,
        "captures: the output cannot be written\n",
    ),
    (&["x", "--version"], ErrorKind::BrokenPipe, 0, ""),
    (
        &["x", "lines", "--forget", "0"],
        ErrorKind::BrokenPipe,
        2,
        "error: invalid value '0' for '--forget <SECONDS>': 0 is not in 1..=4294967295\n\n\
        For more information, try '--help'.\n",
    ),
];

#[test]
fn words_that_request_nothing(rt: HostRuntime) -> Result<(), Fail> {
    for (words, kind, status, wanted) in PARSES.iter() {
        let output = FailingOutput {
            errors: KeptText::new(rt.alloc()),
            kind: *kind,
        };
        let Err(error) = command(rt.alloc())?.try_get_matches_from(*words) else {
            panic!(rt; "requested");
        };
        let code = parse_failure(&output, PROGRAM, &error);
        equal(rt, code, ExitCode::from(*status));
        is_kept(rt, &output.errors, *wanted);
    }
    Ok(())
}

// The second write fails. It alone says whether the output is closed, also after a later one.
#[test]
fn a_write_to_a_closed_pipe_is_remembered(rt: HostRuntime) {
    for (kind, closed) in [
        (ErrorKind::BrokenPipe, true),
        (ErrorKind::StorageFull, false),
        (ErrorKind::Other, false),
    ] {
        let writer = FaultWriter::failing(rt.alloc(), 64, 1, Fault::Fails(kind));
        let mut output = ClosableWriter::new(writer);
        holds(rt, output.write(b"a").is_ok());
        holds(rt, !output.is_closed());
        holds(rt, output.write(b"b").is_err());
        equal(rt, output.is_closed(), closed);
        holds(rt, output.write(b"c").is_ok());
        holds(rt, output.flush().is_ok());
        equal(rt, output.is_closed(), closed);
    }
}

// A flush that fails otherwise closes nothing.
#[test]
fn a_flush_that_fails_closes_nothing(rt: HostRuntime) {
    let mut output = ClosableWriter::new(UnflushableWriter::new(rt.alloc(), 64));
    holds(rt, output.flush().is_err());
    holds(rt, !output.is_closed());
}

// A file header of low byte first, of Ethernet frames, and a frame of two bytes.
const CAPTURE: &[u8; 42] = b"\
    \xd4\xc3\xb2\xa1\x02\x00\x04\x00\x00\x00\x00\x00\x00\x00\x00\x00\x00\x00\x04\x00\x01\x00\x00\x00\
    \x00\xf1\x53\x65\x90\xd0\x03\x00\x02\x00\x00\x00\x02\x00\x00\x00\x0a\xff";

// A run ends by a failed write of either kind; only the status of a closed pipe is 0.
#[test]
fn a_run_into_a_closed_pipe(rt: HostRuntime) -> Result<(), Fail> {
    for (kind, code) in [
        (ErrorKind::BrokenPipe, ExitCode::SUCCESS),
        (ErrorKind::StorageFull, ExitCode::from(4)),
    ] {
        let writer = FaultWriter::failing(rt.alloc(), 5, 1, Fault::Fails(kind));
        let mut output = ClosableWriter::new(writer);
        let mode = Mode::Lines(Extra::Nothing, Unfit::Refuse);
        let mut skipped = Skipped::NONE;
        let made = make(
            rt.alloc(),
            mode,
            &mut CAPTURE.as_slice(),
            &mut output,
            &mut skipped,
        );
        equal(rt, made, Err(RunError::Write));
        let kept = KeptText::new(rt.alloc());
        equal(
            rt,
            exit_code(&kept, FILE, made, output.is_closed(), ""),
            code,
        );
    }
    Ok(())
}
