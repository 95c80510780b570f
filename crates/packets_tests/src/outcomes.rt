//! Runs, and what is compared of them. None of these has a contract: tests alone call them, and are
//! run.

use crate::checks::{equal, fail, holds};
use captures::{RunError, Skipped, Unfit};
use packets::{
    Condition, Ending, Filter, LineWriter, NoProgress, Omitted, Rules, ShowOptions, ShownBytes,
    Style, Summary, TimeForm, summarize, write_lines,
};
use std::alloc::Global;
use std::hash::{BuildHasherDefault, FoldHasher};
use std::io::{Read, Write};
use std::process::Abort;

/// The first twelve bytes of each line.
pub(super) const LINES: ShowOptions = ShowOptions {
    style: Style::Plain,
    time: TimeForm::SinceFirst,
    width: Some(12),
    link: false,
    bytes: ShownBytes::Nothing,
};

/// All packets of a capture of nothing unfit.
pub(super) fn every_packet(alloc: Global) -> Rules {
    Rules {
        filter: Filter::new(alloc),
        count: None,
        duration: None,
        unfit: Unfit::Refuse,
        forget: None,
        reassembly_memory: 64 << 20,
        checksums: true,
    }
}

/// Those that meet a condition.
pub(super) fn packets_of(rt: impl Abort + Copy, alloc: Global, word: &str) -> Rules {
    let mut filter = Filter::new(alloc);
    match word.parse::<Condition>() {
        Ok(condition) => holds(rt, filter.add(condition).is_ok()),
        Err(_) => fail(rt, "no condition"),
    }
    Rules {
        filter,
        count: None,
        duration: None,
        unfit: Unfit::Refuse,
        forget: None,
        reassembly_memory: 64 << 20,
        checksums: true,
    }
}

/// How a run ends that writes lines, and what it passes over.
pub(super) fn end_of_lines<R: Read + Drop, W: Write, L: LineWriter>(
    alloc: Global,
    rules: &Rules,
    lines: &L,
    reader: R,
    writer: &mut W,
) -> (Result<(), RunError>, Skipped) {
    let mut omitted = Omitted::NOTHING;
    let state = BuildHasherDefault::<FoldHasher>::new();
    let result = write_lines(alloc, state, rules, lines, reader, writer, &mut omitted);
    (result, omitted.skipped)
}

/// Compares how a run ends that passes nothing over, and the lines that it writes.
pub(super) fn are_written<R: Read + Drop, L: LineWriter>(
    rt: impl Abort + Copy,
    alloc: Global,
    rules: &Rules,
    lines: &L,
    reader: R,
    wanted: Result<(), RunError>,
    text: &[u8],
) {
    let mut out = Vec::new(alloc);
    let ended = end_of_lines(alloc, rules, lines, reader, &mut out);
    equal(rt, ended, (wanted, Skipped::NONE));
    equal(rt, out.as_slice(), text);
}

/// Compares how a run ends that counts, and how many packets it counts.
pub(super) fn are_counted<R: Read + Drop>(
    rt: impl Abort + Copy,
    alloc: Global,
    rules: &Rules,
    reader: R,
    ending: Ending,
    packets: u64,
) {
    let mut summary = Summary::new(alloc);
    let state = BuildHasherDefault::new();
    let ended = summarize(alloc, state, rules, &mut summary, reader, &mut NoProgress);
    equal(rt, (ended, summary.all.packets), (ending, packets));
}
