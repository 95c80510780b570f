//! Counts the packets of files.
use crate::{FileEnd, Task, end_of, take_files};
use capture_programs::packets_arguments::PROGRAM;
use capture_programs::{ClosableWriter, Input, Look, ProgressLine, ProgressReader, Subject};
use captures::RunError;
use packets::program::{Requested, exit_code, goes_on, write_flows, write_page, write_summary};
use packets::{
    Ending, FollowedFlows, Listing, NoProgress, Omitted, Overview, Rules, Summary, SummaryText,
    WebPage, count_flows, count_overview, summarize,
};
use std::hash::RandomState;
use std::io::{Read, Write};
use std::process::ExitCode;

/// What is counted of all files.
pub trait Counts {
    /// Counts the packets of a file.
    fn count<R: Read + Drop>(
        &mut self,
        rt: &HostRuntime,
        rules: &Rules,
        input: R,
    ) -> anyhow::Result<Ending>;

    /// How many packets were counted.
    fn packets(&self) -> u64;

    /// Writes the report, with how many messages were open, what was left out, and whether a file
    /// wasn't read to its end.
    fn write<W: Write>(
        &self,
        rt: &HostRuntime,
        open: usize,
        omitted: Omitted,
        failed: bool,
        output: &mut W,
    ) -> Result<(), RunError>;
}

/// For `packets summary`.
#[derive(Drop)]
pub struct SummaryCounts {
    /// What is counted.
    pub summary: Summary<RandomState>,
}

impl Counts for SummaryCounts {
    fn count<R: Read + Drop>(
        &mut self,
        rt: &HostRuntime,
        rules: &Rules,
        input: R,
    ) -> anyhow::Result<Ending> {
        let state = RandomState::new(rt)?;
        let summary = &mut self.summary;
        Ok(summarize(rt.alloc(), state, rules, summary, input, &mut NoProgress))
    }

    fn packets(&self) -> u64 {
        self.summary.all.packets
    }

    fn write<W: Write>(
        &self,
        rt: &HostRuntime,
        open: usize,
        omitted: Omitted,
        _failed: bool,
        output: &mut W,
    ) -> Result<(), RunError> {
        let text = SummaryText {
            summary: &self.summary,
            open,
            dropped: omitted.dropped,
            skipped: omitted.skipped,
        };
        write_summary(rt.alloc(), &text, output)
    }
}

/// For `packets flows`.
#[derive(Drop)]
pub struct FlowCounts {
    /// What is counted.
    pub flows: FollowedFlows<RandomState>,
    /// What is listed.
    pub listing: Listing,
}

impl Counts for FlowCounts {
    fn count<R: Read + Drop>(
        &mut self,
        rt: &HostRuntime,
        rules: &Rules,
        input: R,
    ) -> anyhow::Result<Ending> {
        let state = RandomState::new(rt)?;
        let flows = &mut self.flows;
        Ok(count_flows(rt.alloc(), state, rules, flows, input, &mut NoProgress))
    }

    fn packets(&self) -> u64 {
        self.flows.flows.all.packets
    }

    fn write<W: Write>(
        &self,
        rt: &HostRuntime,
        _open: usize,
        omitted: Omitted,
        _failed: bool,
        output: &mut W,
    ) -> Result<(), RunError> {
        write_flows(
            rt.alloc(),
            &self.flows,
            &self.listing,
            omitted.skipped,
            output,
        )
    }
}

/// For `packets report`.
#[derive(Drop)]
pub struct PageCounts<'a> {
    /// What is counted.
    pub overview: Overview<RandomState>,
    /// The names of the files.
    pub names: &'a [&'a str],
    /// The words of the command after its name.
    pub words: &'a [String],
}

impl Counts for PageCounts<'_> {
    fn count<R: Read + Drop>(
        &mut self,
        rt: &HostRuntime,
        rules: &Rules,
        input: R,
    ) -> anyhow::Result<Ending> {
        let state = RandomState::new(rt)?;
        let overview = &mut self.overview;
        Ok(count_overview(rt.alloc(), state, rules, overview, input, &mut NoProgress))
    }

    fn packets(&self) -> u64 {
        self.overview.summary.all.packets
    }

    fn write<W: Write>(
        &self,
        rt: &HostRuntime,
        open: usize,
        omitted: Omitted,
        failed: bool,
        output: &mut W,
    ) -> Result<(), RunError> {
        let page = WebPage {
            overview: &self.overview,
            names: self.names,
            words: self.words,
            failed,
            open,
            dropped: omitted.dropped,
            skipped: omitted.skipped,
        };
        write_page(rt.alloc(), &page, output)
    }
}

/// Counts the packets of all files. It has no contract: it rests with the system what they hold.
pub fn count_files<C: Counts + Drop, W: Write>(
    rt: &HostRuntime,
    requested: &Requested<'_>,
    counts: C,
    output: &mut ClosableWriter<W>,
) -> anyhow::Result<ExitCode> {
    let mut counting = Counting {
        rt,
        requested,
        output,
        counts,
        open: 0,
        omitted: Omitted::NOTHING,
        failed: false,
        left: requested.names.len(),
        is_reported: false,
    };
    let failed = take_files(rt, requested.names, &mut counting)?;
    // The last file wasn't opened.
    let written = counting.report(failed.is_some());
    let subject = Subject {
        program: PROGRAM,
        input: "-",
    };
    let closed = counting.output.is_closed();
    let command = requested.output.command();
    let code = exit_code(rt, subject, command, written, closed, Look::Other);
    Ok(failed.unwrap_or(code))
}

// Counts the packets of all files.
#[derive(Drop)]
struct Counting<'a, C, W> {
    rt: &'a HostRuntime,
    requested: &'a Requested<'a>,
    output: &'a mut ClosableWriter<W>,
    counts: C,
    open: usize,
    omitted: Omitted,
    // Whether one wasn't read to its end.
    failed: bool,
    // How many files weren't taken yet.
    left: usize,
    is_reported: bool,
}

impl<C: Counts, W: Write> Counting<'_, C, W> {
    // Writes the report, if it isn't written yet; where no packet was counted, only if nothing failed.
    fn report(&mut self, failed: bool) -> Result<(), RunError> {
        if self.is_reported {
            return Ok(());
        }
        self.is_reported = true;
        if failed && self.counts.packets() == 0 {
            return Ok(());
        }
        self.counts
            .write(self.rt, self.open, self.omitted, failed, self.output)
    }
}

impl<C: Counts, W: Write> Task for Counting<'_, C, W> {
    // With the last file the report is written, before anything about that file is.
    fn take<R: Read + Drop>(
        &mut self,
        subject: Subject<'_>,
        len: Option<u64>,
        mut input: Input<R>,
    ) -> anyhow::Result<FileEnd> {
        let look = input.look();
        let mut progress = ProgressLine::new(self.rt, len);
        let rules = &self.requested.rules;
        let input = ProgressReader::new(input, &mut progress);
        let ending = self.counts.count(self.rt, rules, input)?;
        progress.end();
        let omitted = Omitted {
            skipped: ending.skipped,
            dropped: ending.dropped,
        };
        self.open = self.open.saturating_add(ending.open);
        self.omitted = self.omitted.with(omitted);
        self.left = self.left.saturating_sub(1);
        let mut result = ending.result;
        self.failed |= result.is_err();
        if self.left == 0 || !goes_on(result, false) {
            result = result.and(self.report(self.failed));
        }
        let ended = (result, omitted, look);
        Ok(end_of(self.rt, self.requested, subject, ended, self.output))
    }
}
