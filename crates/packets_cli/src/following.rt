//! Follows a TCP connection through files.
use crate::{FileEnd, Task, end_of, take_files};
use capture_programs::packets_arguments::PROGRAM;
use capture_programs::{ClosableWriter, Input, Look, ProgressLine, ProgressReader, Subject};
use packets::program::{Requested, exit_code, goes_on, write_follow_end, write_followed_flushed};
use packets::{FollowOptions, Following, Omitted};
use std::hash::RandomState;
use std::io::{Read, Write};
use std::process::ExitCode;

/// Writes what goes over a connection in all files, and at their end how it ends. It has no contract:
/// it rests with the system what they hold.
pub fn follow_files<W: Write>(
    rt: &HostRuntime,
    requested: &Requested<'_>,
    options: FollowOptions,
    output: &mut ClosableWriter<W>,
) -> anyhow::Result<ExitCode> {
    let mut task = FollowTask {
        rt,
        requested,
        following: Following::new(rt.alloc(), options),
        output,
        is_stopped: false,
    };
    let failed = take_files(rt, requested.names, &mut task)?;
    Ok(task.end(failed))
}

#[derive(Drop)]
struct FollowTask<'a, W> {
    rt: &'a HostRuntime,
    requested: &'a Requested<'a>,
    following: Following,
    output: &'a mut ClosableWriter<W>,
    // Whether nothing more is written.
    is_stopped: bool,
}

impl<W: Write> FollowTask<'_, W> {
    // Writes how the last connection ends. The status is that of the first file that failed, if any did.
    fn end(&mut self, failed: Option<ExitCode>) -> ExitCode {
        // That no segment came is said only if nothing failed.
        if self.is_stopped || failed.is_some() && self.following.is_empty() {
            return failed.unwrap_or(ExitCode::SUCCESS);
        }
        let written = write_follow_end(self.rt.alloc(), &self.following, self.output);
        let subject = Subject {
            program: PROGRAM,
            input: "-",
        };
        let closed = self.output.is_closed();
        let command = self.requested.output.command();
        let code = exit_code(self.rt, subject, command, written, closed, Look::Other);
        failed.unwrap_or(code)
    }
}

impl<W: Write> Task for FollowTask<'_, W> {
    fn take<R: Read + Drop>(
        &mut self,
        subject: Subject<'_>,
        len: Option<u64>,
        mut input: Input<R>,
    ) -> anyhow::Result<FileEnd> {
        let look = input.look();
        let mut progress = ProgressLine::beside_output(self.rt, len);
        let mut omitted = Omitted::NOTHING;
        let result = write_followed_flushed(
            self.rt.alloc(),
            RandomState::new(self.rt)?,
            &self.requested.rules,
            &self.following,
            ProgressReader::new(input, &mut progress),
            self.output,
            &mut omitted,
        );
        progress.end();
        self.is_stopped = !goes_on(result, self.output.is_closed());
        let ended = (result, omitted, look);
        Ok(end_of(self.rt, self.requested, subject, ended, self.output))
    }
}
