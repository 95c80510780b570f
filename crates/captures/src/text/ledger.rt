//! How far the lines of a run have come: their number, and the span of time that is running.
ghost use Rattle.std.specs.Prelude.{◌≡◌, ◌+◌, ◌*◌, ◌≤◌, ◌++◌, length, take};
ghost use Rattle.captures.specs.Framed.{frame_bytes};
ghost use Rattle.captures.specs.Lines.{blank, counted_by, forget_text, has_passed, noted, noted_as, reported};
ghost use Rattle.captures.specs.Lines.{reported_as};
ghost use Rattle.captures.specs.declared.extra.Extra.TheVariants.{Forget};

use crate::Extra;
use crate::link::frame::Frame;
use crate::origin::Origin;
use crate::spans::have_passed;
use crate::text::line::{append_forget_line, append_line, append_timed_line};

/// How far the lines of a run have come. Lines are counted where spans of time are.
#[derive(Clone, Copy)]
pub(crate) struct Ledger {
    pub extra: Extra,
    /// How many lines there are.
    pub lines: u64,
    /// The time of the packet with which the span began that is running.
    pub begin: u64,
    /// The number of the line with which it began.
    pub line: u64,
}

impl Ledger {
    /// Before the first line.
    pub(crate) fn blank(extra: Extra) -> Ledger
        ensures { result ≡ blank extra }
    {
        Ledger {
            extra,
            lines: 0,
            begin: 0,
            line: 0,
        }
    }

    /// Puts the lines of a packet after the first `used` bytes, and returns how many are used then.
    #[inline(always)]
    pub(crate) fn report(
        &mut self,
        out: &mut [u8],
        used: usize,
        origin: Origin,
        frame: &Frame<'_>,
    ) -> usize
        requires { used + 52 + 2 * length (frame_bytes frame.now) ≤ length out.old }
        ensures end { result ≤ used + 52 + 2 * length (frame_bytes frame.now) }
        ensures text { take result out.new ≡ take used out.old
            ++ reported self.old (record { origin = origin; frame = frame_bytes frame.now }) }
        ensures noted { self.new ≡ noted self.old (record { origin = origin; frame = frame_bytes frame.now }) }
        ensures extra { self.new.extra ≡ self.old.extra }
    {
        match self.extra {
            Extra::Nothing => append_line(out, used, origin, frame),
            Extra::Times => append_timed_line(out, used, origin, frame),
            Extra::Forget(seconds) => {
                let passed = self.has_passed(seconds, origin.time);
                let start = self.append_forget(out, used, passed);
                *self = self.counted(passed, origin.time);
                append_line(out, start, origin, frame)
            }
        }
    }

    fn has_passed(&self, seconds: u32, time: u64) -> bool
        ensures { result ≡ has_passed seconds self.now time }
    {
        self.lines > 0 && have_passed(seconds, self.begin, time)
    }

    fn append_forget(&self, out: &mut [u8], used: usize, passed: bool) -> usize
        requires { used + 28 ≤ length out.old }
        ensures end { result ≤ used + 28 }
        ensures text { take result out.new ≡ take used out.old ++ forget_text passed self.now }
    {
        if passed {
            append_forget_line(out, used, self.line)
        } else {
            used
        }
    }

    fn counted(&self, passed: bool, time: u64) -> Ledger
        ensures counted { result ≡ counted_by passed self.now time }
        ensures extra { result.extra ≡ self.now.extra }
    {
        if self.lines == 0 {
            Ledger {
                extra: self.extra,
                lines: 1,
                begin: time,
                line: 1,
            }
        } else if passed {
            Ledger {
                extra: self.extra,
                lines: self.lines.saturating_add(2),
                begin: time,
                line: self.lines.saturating_add(1),
            }
        } else {
            Ledger {
                extra: self.extra,
                lines: self.lines.saturating_add(1),
                begin: self.begin,
                line: self.line,
            }
        }
    }
}
