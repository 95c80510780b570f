//! A run the other way: reads of lines, and the packet records of the frames that they give.
ghost use Rattle.std.specs.Prelude.{◌≡◌, ◌≤◌, ◌+◌, ◌*◌, List, length, OnOk, IfSome, IsErrOf};
ghost use Rattle.std.specs.Io.Iter.{u64_saturate};
ghost use Rattle.std.specs.Io.KnownBytes.{Appends, IsAtEnd};
ghost use Rattle.device_runs.specs.Known.{KnownCall, Transfers, known_of};
ghost use Rattle.captures.specs.Endings.{ending_of};
ghost use Rattle.captures.specs.Encoding.{capture_of};
ghost use Rattle.captures.specs.CapturedFrames.{CapturedFrame};
ghost use Rattle.captures.specs.Texts.{GivesFrames, IsIncompleteLine, IsText, WritesCapture, lines_to_capture};
ghost use Rattle.captures.specs.declared.time.time_unit.TimeUnit.{TimeUnit};
ghost use Rattle.captures.specs.declared.limits.TheConstants.{INPUT_CAPACITY};
ghost use Rattle.device_runs.specs.declared.limits.TheConstants.{READ_COUNT_LIMIT};

use crate::pcap::writer::file_header;
use crate::text::bad_line::{BadLine, LineFault};
use crate::text::line_records::take_lines;
use crate::translation::refusal::Refusal;
use crate::translation::translator::{Finished, Translated, Translator, run_translator};
use crate::{READ_COUNT_LIMIT, RunError, TimeUnit};
use device_runs::{Device, ReaderWriter};
use std::alloc::Global;
use std::io::{Read, Write};

/// Writes a classic capture of the frames that the lines of the reader give, up to its end:
/// Ethernet, with times in this unit.
///
/// A line is `frame CHANNEL HEX`, as [`run`](crate::run) writes it, or `frame CHANNEL HEX SECONDS
/// MICROSECONDS` with the time since the year 1970 began, or `frame CHANNEL HEX SECONDS MICROSECONDS
/// NANOSECONDS`; without a time it is 0. A capture in microseconds has whole ones. After its
/// nanoseconds a line may have how many bytes the frame had on the wire, of 32 bits; without that
/// they are as many as it has. The hex digits may be of either case. The channel is a number and isn't
/// written: a classic capture has one interface. A line that isn't of this form, or whose frame has no
/// byte or more than [`FRAME_LIMIT`](crate::FRAME_LIMIT), ends the run, after the packets before it are
/// written.
///
/// The file header is written before the first read, and the packets of all whole lines before the
/// next read. A read that gives nothing reports the end, and nothing is read after it. Any fault of
/// a read or a write ends the run, an interrupted call too.
pub fn write_capture<R: Read, W: Write>(
    alloc: Global,
    time_unit: TimeUnit,
    reader: &mut R,
    writer: &mut W,
) -> Result<(), RunError>
    // All frames are written, and no byte is left to read.
    ensures ok { OnOk result
        (IfSome (R.remaining reader.old) (λ bytes. (frames : List CapturedFrame) × IsText bytes frames
        × Appends (W.contents writer.old) (W.contents writer.new) (capture_of time_unit frames))) }
    ensures end { OnOk result (IsAtEnd (R.remaining reader.new)) }

    // However reads and writes cut the bytes, what is written is that for the bytes read.
    ensures bytes { Transfers (lines_to_capture time_unit) (R.remaining reader.old) (R.remaining reader.new)
        (W.contents writer.old) (W.contents writer.new) (ending_of result) }

    // The calls, one by one, as far as they show in the known bytes.
    ensures calls { WritesCapture time_unit KnownCall READ_COUNT_LIMIT
        (known_of (R.remaining reader.old) (W.contents writer.old))
        (known_of (R.remaining reader.new) (W.contents writer.new)) result }

    // Each of these reads gave a byte at least.
    ensures too_many { IsErrOf result RunError.TooManyReads
        → IfSome (R.remaining reader.old) (λ bytes. READ_COUNT_LIMIT ≤ length bytes) }

    // Memory is taken before the first call.
    ensures memory { IsErrOf result RunError.Memory
        → (reader.new ≡ reader.old) × (writer.new ≡ writer.old) }
{
    let mut device = ReaderWriter { reader, writer };
    let result = write_capture_over(alloc, time_unit, &mut device, READ_COUNT_LIMIT);
    // No effect at run time. The proof reads here what both hold at the end.
    let _ = &*device.reader;
    let _ = &*device.writer;
    result
}

/// A run of [`write_capture`] of at most `reads` reads over any device: each call that it makes, in
/// its order, and how these calls end it.
pub fn write_capture_over<D: Device>(
    alloc: Global,
    time_unit: TimeUnit,
    device: &mut D,
    reads: u64,
) -> Result<(), RunError>
    requires { reads ≤ READ_COUNT_LIMIT }
    ensures { WritesCapture time_unit D.transition reads device.old device.new result }
{
    let mut writer = FrameWriter {
        time_unit,
        count: 0,
    };
    run_translator(alloc, &mut writer, &file_header(time_unit), device, reads)
}

// Writes the frames that lines give.
#[derive(Drop)]
struct FrameWriter {
    time_unit: TimeUnit,
    // How many lines gave one.
    count: u64,
}

impl FrameWriter {
    // The line after those that gave frames, where it gives none.
    fn next_line(&self, fault: LineFault) -> BadLine
        ensures { result ≡ record { number = u64_saturate (self.now.count + 1); fault = fault } }
    {
        BadLine {
            number: self.count.saturating_add(1),
            fault,
        }
    }
}

impl Translator for FrameWriter {
    ghost task = { λ writer. lines_to_capture writer.time_unit };

    ghost Kept = { TimeUnit };

    ghost kept = { λ writer. writer.time_unit };

    ghost most = { INPUT_CAPACITY * READ_COUNT_LIMIT };

    ghost shows = { λ writer held read written. (frames : List CapturedFrame)
        × GivesFrames read writer.count frames held
        × IsIncompleteLine held × (written ≡ capture_of writer.time_unit frames) };

    fn translate<'a>(&mut self, bytes: &'a [u8], out: &mut [u8]) -> Translated<'a> {
        let taken = take_lines(self.time_unit, bytes, out);
        self.count = self.count.saturating_add(taken.count as u64);
        if let Some(fault) = taken.fault {
            return Translated {
                used: taken.used,
                rest: taken.rest,
                refusal: Some(Refusal::InLine(self.next_line(fault))),
            };
        }
        Translated {
            used: taken.used,
            rest: taken.rest,
            refusal: None,
        }
    }

    // An incomplete line is ended.
    fn finish(&mut self, input: &mut [u8], left: usize, out: &mut [u8]) -> Finished {
        if left == 0 {
            return Finished {
                used: 0,
                result: Ok(()),
            };
        }
        input[left] = b'\n';
        let taken = take_lines(self.time_unit, &input[..left + 1], out);
        self.count = self.count.saturating_add(taken.count as u64);
        if let Some(fault) = taken.fault {
            return Finished {
                used: taken.used,
                result: Err(Refusal::InLine(self.next_line(fault))),
            };
        }
        Finished {
            used: taken.used,
            result: Ok(()),
        }
    }
}
