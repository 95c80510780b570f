//! What is made of an input: lines of a capture, or a capture of lines.
ghost use Rattle.std.specs.Prelude.{◌≡◌, List, ℕ, OnOk, IfSome, Result};
ghost use Rattle.std.specs.Io.KnownBytes.{Appends, Consumes};
ghost use Rattle.device_runs.specs.Endings.{EndsFlushed};
ghost use Rattle.device_runs.specs.Known.{Transfers};
ghost use Rattle.captures.specs.Endings.{ending_of};
ghost use Rattle.captures.specs.Lines.{Packet, lines_of};
ghost use Rattle.captures.specs.CaptureRuns.{ArePassedOver, IsCapture, capture_to_lines};
ghost use Rattle.captures.specs.Encoding.{capture_of};
ghost use Rattle.captures.specs.CapturedFrames.{CapturedFrame};
ghost use Rattle.captures.specs.Texts.{IsText, lines_to_capture};
ghost use Rattle.captures.specs.declared.extra.Extra.{Extra};
ghost use Rattle.captures.specs.declared.time.time_unit.TimeUnit.{TimeUnit};
ghost use Rattle.captures.specs.declared.translation.run_error.RunError.{RunError};
ghost use Rattle.captures.specs.declared.unfit.Unfit.{Unfit};

use crate::captures_program::modes::Mode;
use captures::{Extra, RunError, Skipped, TimeUnit, Unfit};
use device_runs::flush_after;
use std::alloc::Global;
use std::io::{Read, Write};

/// Makes lines of a capture or a capture of lines, and says how many packets were passed over. What
/// is written is flushed, where the input is refused too. A flush that fails after a whole input is
/// a failed write.
pub fn make<R: Read, W: Write>(
    alloc: Global,
    mode: Mode,
    reader: &mut R,
    writer: &mut W,
    skipped: &mut Skipped,
) -> Result<(), RunError>
    ensures lines { (extra : Extra) (unfit : Unfit) → mode ≡ Mode.Lines extra unfit
        → OnOk result (IfSome (R.remaining reader.old) (λ input. (packets : List Packet)
        × IsCapture unfit input packets skipped.new
        × Appends (W.contents writer.old) (W.contents writer.new) (lines_of extra packets))) }
    ensures capture { (time_unit : TimeUnit) → mode ≡ Mode.Capture time_unit
        → OnOk result (IfSome (R.remaining reader.old) (λ input. (frames : List CapturedFrame)
        × IsText input frames
        × Appends (W.contents writer.old) (W.contents writer.new) (capture_of time_unit frames))) }
    // However it ends, what is written is that for the bytes read.
    ensures bytes { (extra : Extra) (unfit : Unfit) → mode ≡ Mode.Lines extra unfit
        → (done : Result Unit RunError) × EndsFlushed RunError.Write done result
        × Transfers (capture_to_lines extra unfit skipped.new)
        (R.remaining reader.old) (R.remaining reader.new)
        (W.contents writer.old) (W.contents writer.new) (ending_of done) }
    ensures capture_bytes { (time_unit : TimeUnit) → mode ≡ Mode.Capture time_unit
        → (done : Result Unit RunError) × EndsFlushed RunError.Write done result
        × Transfers (lines_to_capture time_unit) (R.remaining reader.old) (R.remaining reader.new)
        (W.contents writer.old) (W.contents writer.new) (ending_of done) }
    // However it ends: in the whole units of the bytes read this many packets were passed over.
    ensures passed { (extra : Extra) (unfit : Unfit) → mode ≡ Mode.Lines extra unfit
        → (read : List ℕ) × Consumes (R.remaining reader.old) (R.remaining reader.new) read
        × ArePassedOver unfit skipped.new read }
    // Of lines nothing is passed over.
    ensures same { (time_unit : TimeUnit) → mode ≡ Mode.Capture time_unit
        → skipped.new ≡ skipped.old }
{
    match mode {
        Mode::Lines(extra, unfit) => make_lines(alloc, extra, unfit, reader, writer, skipped),
        Mode::Capture(time_unit) => make_capture(alloc, time_unit, reader, writer),
    }
}

fn make_lines<R: Read, W: Write>(
    alloc: Global,
    extra: Extra,
    unfit: Unfit,
    reader: &mut R,
    writer: &mut W,
    skipped: &mut Skipped,
) -> Result<(), RunError>
    ensures ok { OnOk result (IfSome (R.remaining reader.old) (λ input. (packets : List Packet)
        × IsCapture unfit input packets skipped.new
        × Appends (W.contents writer.old) (W.contents writer.new) (lines_of extra packets))) }
    ensures bytes { (done : Result Unit RunError) × EndsFlushed RunError.Write done result
        × Transfers (capture_to_lines extra unfit skipped.new)
        (R.remaining reader.old) (R.remaining reader.new)
        (W.contents writer.old) (W.contents writer.new) (ending_of done) }
    ensures passed { (read : List ℕ)
        × Consumes (R.remaining reader.old) (R.remaining reader.new) read
        × ArePassedOver unfit skipped.new read }
{
    let made = captures::run(alloc, extra, unfit, reader, writer, skipped);
    flush_after(writer, made, RunError::Write)
}

fn make_capture<R: Read, W: Write>(
    alloc: Global,
    time_unit: TimeUnit,
    reader: &mut R,
    writer: &mut W,
) -> Result<(), RunError>
    ensures ok { OnOk result (IfSome (R.remaining reader.old) (λ input. (frames : List CapturedFrame)
        × IsText input frames
        × Appends (W.contents writer.old) (W.contents writer.new) (capture_of time_unit frames))) }
    ensures bytes { (done : Result Unit RunError) × EndsFlushed RunError.Write done result
        × Transfers (lines_to_capture time_unit) (R.remaining reader.old) (R.remaining reader.new)
        (W.contents writer.old) (W.contents writer.new) (ending_of done) }
{
    let made = captures::write_capture(alloc, time_unit, reader, writer);
    flush_after(writer, made, RunError::Write)
}
