//! A run: reads, and the lines of the packets that they give.
ghost use Rattle.std.specs.Prelude.{◌≡◌, ◌≤◌, ◌+◌, ◌-◌, ◌*◌, ◌^◌, ◌++◌, ℕ, List, length, OnOk, IfSome, IsErrOf, None};
ghost use Rattle.std.specs.Io.KnownBytes.{Appends, Consumes, IsAtEnd};
ghost use Rattle.device_runs.specs.Known.{KnownCall, Transfers, known_of};
ghost use Rattle.captures.specs.declared.extra.Extra.{Extra};
ghost use Rattle.captures.specs.Dropped.{IsDropped};
ghost use Rattle.captures.specs.Endings.{ending_of};
ghost use Rattle.captures.specs.Lines.{Packet, blank, lines_of};
ghost use Rattle.captures.specs.Numbers.{capped};
ghost use Rattle.captures.specs.Positions.{block_type};
ghost use Rattle.captures.specs.CaptureRuns.{ArePassedOver, IsCapture, PassesOver, Runs, capture_to_lines};
ghost use Rattle.captures.specs.CaptureRuns.{result_at_end};
ghost use Rattle.captures.specs.Skipping.{none_skipped};
ghost use Rattle.captures.specs.Framed.{unfit_by};
ghost use Rattle.captures.specs.Units.{Takes, seen_in, skipped_in};
ghost use Rattle.captures.specs.declared.limits.TheConstants.{INPUT_CAPACITY};
ghost use Rattle.captures.specs.declared.state.State.TheVariants.{Start};

use crate::end::end;
use crate::pcapng::long_block::LongBlock;
use crate::position::{Position, position_of};
use crate::skipped::Skipped;
use crate::state::State;
use crate::text::ledger::Ledger;
use crate::translation::progress::take_chunk;
use crate::translation::refusal::Refusal;
use crate::translation::translator::{Finished, Translated, Translator, run_translator};
use crate::{Extra, READ_COUNT_LIMIT, RunError, Unfit};
use device_runs::{Device, ReaderWriter};
use std::alloc::Global;
use std::io::{Read, Write};

/// Writes the line of each packet of a capture, up to the end of the reader.
///
/// What lines hold beside frames, `extra` says. The lines of a packet are written before the next
/// read. A packet of which no byte was captured has no line. A packet that can't be reported ends
/// the run or is passed over, as `unfit` says, and `skipped` becomes how many are passed over. A
/// read that gives nothing reports the end, and nothing is read after it. Any fault of a read or a
/// write ends the run, an interrupted call too.
pub fn run<R: Read, W: Write>(
    alloc: Global,
    extra: Extra,
    unfit: Unfit,
    reader: &mut R,
    writer: &mut W,
    skipped: &mut Skipped,
) -> Result<(), RunError>
    // All packets are reported or passed over, and no byte is left to read.
    ensures ok { OnOk result
        (IfSome (R.remaining reader.old) (λ bytes. (packets : List Packet)
        × IsCapture unfit bytes packets skipped.new
        × Appends (W.contents writer.old) (W.contents writer.new) (lines_of extra packets))) }
    ensures end { OnOk result (IsAtEnd (R.remaining reader.new)) }

    // However reads and writes cut the bytes, what is written is the output for the bytes read.
    ensures bytes { Transfers (capture_to_lines extra unfit skipped.new)
        (R.remaining reader.old) (R.remaining reader.new)
        (W.contents writer.old) (W.contents writer.new) (ending_of result) }

    // The calls, one by one, as far as they show in the known bytes.
    ensures calls { Runs extra unfit skipped.new KnownCall READ_COUNT_LIMIT
        (known_of (R.remaining reader.old) (W.contents writer.old))
        (known_of (R.remaining reader.new) (W.contents writer.new)) result }

    // However it ends: in the whole units of the bytes read this many packets were passed over.
    ensures passed { (read : List ℕ)
        × Consumes (R.remaining reader.old) (R.remaining reader.new) read
        × ArePassedOver unfit skipped.new read }

    // Each of these reads gave a byte at least.
    ensures too_many { IsErrOf result RunError.TooManyReads
        → IfSome (R.remaining reader.old) (λ bytes. READ_COUNT_LIMIT ≤ length bytes) }

    // Memory is taken before the first call.
    ensures memory { IsErrOf result RunError.Memory
        → (reader.new ≡ reader.old) × (writer.new ≡ writer.old) × (skipped.new ≡ none_skipped) }
{
    let mut device = ReaderWriter { reader, writer };
    let result = run_over(alloc, extra, unfit, &mut device, READ_COUNT_LIMIT, skipped);
    // No effect at run time. The proof reads here what both hold at the end.
    let _ = &*device.reader;
    let _ = &*device.writer;
    result
}

/// A run of at most `reads` reads over any device: each call that it makes, in its order, and how
/// these calls end it.
pub fn run_over<D: Device>(
    alloc: Global,
    extra: Extra,
    unfit: Unfit,
    device: &mut D,
    reads: u64,
    skipped: &mut Skipped,
) -> Result<(), RunError>
    ensures runs { Runs extra unfit skipped.new D.transition reads device.old device.new result }
    // However it ends: of what these calls read this many packets were passed over.
    ensures passed { PassesOver unfit skipped.new D.transition device.old device.new }
{
    match unfit {
        Unfit::Refuse => run_by::<false, D>(alloc, extra, device, reads, skipped),
        Unfit::Skip => run_by::<true, D>(alloc, extra, device, reads, skipped),
    }
}

fn run_by<const SKIPS: bool, D: Device>(
    alloc: Global,
    extra: Extra,
    device: &mut D,
    reads: u64,
    skipped: &mut Skipped,
) -> Result<(), RunError>
    ensures runs { Runs extra (unfit_by SKIPS) skipped.new D.transition reads device.old device.new
        result }
    ensures passed { PassesOver (unfit_by SKIPS) skipped.new D.transition device.old device.new }
{
    let mut teller: PacketWriter<SKIPS> = PacketWriter {
        state: State::Start(Unfit::by(SKIPS)),
        ledger: Ledger::blank(extra),
        started: None,
        passed: 0,
    };
    let result = run_translator(alloc, &mut teller, &[], device, reads);
    *skipped = teller.state.skipped();
    result
}

// Writes the packets of a capture as lines. Those that can't be reported are passed over, or
// refused.
#[derive(Drop)]
struct PacketWriter<const SKIPS: bool> {
    state: State,
    // How far its lines have come.
    ledger: Ledger,
    // A long block that is started, of which nothing is held.
    started: Option<LongBlock>,
    // How many bytes were passed: those of whole units.
    passed: u64,
}

impl<const SKIPS: bool> PacketWriter<SKIPS> {
    // The position of what comes next, of which this is held.
    fn position(&self, held: &[u8]) -> Position
        ensures packet { result.packet ≡ capped (seen_in self.now.state + 1) }
        ensures offset { result.offset ≡ self.now.passed }
        ensures block { (dropped : List ℕ) → IsDropped self.now.state self.now.started dropped
            → result.block ≡ block_type self.now.state (dropped ++ held.now) }
    {
        position_of(self.passed, self.state, self.started, held)
    }
}

impl<const SKIPS: bool> Translator for PacketWriter<SKIPS> {
    ghost task = { λ teller. capture_to_lines teller.ledger.extra (unfit_by SKIPS)
        (skipped_in teller.state) };

    ghost Kept = { Extra };

    ghost kept = { λ teller. teller.ledger.extra };

    ghost most = { INPUT_CAPACITY * 2 ^ 64 };

    ghost shows = { λ teller held read written. (dropped : List ℕ)
        × IsDropped teller.state teller.started dropped
        × Takes (blank teller.ledger.extra) (Start (unfit_by SKIPS)) read teller.state
        (dropped ++ held) written None teller.ledger
        × (teller.passed ≡ capped (length read - length (dropped ++ held))) };

    fn translate<'a>(&mut self, bytes: &'a [u8], out: &mut [u8]) -> Translated<'a> {
        let progress = take_chunk(self.state, self.ledger, self.started, bytes, out);
        self.state = progress.after;
        self.ledger = progress.ledger;
        self.started = progress.started;
        self.passed = self.passed.saturating_add(progress.passed);
        match progress.refusal {
            Some(error) => Translated {
                used: progress.used,
                rest: progress.rest,
                refusal: Some(Refusal::InCapture(error, self.position(progress.rest))),
            },
            None => Translated {
                used: progress.used,
                rest: progress.rest,
                refusal: None,
            },
        }
    }

    fn finish(&mut self, input: &mut [u8], left: usize, _out: &mut [u8]) -> Finished {
        let position = self.position(&input[..left]);
        match end(self.state, self.started, left) {
            Ok(()) => Finished {
                used: 0,
                result: Ok(()),
            },
            Err(error) => Finished {
                used: 0,
                result: Err(Refusal::InCapture(error, position)),
            },
        }
    }
}
