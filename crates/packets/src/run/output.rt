//! Writes what is made of the packets of a capture, one after the other.
ghost use Rattle.std.specs.Prelude.{◌≡◌, ◌++◌, true, List, [], ℕ, IfOk, MatchResult};
ghost use Rattle.std.specs.Io.KnownBytes.{Appends};
ghost use Rattle.packets.specs.PacketRuns.{BreaksBy};
ghost use Rattle.packets.specs.Written.{AreTexts, Writes};
ghost use Rattle.packets.specs.declared.dissection.Dissection.{Dissection};

use crate::run::omitted::Omitted;
use crate::run::progress::NoProgress;
use crate::run::rules::Rules;
use crate::run::walk::{Visitor, walk};
use crate::{Dissection, Dissector};
use captures::{PacketReader, RunError};
use device_runs::{Fault, ReaderWriter, write_whole};
use std::alloc::{AllocError, Global};
use std::hash::BuildHasher;
use std::io::{self, Read, Write};

// What is made of packets is written once it has so many bytes; the packet that reaches that number
// is written with it.
const WRITTEN_AT_ONCE: usize = 1 << 16;

/// Makes a text of a packet.
pub(crate) trait PacketWriter {
    // Such a text may be made of a packet.
    ghost writes: { Self → Dissection → List ℕ → Type 0 };

    /// Puts the text of a packet into `out`, which is empty.
    fn write_packet(&self, packet: &Dissection<'_>, out: &mut Vec<u8>) -> Result<(), AllocError>
        requires { out.old.items ≡ [] }
        ensures { IfOk result (λ _. writes self.now packet.now out.new.items) };
}

/// Writes the text of each packet that the filter lets through, as
/// [`write_lines`](crate::write_lines) does with lines.
pub(crate) fn write_packets<R: Read + Drop, W: Write, P: PacketWriter, S: BuildHasher + Drop>(
    alloc: Global,
    state: S,
    rules: &Rules,
    packet_writer: &P,
    reader: R,
    writer: &mut W,
    omitted: &mut Omitted,
) -> Result<(), RunError>
    ensures { Writes (AreTexts (P.writes packet_writer.now)) rules.now omitted.new (R.remaining reader)
        (W.contents writer.old) (W.contents writer.new) result }
{
    *omitted = Omitted::NOTHING;
    let Ok(mut packets) = PacketReader::new(alloc, rules.unfit, reader) else {
        return Err(RunError::Memory);
    };
    let mut dissector = Dissector::with_hasher(alloc, state);
    let mut output = PacketOutput {
        packet_writer,
        writer,
        texts: Texts {
            last: Vec::new(alloc),
            waiting: Vec::new(alloc),
        },
    };
    let result = walk(
        rules,
        &mut packets,
        &mut dissector,
        &mut output,
        &mut NoProgress,
    );
    *omitted = Omitted {
        skipped: packets.skipped(),
        dropped: dissector.dropped(),
    };
    let written = output.write_out();
    let PacketOutput { writer, texts, .. } = output;
    drop(texts);
    // No effect at run time. The proof reads here what the writer holds at the end.
    let _ = &*writer;
    match written {
        Ok(()) => result,
        Err(error) => Err(error),
    }
}

// The last text, or what of it is in the buffer, and those that wait to be written.
#[derive(Drop)]
struct Texts {
    last: Vec<u8>,
    waiting: Vec<u8>,
}

// The output of the texts.
#[derive(Drop)]
struct PacketOutput<'a, P, W> {
    packet_writer: &'a P,
    writer: &'a mut W,
    texts: Texts,
}

impl<'a, P: PacketWriter, W: Write> Visitor for PacketOutput<'a, P, W> {
    ghost use Rattle.packets.specs.Written.{AreTexts};

    ghost writes = { true };

    // What is written and what waits are the texts.
    ghost goes = { λ start now seen. (now.writer.ghost_name ≡ start.writer.ghost_name)
        × (now.packet_writer ≡ start.packet_writer) × (written : List ℕ)
        × Appends (W.contents start.writer.now) (W.contents now.writer.now) written
        × AreTexts (P.writes start.packet_writer.now) seen (written ++ now.texts.waiting.items) };

    ghost fails = { λ start now seen. ⊥ };

    // What is written is a prefix of the texts, and none wait.
    ghost breaks = { λ start now seen. (now.writer.ghost_name ≡ start.writer.ghost_name)
        × (now.texts.waiting.items ≡ []) × (written : List ℕ) × (rest : List ℕ)
        × Appends (W.contents start.writer.now) (W.contents now.writer.now) written
        × AreTexts (P.writes start.packet_writer.now) seen (written ++ rest) };

    fn visit(&mut self, packet: &Dissection<'_>) -> Result<(), AllocError> {
        self.texts.take_packet(self.packet_writer, packet)
    }

    fn before_packet(&mut self) -> Result<(), RunError> {
        if self.texts.waiting.len() < WRITTEN_AT_ONCE {
            Ok(())
        } else {
            self.write_out()
        }
    }

    fn before_read(&mut self) -> Result<(), RunError> {
        self.write_out()
    }
}

impl<'a, P: PacketWriter, W: Write> PacketOutput<'a, P, W> {
    // Writes all texts that wait. None wait then, also where a write failed.
    fn write_out(&mut self) -> Result<(), RunError>
        ensures name { self.new.writer.ghost_name ≡ self.old.writer.ghost_name }
        ensures packet_writer { self.new.packet_writer ≡ self.old.packet_writer }
        ensures waiting { self.new.texts.waiting.items ≡ [] }
        ensures written { MatchResult result
            (λ _. Appends (W.contents self.old.writer.now) (W.contents self.new.writer.now)
            self.old.texts.waiting.items)
            (λ error. BreaksBy true error ((prefix : List ℕ) × (rest : List ℕ)
            × Appends (W.contents self.old.writer.now) (W.contents self.new.writer.now) prefix
            × (self.old.texts.waiting.items ≡ prefix ++ rest))) }
    {
        let written = write_text(&mut *self.writer, self.texts.waiting.as_slice());
        self.texts.waiting.clear();
        written
    }
}

impl Texts {
    // Appends the text of a packet to those that wait. Where memory runs out for it, these stay.
    fn take_packet<P: PacketWriter>(
        &mut self,
        packet_writer: &P,
        packet: &Dissection<'_>,
    ) -> Result<(), AllocError>
        ensures { MatchResult result
            (λ _. (text : List ℕ) × P.writes packet_writer.now packet.now text
            × (self.new.waiting.items ≡ self.old.waiting.items ++ text))
            (λ _. self.new.waiting.items ≡ self.old.waiting.items) }
    {
        self.last.clear();
        if let Err(error) = packet_writer.write_packet(packet, &mut self.last) {
            return Err(error);
        }
        self.waiting.extend_from_slice(&self.last)
    }
}

/// Writes a text. No write is tried again, and none follows one that failed.
pub(crate) fn write_text<W: Write>(writer: &mut W, text: &[u8]) -> Result<(), RunError>
    ensures { MatchResult result
        (λ _. Appends (W.contents writer.old) (W.contents writer.new) text.now)
        (λ error. BreaksBy true error ((prefix : List ℕ) × (rest : List ℕ)
        × Appends (W.contents writer.old) (W.contents writer.new) prefix
        × (text.now ≡ prefix ++ rest))) }
{
    let mut nothing = io::empty();
    let mut device = ReaderWriter {
        reader: &mut nothing,
        writer,
    };
    let written = write_whole(&mut device, text);
    // No effect at run time. The proof reads here what the writer holds at the end.
    let _ = &*device.writer;
    match written {
        Ok(()) => Ok(()),
        Err(fault) => Err(write_error(fault)),
    }
}

fn write_error(fault: Fault) -> RunError
    ensures { BreaksBy true result (Unit {0}) }
{
    match fault {
        Fault::NothingTaken => RunError::WriteZero,
        _ => RunError::Write,
    }
}
