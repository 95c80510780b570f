//! Writes the packets of a capture, a line for each.
ghost use Rattle.std.specs.Prelude.{[], ℕ, ◌++◌, List, IfOk, OnOk, ◌≡◌};
ghost use Rattle.packets.specs.Written.{IsLineOf, WritesLines};
ghost use Rattle.packets.specs.declared.dissection.Dissection.{Dissection};

use crate::run::omitted::Omitted;
use crate::run::output::{PacketWriter, write_packets};
use crate::run::rules::Rules;
use crate::{Dissection, JsonLines, ShowOptions};
use captures::RunError;
use std::alloc::{AllocError, Global};
use std::hash::BuildHasher;
use std::io::{Read, Write};

/// Describes a packet in one line.
pub trait LineWriter {
    // Such a text may describe a packet.
    ghost describes: { Self → Dissection → List ℕ → Type 0 };

    // The lines below that of a packet.
    ghost details: { Self → Dissection → List ℕ };

    /// Puts the line of a packet into `out`, which is empty, without the 0a that ends it. Other 0a
    /// bytes in it are left out of the line.
    fn write_line(&self, packet: &Dissection<'_>, out: &mut Vec<u8>) -> Result<(), AllocError>
        requires { out.old.items ≡ [] }
        ensures { IfOk result (λ _. describes self.now packet.now out.new.items) };

    /// Appends the lines below that of a packet to `out`, each with its end.
    fn write_details(&self, packet: &Dissection<'_>, out: &mut Vec<u8>) -> Result<(), AllocError>
        ensures { OnOk result (out.new.items ≡ out.old.items ++ details self.now packet.now) };
}

impl LineWriter for ShowOptions {
    ghost use Rattle.packets.specs.ShownBytes.{details_of};

    // Its texts are compared by tests.
    ghost describes = { λ options packet text. Unit {0} };

    ghost details = { λ options packet. details_of options.bytes packet };

    fn write_line(&self, packet: &Dissection<'_>, out: &mut Vec<u8>) -> Result<(), AllocError> {
        ShowOptions::write_line(self, packet, out)
    }

    fn write_details(&self, packet: &Dissection<'_>, out: &mut Vec<u8>) -> Result<(), AllocError> {
        self.write_bytes(packet, out)
    }
}

impl LineWriter for JsonLines {
    // Its texts are compared by tests.
    ghost describes = { λ options packet text. Unit {0} };

    ghost details = { λ options packet. [] };

    fn write_line(&self, packet: &Dissection<'_>, out: &mut Vec<u8>) -> Result<(), AllocError> {
        JsonLines::write_line(self, packet, out)
    }

    fn write_details(
        &self,
        _packet: &Dissection<'_>,
        _out: &mut Vec<u8>,
    ) -> Result<(), AllocError> {
        Ok(())
    }
}

/// Writes a line for each packet that the filter lets through, with the lines below it, up to the end of the capture, to
/// where it is refused or to a limit. All lines are written before the next read; `omitted` becomes
/// what is left out.
///
/// Lines of packets before a refusal are written, also where memory runs out for the next one. An
/// error of the writer is returned rather than why the packets end. No write is tried again, and
/// none follows one that failed. No clause says when lines are written, nor that no write follows a
/// failed one: tests do. The names of datagrams are hashed by this state, as in
/// [`Dissector::with_hasher`].
pub fn write_lines<R: Read + Drop, W: Write, L: LineWriter, S: BuildHasher + Drop>(
    alloc: Global,
    state: S,
    rules: &Rules,
    lines: &L,
    reader: R,
    writer: &mut W,
    omitted: &mut Omitted,
) -> Result<(), RunError>
    ensures { WritesLines (L.describes lines.now) (L.details lines.now) rules.now omitted.new (R.remaining reader)
        (W.contents writer.old) (W.contents writer.new) result }
{
    let lines = Lines { lines };
    write_packets(alloc, state, rules, &lines, reader, writer, omitted)
}

// The line of each packet, with its end and the lines below it.
#[derive(Drop)]
struct Lines<'a, L> {
    lines: &'a L,
}

impl<'a, L: LineWriter> PacketWriter for Lines<'a, L> {
    ghost use Rattle.packets.specs.Written.{IsLineOf};

    ghost writes = { λ lines packet text.
        IsLineOf (L.describes lines.lines.now) (L.details lines.lines.now) packet text };

    fn write_packet(&self, packet: &Dissection<'_>, out: &mut Vec<u8>) -> Result<(), AllocError> {
        if let Err(error) = self.lines.write_line(packet, out) {
            return Err(error);
        }
        out.retain(|byte| *byte != b'\n');
        if out.push(b'\n').is_err() {
            return Err(AllocError);
        }
        self.lines.write_details(packet, out)
    }
}
