//! Writes a capture of the packets of a capture.
ghost use Rattle.std.specs.Prelude.{◌≡◌, length};
ghost use Rattle.packets.specs.WrittenCaptures.{WritesCapture, WritesRecords, frame_of, head_of, in_32_bits};
ghost use Rattle.packets.specs.WrittenCaptures.{record_of};

use crate::Dissection;
use crate::run::omitted::Omitted;
use crate::run::output::{PacketWriter, write_packets, write_text};
use crate::run::rules::Rules;
use captures::{RunError, TimeUnit, file_header, frame_wire_len, record_head};
use std::alloc::{AllocError, Global};
use std::hash::BuildHasher;
use std::io::{Read, Write};

const NANOSECONDS: u64 = 1_000_000_000;

/// Writes a capture of the packets that the filter lets through, up to the end of the capture that is
/// read, to where it is refused or to a limit: a classic capture of their Ethernet II frames, with
/// times in nanoseconds. Its file header is written before the first read. What ends it, and when
/// records are written, is as in [`write_lines`](crate::write_lines).
pub fn write_capture<R: Read + Drop, W: Write, S: BuildHasher + Drop>(
    alloc: Global,
    state: S,
    rules: &Rules,
    reader: R,
    writer: &mut W,
    omitted: &mut Omitted,
) -> Result<(), RunError>
    ensures { WritesCapture rules.now omitted.new (R.remaining reader)
        (W.contents writer.old) (W.contents writer.new) result }
{
    *omitted = Omitted::NOTHING;
    if let Err(error) = write_text(writer, &file_header(TimeUnit::Nanoseconds)) {
        return Err(error);
    }
    write_records(alloc, state, rules, reader, writer, omitted)
}

/// The packet records that [`write_capture`] writes, without the file header: of a further capture,
/// whose packets follow those of the first one.
pub fn write_records<R: Read + Drop, W: Write, S: BuildHasher + Drop>(
    alloc: Global,
    state: S,
    rules: &Rules,
    reader: R,
    writer: &mut W,
    omitted: &mut Omitted,
) -> Result<(), RunError>
    ensures { WritesRecords rules.now omitted.new (R.remaining reader)
        (W.contents writer.old) (W.contents writer.new) result }
{
    write_packets(alloc, state, rules, &Records, reader, writer, omitted)
}

// The packet record of each packet.
#[derive(Clone, Copy)]
struct Records;

impl PacketWriter for Records {
    ghost use Rattle.packets.specs.WrittenCaptures.{record_of};

    ghost writes = { λ records packet text. text ≡ record_of packet };

    fn write_packet(&self, packet: &Dissection<'_>, out: &mut Vec<u8>) -> Result<(), AllocError> {
        out.extend_from_slice(&head_of(packet))?;
        if let Some(header) = &packet.header {
            out.extend_from_slice(&header.to_bytes())?;
        }
        out.extend_from_slice(packet.bytes.bytes())
    }
}

// The head of a packet's record.
fn head_of(packet: &Dissection<'_>) -> [u8; 16]
    ensures { result ≡ head_of packet.now }
{
    let len = frame_len(packet);
    record_head(
        in_32_bits(packet.time / NANOSECONDS),
        (packet.time % NANOSECONDS) as u32,
        in_32_bits(len as u64),
        frame_wire_len(len, packet.captured_len, packet.wire_len),
    )
}

// How many bytes the frame of a packet has.
fn frame_len(packet: &Dissection<'_>) -> usize
    ensures { result ≡ length (frame_of packet.now) }
{
    let bytes = packet.bytes.bytes();
    match &packet.header {
        Some(header) => header.to_bytes().len() + bytes.len(),
        None => bytes.len(),
    }
}

fn in_32_bits(number: u64) -> u32
    ensures { result ≡ in_32_bits number }
{
    match u32::try_from(number) {
        Ok(number) => number,
        Err(_) => u32::MAX,
    }
}
