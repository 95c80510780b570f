//! The packets of a capture, and where it is refused.
ghost use Rattle.std.specs.Prelude.{◌≡◌};
ghost use Rattle.etherparse_structs.specs.Captured.{captured_packet, captured_status, captured_struct, end_status};
ghost use Rattle.etherparse_structs.specs.Captured.{end_struct, error_kind, error_minor, error_struct, error_value, found_struct};
ghost use Rattle.etherparse_structs.specs.Captured.{header_bytes, header_len, link_number, no_capture_error};
ghost use Rattle.etherparse_structs.specs.Captured.{no_captured_packet};

use crate::{DONE, EpPart, REFUSED};
use captures::{CaptureError, Header, Link, Parsed, ParsedPacket, RefusedAt};

/// More bytes of a capture have to follow, or it ends.
pub const MORE_BYTES: u32 = 7;

/// A packet of a capture.
#[repr(C)]
#[derive(Drop)]
pub struct EpCapturedPacket {
    /// Its number in the capture, from 1, those included that aren't given.
    pub number: u64,
    /// When it was captured, in nanoseconds since the year 1970 began; 0 where the capture doesn't say.
    pub time: u64,
    /// The number of its interface, from 0, over all sections of a pcapng file.
    pub interface_number: u32,
    /// How many bytes it had on the wire, as the capture says.
    pub wire_len: u32,
    /// The kind of link that it was captured on: 1 Ethernet, 2 none but IP, 3 BSD loopback, 4 OpenBSD
    /// loopback, 5 a Linux cooked capture, 6 one of version 2.
    pub link: u32,
    /// How many bytes `header` has: 14, or 0 where it was captured as an Ethernet II frame.
    pub header_len: u32,
    /// An Ethernet II header for what follows its link's own: to no address, from the sender's, if it
    /// has six bytes.
    pub header: [u8; 14],
    /// Where its frame is in the bytes that were passed, or what follows its link's own header.
    pub bytes: EpPart,
}

/// Why a capture is refused, and where.
#[repr(C)]
#[derive(Drop)]
pub struct EpCaptureError {
    /// 1 no capture file, 2 another link type, 3 another link type than Ethernet's after the 32nd
    /// interface of a section, 4 a packet that is too long, 5 a packet without an ether type, 6 the
    /// capture ends within a packet, 7 a block that is too long, 8 another version of pcapng, 9 a block
    /// that isn't well made; 0 where it isn't refused.
    pub kind: u32,
    /// The link type, the packet's or block's length, or the major version, else 0.
    pub value: u32,
    /// The minor version, else 0.
    pub minor: u32,
    /// The type of the block there, where it is known, else 0.
    pub block_type: u32,
    /// The number in the capture of the packet there, or of the first one after it.
    pub packet: u64,
    /// How many bytes come before the file header, packet record or block there.
    pub offset: u64,
}

/// What is at the start of some bytes of a capture.
#[repr(C)]
#[derive(Drop)]
pub struct EpCaptured {
    /// 0 where there is a packet, 7 where more bytes have to follow or the capture ends, 3 where it is
    /// refused, 4 where it isn't open: EP_DONE, EP_MORE_BYTES, EP_REFUSED or EP_WRONG_STATE.
    pub status: u32,
    /// How many of the bytes are done with. The next call takes those after them.
    pub done: usize,
    /// The packet, where there is one.
    pub packet: EpCapturedPacket,
    /// Why and where it is refused, where it is.
    pub error: EpCaptureError,
}

/// How a capture ends.
#[repr(C)]
#[derive(Drop)]
pub struct EpCaptureEnding {
    /// 0 where it is whole, 3 where it is cut off or was refused before, 4 where it isn't open: EP_DONE,
    /// EP_REFUSED or EP_WRONG_STATE.
    pub status: u32,
    /// Why and where it is refused, where it is.
    pub error: EpCaptureError,
}

impl EpCaptureEnding {
    /// That of what a parser found.
    pub(crate) fn of(end: Result<(), RefusedAt>) -> EpCaptureEnding
        ensures { result ≡ end_struct end }
    {
        match end {
            Ok(()) => EpCaptureEnding::of_status(DONE),
            Err(refused) => EpCaptureEnding {
                error: EpCaptureError::of(refused),
                ..EpCaptureEnding::of_status(REFUSED)
            },
        }
    }

    /// That of a capture that isn't open.
    pub(crate) fn of_status(status: u32) -> EpCaptureEnding
        ensures { result ≡ end_status status }
    {
        EpCaptureEnding {
            status,
            error: EpCaptureError::none(),
        }
    }
}

impl EpCaptured {
    /// That of what a parser found.
    pub(crate) fn of(parsed: Result<Parsed, RefusedAt>) -> EpCaptured
        ensures { result ≡ captured_struct parsed }
    {
        match parsed {
            Ok(Parsed { done, packet }) => EpCaptured::found(done, packet),
            Err(refused) => EpCaptured {
                error: EpCaptureError::of(refused),
                ..EpCaptured::of_status(REFUSED)
            },
        }
    }

    fn found(done: usize, packet: Option<ParsedPacket>) -> EpCaptured
        ensures { result ≡ found_struct done packet }
    {
        match packet {
            Some(packet) => EpCaptured {
                done,
                packet: EpCapturedPacket::of(&packet),
                ..EpCaptured::of_status(DONE)
            },
            None => EpCaptured {
                done,
                ..EpCaptured::of_status(MORE_BYTES)
            },
        }
    }

    /// That of a capture that isn't open.
    pub(crate) fn of_status(status: u32) -> EpCaptured
        ensures { result ≡ captured_status status }
    {
        EpCaptured {
            status,
            done: 0,
            packet: EpCapturedPacket::none(),
            error: EpCaptureError::none(),
        }
    }
}

impl EpCapturedPacket {
    fn of(packet: &ParsedPacket) -> EpCapturedPacket
        ensures { result ≡ captured_packet packet.now }
    {
        EpCapturedPacket {
            number: packet.number,
            time: packet.time,
            interface_number: packet.interface,
            wire_len: packet.wire_len,
            link: link_number(packet.link),
            header_len: header_len(&packet.header),
            header: header_bytes(&packet.header),
            bytes: EpPart {
                offset: packet.offset,
                len: packet.len,
            },
        }
    }

    fn none() -> EpCapturedPacket
        ensures { result ≡ no_captured_packet }
    {
        EpCapturedPacket {
            number: 0,
            time: 0,
            interface_number: 0,
            wire_len: 0,
            link: 0,
            header_len: 0,
            header: NO_HEADER,
            bytes: EpPart::none(),
        }
    }
}

impl EpCaptureError {
    /// That of a refusal.
    pub(crate) fn of(refused: RefusedAt) -> EpCaptureError
        ensures { result ≡ error_struct refused }
    {
        EpCaptureError {
            kind: error_kind(refused.error),
            value: error_value(refused.error),
            minor: error_minor(refused.error),
            block_type: refused.position.block.unwrap_or(0),
            packet: refused.position.packet,
            offset: refused.position.offset,
        }
    }

    /// No error.
    pub(crate) fn none() -> EpCaptureError
        ensures { result ≡ no_capture_error }
    {
        EpCaptureError {
            kind: 0,
            value: 0,
            minor: 0,
            block_type: 0,
            packet: 0,
            offset: 0,
        }
    }
}

const NO_HEADER: [u8; 14] = [0, 0, 0, 0, 0, 0, 0, 0, 0, 0, 0, 0, 0, 0];

fn header_len(header: &Option<Header>) -> u32
    ensures { result ≡ header_len header.now }
{
    match header {
        Some(_) => 14,
        None => 0,
    }
}

fn header_bytes(header: &Option<Header>) -> [u8; 14]
    ensures { result ≡ header_bytes header.now }
{
    match header {
        Some(header) => header.to_bytes(),
        None => NO_HEADER,
    }
}

fn link_number(link: Link) -> u32
    ensures { result ≡ link_number link }
{
    match link {
        Link::Ethernet => 1,
        Link::Ip => 2,
        Link::Null => 3,
        Link::Loop => 4,
        Link::Sll => 5,
        Link::Sll2 => 6,
        Link::Other(_) => 7,
    }
}

fn error_kind(error: CaptureError) -> u32
    ensures { result ≡ error_kind error }
{
    match error {
        CaptureError::NotCapture => 1,
        CaptureError::LinkType(_) => 2,
        CaptureError::InterfaceLimit(_) => 3,
        CaptureError::FrameTooLong(_) => 4,
        CaptureError::NoFrame => 5,
        CaptureError::CutOff => 6,
        CaptureError::BlockTooLong(_) => 7,
        CaptureError::Version(_, _) => 8,
        CaptureError::BadBlock => 9,
    }
}

fn error_value(error: CaptureError) -> u32
    ensures { result ≡ error_value error }
{
    match error {
        CaptureError::LinkType(number) => u32::from(number),
        CaptureError::InterfaceLimit(number) => u32::from(number),
        CaptureError::FrameTooLong(captured) => captured,
        CaptureError::BlockTooLong(len) => len,
        CaptureError::Version(major, _) => u32::from(major),
        CaptureError::NotCapture
        | CaptureError::NoFrame
        | CaptureError::CutOff
        | CaptureError::BadBlock => 0,
    }
}

fn error_minor(error: CaptureError) -> u32
    ensures { result ≡ error_minor error }
{
    match error {
        CaptureError::Version(_, minor) => u32::from(minor),
        _ => 0,
    }
}
