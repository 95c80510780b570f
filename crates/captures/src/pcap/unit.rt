//! The unit at the start of some bytes of a capture: a file header, a packet record, or a block.
ghost use Rattle.std.specs.Prelude.{◌≡◌, ◌≤◌, ◌+◌, ◌*◌, ℕ, List, length, IfOk, IfErr, IfSome, MatchOption, ◌↔◌, IsTrue};
ghost use Rattle.captures.specs.Pcap.{IsFileHeader, is_magic};
ghost use Rattle.captures.specs.Framed.{frame_bytes};
ghost use Rattle.captures.specs.Units.{IsIncomplete, Refuses, HasPacket, BeginsSection, StandsAt, record_origin};
ghost use Rattle.captures.specs.declared.byte_order.ByteOrder.{ByteOrder};
ghost use Rattle.captures.specs.declared.state.State.TheVariants.{Start, Classic};

use crate::CaptureError;
use crate::byte_order::ByteOrder;
use crate::limits::FIRST_UNIT_LEN;
use crate::link::frame::{Frame, report};
use crate::link::kind::Link;
use crate::origin::Origin;
use crate::pcapng::block::{BYTE_ORDER_MAGIC, SECTION_HEADER};
use crate::pcapng::section::no_section;
use crate::pcapng::section_unit::section_unit;
use crate::skipped::Passing;
use crate::state::State;
use crate::time::time_unit::TimeUnit;
use crate::unfit::Unfit;

const RECORD_HEAD_LEN: usize = 16;

/// A unit, and what follows it.
#[derive(Drop)]
pub(crate) struct Unit<'a> {
    /// The interface and the time of the packet in it, and the length of its frame on the wire.
    pub origin: Origin,
    /// The link that it was captured on.
    pub link: Link,
    /// How many bytes it had on the wire.
    pub wire_len: u32,
    /// How many bytes of the unit come before those of the frame.
    pub at: usize,
    /// The packet's frame: no bytes where the unit has no packet, where none were captured, and
    /// where it is passed over.
    pub frame: Frame<'a>,
    pub rest: &'a [u8],
}

/// The unit at the start of the bytes, and the state of the capture after it. There is none where
/// bytes are missing.
pub(crate) fn next_unit<'a>(
    state: &mut State,
    bytes: &'a [u8],
) -> Result<Option<Unit<'a>>, CaptureError>
    ensures found { IfOk result
        (λ found. MatchOption found (IsIncomplete state.old bytes.now × (state.new ≡ state.old))
        (λ u. HasPacket state.old bytes.now state.new u.origin u.link u.wire_len u.frame u.rest.now)) }
    ensures at { IfOk result
        (λ found. IfSome found (λ u. StandsAt bytes.now u.at u.frame.bytes)) }
    ensures room { IfOk result
        (λ found. IfSome found (λ u. 52 + 2 * length (frame_bytes u.frame) + 5 * length u.rest.now
        ≤ 5 * length bytes.now)) }
    ensures refused { IfErr result (λ e. Refuses state.old bytes.now e × (state.new ≡ state.old)) }
{
    if let State::Start(unfit) = *state {
        return first_unit(unfit, state, bytes);
    }
    match state {
        State::Start(_) => Ok(None),
        State::Classic(order, time_unit, link, passing) => {
            packet_record(*order, *time_unit, *link, passing, bytes)
        }
        State::Pcapng(section) => section_unit(section, bytes),
    }
}

fn first_unit<'a>(
    unfit: Unfit,
    state: &mut State,
    bytes: &'a [u8],
) -> Result<Option<Unit<'a>>, CaptureError>
    requires { state.old ≡ Start unfit }
    ensures found { IfOk result
        (λ found. MatchOption found (IsIncomplete (Start unfit) bytes.now × (state.new ≡ state.old))
        (λ u. HasPacket (Start unfit) bytes.now state.new u.origin u.link u.wire_len u.frame
        u.rest.now)) }
    ensures at { IfOk result
        (λ found. IfSome found (λ u. StandsAt bytes.now u.at u.frame.bytes)) }
    ensures room { IfOk result
        (λ found. IfSome found (λ u. 52 + 2 * length (frame_bytes u.frame) + 5 * length u.rest.now
        ≤ 5 * length bytes.now)) }
    ensures refused { IfErr result
        (λ e. Refuses (Start unfit) bytes.now e × (state.new ≡ state.old)) }
{
    if bytes.len() < FIRST_UNIT_LEN {
        return Ok(None);
    }
    if begins_section(bytes) {
        return first_block(unfit, state, bytes);
    }
    file_header(unfit, state, bytes)
}

fn first_block<'a>(
    unfit: Unfit,
    state: &mut State,
    bytes: &'a [u8],
) -> Result<Option<Unit<'a>>, CaptureError>
    requires size { FIRST_UNIT_LEN ≤ length bytes.now }
    requires begins { BeginsSection bytes.now }
    ensures found { IfOk result
        (λ found. MatchOption found (IsIncomplete (Start unfit) bytes.now × (state.new ≡ state.old))
        (λ u. HasPacket (Start unfit) bytes.now state.new u.origin u.link u.wire_len u.frame
        u.rest.now)) }
    ensures at { IfOk result
        (λ found. IfSome found (λ u. StandsAt bytes.now u.at u.frame.bytes)) }
    ensures room { IfOk result
        (λ found. IfSome found (λ u. 52 + 2 * length (frame_bytes u.frame) + 5 * length u.rest.now
        ≤ 5 * length bytes.now)) }
    ensures refused { IfErr result
        (λ e. Refuses (Start unfit) bytes.now e × (state.new ≡ state.old)) }
{
    let mut section = no_section(unfit);
    match section_unit(&mut section, bytes) {
        Ok(Some(unit)) => {
            *state = State::Pcapng(section);
            Ok(Some(unit))
        }
        Ok(None) => Ok(None),
        Err(error) => Err(error),
    }
}

fn file_header<'a>(
    unfit: Unfit,
    state: &mut State,
    bytes: &'a [u8],
) -> Result<Option<Unit<'a>>, CaptureError>
    requires size { FIRST_UNIT_LEN ≤ length bytes.now }
    requires other { BeginsSection bytes.now → ⊥ }
    ensures found { IfOk result
        (λ found. MatchOption found (IsIncomplete (Start unfit) bytes.now × (state.new ≡ state.old))
        (λ u. HasPacket (Start unfit) bytes.now state.new u.origin u.link u.wire_len u.frame
        u.rest.now)) }
    ensures at { IfOk result
        (λ found. IfSome found (λ u. StandsAt bytes.now u.at u.frame.bytes)) }
    ensures room { IfOk result
        (λ found. IfSome found (λ u. 52 + 2 * length (frame_bytes u.frame) + 5 * length u.rest.now
        ≤ 5 * length bytes.now)) }
    ensures refused { IfErr result
        (λ e. Refuses (Start unfit) bytes.now e × (state.new ≡ state.old)) }
{
    let (header, rest) = bytes.split_at(FIRST_UNIT_LEN);
    let Some(order) = header_order(header) else {
        return Err(CaptureError::NotCapture);
    };
    let link_type = (order.word(header, 20) % 65_536) as u16;
    let link = Link::of(link_type);
    let time_unit = TimeUnit::of(order.word(header, 0));
    *state = State::Classic(order, time_unit, link, Passing::from(unfit));
    Ok(Some(Unit {
        origin: Origin {
            channel: 0,
            time: 0,
            wire_len: 0,
        },
        link,
        wire_len: 0,
        at: 0,
        frame: Frame::of(&[]),
        rest,
    }))
}

// Whether the bytes begin with a section header of a pcapng file.
fn begins_section(bytes: &[u8]) -> bool
    requires { 12 ≤ length bytes.now }
    ensures { IsTrue result ↔ BeginsSection bytes.now }
{
    ByteOrder::Big.word(bytes, 0) == SECTION_HEADER
        && (ByteOrder::Big.word(bytes, 8) == BYTE_ORDER_MAGIC
            || ByteOrder::Little.word(bytes, 8) == BYTE_ORDER_MAGIC)
}

// The byte order of a file header.
fn header_order(header: &[u8]) -> Option<ByteOrder>
    requires { length header.now ≡ 24 }
    ensures { MatchOption result ((order : ByteOrder) → IsFileHeader order header.now → ⊥)
        (λ order. IsFileHeader order header.now) }
{
    if is_file_header(ByteOrder::Big, header) {
        Some(ByteOrder::Big)
    } else if is_file_header(ByteOrder::Little, header) {
        Some(ByteOrder::Little)
    } else {
        None
    }
}

fn is_file_header(order: ByteOrder, header: &[u8]) -> bool
    requires { length header.now ≡ 24 }
    ensures { IsTrue result ↔ IsFileHeader order header.now }
{
    is_magic(order.word(header, 0)) && order.half(header, 4) == 2 && order.half(header, 6) == 4
}

fn is_magic(number: u32) -> bool
    ensures { result ≡ is_magic number }
{
    number == 0xa1b2_c3d4 || number == 0xa1b2_3c4d
}

#[inline(always)]
fn packet_record<'a>(
    order: ByteOrder,
    time_unit: TimeUnit,
    link: Link,
    passing: &mut Passing,
    bytes: &'a [u8],
) -> Result<Option<Unit<'a>>, CaptureError>
    ensures found { IfOk result
        (λ found. MatchOption found
        (IsIncomplete (Classic order time_unit link passing.old) bytes.now
        × (passing.new ≡ passing.old))
        (λ u. HasPacket (Classic order time_unit link passing.old) bytes.now
        (Classic order time_unit link passing.new) u.origin u.link u.wire_len u.frame u.rest.now)) }
    ensures at { IfOk result
        (λ found. IfSome found (λ u. StandsAt bytes.now u.at u.frame.bytes)) }
    ensures room { IfOk result
        (λ found. IfSome found (λ u. 52 + 2 * length (frame_bytes u.frame) + 5 * length u.rest.now
        ≤ 5 * length bytes.now)) }
    ensures refused { IfErr result
        (λ e. Refuses (Classic order time_unit link passing.old) bytes.now e
        × (passing.new ≡ passing.old)) }
{
    if bytes.len() < RECORD_HEAD_LEN {
        return Ok(None);
    }
    let (head, body) = bytes.split_at(RECORD_HEAD_LEN);
    if let Some(link_type) = link.refused_type(passing.unfit) {
        return Err(CaptureError::LinkType(link_type));
    }
    let captured = order.word(head, 8);
    if captured as usize > link.taken_limit(passing.unfit) {
        return Err(CaptureError::FrameTooLong(captured));
    }
    if body.len() < captured as usize {
        return Ok(None);
    }
    let (packet, rest) = body.split_at(captured as usize);
    let Some(frame) = report(passing, link, packet) else {
        return Err(CaptureError::NoFrame);
    };
    Ok(Some(Unit {
        origin: record_origin(order, time_unit, link, head),
        link,
        wire_len: order.word(head, 12),
        at: RECORD_HEAD_LEN + (packet.len() - frame.bytes().len()),
        frame,
        rest,
    }))
}

// Where and when the packet of a record was captured, and of how many bytes.
fn record_origin(order: ByteOrder, time_unit: TimeUnit, link: Link, head: &[u8]) -> Origin
    requires { 16 ≤ length head.now }
    ensures { result ≡ record_origin order time_unit link head.now }
{
    Origin {
        channel: 0,
        time: time_unit.time(order.word(head, 0), order.word(head, 4)),
        wire_len: link.wire_len_on(order.word(head, 8), order.word(head, 12)),
    }
}
