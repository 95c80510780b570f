//! A packet as an Ethernet II frame.
ghost use Rattle.std.specs.Prelude.{◌≡◌, ◌≤◌, ◌+◌, ◌*◌, ◌++◌, ◌==◌, List, ℕ, [], length, take, ◌<◌, IfOk, IfSome, None};
ghost use Rattle.std.specs.Prelude.{Some, MatchOption, MatchResult};
ghost use Rattle.hex.specs.Hex.{encode_lower};
ghost use Rattle.captures.specs.Framed.{address_at, cooked_type, family_type, FrameParts, frame_bytes, frame_parts};
ghost use Rattle.captures.specs.Framed.{own_frame, IsBack, reason_on, reported_frame, reported_of, framed_after};
ghost use Rattle.captures.specs.Framed.{framed_packet, ip_type};
ghost use Rattle.captures.specs.Skipping.{counted};
ghost use Rattle.captures.specs.declared.link.kind.Link.TheVariants.{Null, Loop, Sll, Sll2};

use crate::byte_order::ByteOrder;
use crate::link::header::Header;
use crate::link::kind::Link;
use crate::skipped::{Passing, Reason};
use crate::text::line::append_hex;
use crate::unfit::Unfit;
use std::marker::Model;

const IPV4: u16 = 0x0800;

const IPV6: u16 = 0x86dd;

/// An Ethernet II frame: that of a packet that was captured as one, or a header and what follows the
/// packet's own.
#[derive(Debug, Drop)]
pub struct Frame<'a> {
    header: Option<Header>,
    rest: &'a [u8],
}

impl<'a> Model for Frame<'a> {
    ghost Value = { FrameParts };

    ghost view = { λ frame. record { header = frame.header; bytes = frame.rest.now } };
}

impl<'a> Frame<'a> {
    /// The header that replaces the link's own. There is none where the packet was captured as an
    /// Ethernet frame.
    pub fn header(&self) -> Option<&Header>
        ensures { MatchOption result (self.now.header ≡ None)
            (λ header. self.now.header ≡ Some header.now) }
    {
        self.header.as_ref()
    }

    /// The whole frame, or what follows a header that was made.
    pub fn bytes(&self) -> &'a [u8]
        ensures { result.now ≡ self.now.bytes }
    {
        self.rest
    }

    /// How many bytes the whole frame has, with those of a header that was made.
    pub fn len(&self) -> usize
        ensures { result ≡ length (frame_bytes self.now) }
    {
        match &self.header {
            Some(header) => header.len() + self.rest.len(),
            None => self.rest.len(),
        }
    }

    /// The same header, copied.
    pub(crate) fn made_header(&self) -> Option<Header>
        ensures { result ≡ self.now.header }
    {
        self.header
    }

    /// What follows this header, or the whole frame if there is none.
    pub(crate) fn following(header: Option<Header>, bytes: &'a [u8]) -> Frame<'a>
        ensures { result ≡ record { header = header; bytes = bytes.now } }
    {
        Frame {
            header,
            rest: bytes,
        }
    }

    /// A frame of these bytes.
    pub(crate) fn of(bytes: &'a [u8]) -> Frame<'a>
        ensures { result ≡ own_frame bytes.now }
    {
        Frame {
            header: None,
            rest: bytes,
        }
    }

    /// Whether it has no bytes.
    pub fn is_empty(&self) -> bool
        ensures { result ≡ (length (frame_bytes self.now) == 0) }
    {
        match &self.header {
            Some(_) => false,
            None => self.rest.is_empty(),
        }
    }

    /// Puts its hex digits after the first `used` bytes, and returns how many are used then.
    #[inline(always)]
    pub(crate) fn append_hex(&self, out: &mut [u8], used: usize) -> usize
        requires { used + 2 * length (frame_bytes self.now) ≤ length out.old }
        ensures end { result ≡ used + 2 * length (frame_bytes self.now) }
        ensures text { take result out.new ≡ take used out.old
            ++ encode_lower (frame_bytes self.now) }
    {
        match self.header {
            Some(header) => {
                let following = header.append_hex(out, used);
                append_hex(out, following, self.rest)
            }
            None => append_hex(out, used, self.rest),
        }
    }
}

/// What is reported of a packet of such a link, if it isn't refused, and the counts of packets
/// then: its frame, or no bytes where it is passed over.
#[inline(always)]
pub(crate) fn report<'a>(passing: &mut Passing, link: Link, packet: &'a [u8]) -> Option<Frame<'a>>
    ensures reported { MatchOption result
        ((reported_frame passing.old.unfit link packet.now ≡ None) × (passing.new ≡ passing.old))
        (λ frame. (reported_frame passing.old.unfit link packet.now ≡ Some (frame_bytes frame))
        × (passing.new ≡ counted passing.old link packet.now)) }
    ensures parts { IfSome result (λ frame. 0 < length (frame_bytes frame)
        → frame_parts link packet.now ≡ Some frame) }
    ensures back { IfSome result (λ frame. IsBack packet.now frame.bytes) }
    ensures size { IfSome result (λ frame. length (frame_bytes frame) ≤ length packet.now + 14) }
{
    match reported(link, packet) {
        Ok(frame) => {
            passing.count_packet();
            Some(frame)
        }
        Err(reason) => match passing.unfit {
            Unfit::Refuse => None,
            Unfit::Skip => {
                passing.count_passed_over(reason);
                Some(Frame::of(&[]))
            }
        },
    }
}

// The frame of a packet of such a link, or why it has none that a line can hold.
#[inline(always)]
fn reported(link: Link, packet: &[u8]) -> Result<Frame<'_>, Reason>
    ensures reported { MatchResult result
        (λ frame. reported_of link packet.now ≡ Ok (frame_bytes frame))
        (λ reason. reported_of link packet.now ≡ Err reason) }
    ensures parts { IfOk result (λ frame. frame_parts link packet.now ≡ Some frame) }
    ensures back { IfOk result (λ frame. IsBack packet.now frame.bytes) }
    ensures size { IfOk result (λ frame. length (frame_bytes frame) ≤ length packet.now + 14) }
{
    if packet.len() > link.captured_limit() {
        return Err(reason_on(link, Reason::TooLong));
    }
    match framed(link, packet) {
        Some(frame) => Ok(frame),
        None => Err(reason_on(link, Reason::NoFrame)),
    }
}

fn reason_on(link: Link, reason: Reason) -> Reason
    ensures { result ≡ reason_on link reason }
{
    match link {
        Link::Ethernet | Link::Ip | Link::Null | Link::Loop | Link::Sll | Link::Sll2 => reason,
        Link::Other(_) => Reason::OtherLink,
    }
}

// A packet of such a link as an Ethernet II frame, if it has one.
#[inline(always)]
fn framed(link: Link, packet: &[u8]) -> Option<Frame<'_>>
    ensures parts { result ≡ frame_parts link packet.now }
    ensures back { IfSome result (λ frame. IsBack packet.now frame.bytes) }
    ensures size { IfSome result (λ frame. length (frame_bytes frame) ≤ length packet.now + 14) }
{
    frame_of(link, packet)
}

#[inline(always)]
fn frame_of(link: Link, packet: &[u8]) -> Option<Frame<'_>>
    ensures { result ≡ frame_parts link packet.now }
{
    if packet.is_empty() {
        return Some(Frame::of(packet));
    }
    match link {
        Link::Ethernet => Some(Frame::of(packet)),
        Link::Ip => framed_after([0; 6], ip_type(packet), packet),
        Link::Null => framed_null(packet),
        Link::Loop => framed_loop(packet),
        Link::Sll => framed_sll(packet),
        Link::Sll2 => framed_sll2(packet),
        Link::Other(_) => None,
    }
}

fn framed_null(packet: &[u8]) -> Option<Frame<'_>>
    ensures { result ≡ framed_packet Null packet.now }
{
    if packet.len() < 4 {
        return None;
    }
    let little = ByteOrder::Little.word(packet, 0);
    let family = if little < 65_536 {
        little
    } else {
        ByteOrder::Big.word(packet, 0)
    };
    framed_after([0; 6], family_type(family), &packet[4..])
}

fn framed_loop(packet: &[u8]) -> Option<Frame<'_>>
    ensures { result ≡ framed_packet Loop packet.now }
{
    if packet.len() < 4 {
        return None;
    }
    framed_after(
        [0; 6],
        family_type(ByteOrder::Big.word(packet, 0)),
        &packet[4..],
    )
}

fn framed_sll(packet: &[u8]) -> Option<Frame<'_>>
    ensures { result ≡ framed_packet Sll packet.now }
{
    if packet.len() < 16 {
        return None;
    }
    let source = address_at(ByteOrder::Big.half(packet, 4), packet, 6);
    let hardware = ByteOrder::Big.half(packet, 2);
    let ether_type = cooked_type(hardware, ByteOrder::Big.half(packet, 14));
    framed_after(source, ether_type, &packet[16..])
}

fn framed_sll2(packet: &[u8]) -> Option<Frame<'_>>
    ensures { result ≡ framed_packet Sll2 packet.now }
{
    if packet.len() < 20 {
        return None;
    }
    let source = address_at(u16::from(packet[11]), packet, 12);
    let hardware = ByteOrder::Big.half(packet, 8);
    let ether_type = cooked_type(hardware, ByteOrder::Big.half(packet, 0));
    framed_after(source, ether_type, &packet[20..])
}

// A header with this source and ether type, and the bytes after it.
fn framed_after(source: [u8; 6], ether_type: Option<u16>, rest: &[u8]) -> Option<Frame<'_>>
    ensures { result ≡ framed_after source ether_type rest.now }
{
    let ether_type = ether_type?;
    Some(Frame {
        header: Some(Header { source, ether_type }),
        rest,
    })
}

fn ip_type(packet: &[u8]) -> Option<u16>
    requires { 1 ≤ length packet.now }
    ensures { result ≡ ip_type packet.now }
{
    let version = packet[0] / 16;
    if version == 4 {
        Some(IPV4)
    } else if version == 6 {
        Some(IPV6)
    } else {
        None
    }
}

fn family_type(family: u32) -> Option<u16>
    ensures { result ≡ family_type family }
{
    if family == 2 {
        Some(IPV4)
    } else if family == 24 || family == 28 || family == 30 || family == 10 {
        Some(IPV6)
    } else {
        None
    }
}

fn cooked_type(hardware: u16, protocol: u16) -> Option<u16>
    ensures { result ≡ cooked_type hardware protocol }
{
    if protocol < 1536 || hardware == 770 || hardware == 803 || hardware == 824 {
        None
    } else {
        Some(protocol)
    }
}

// The address at an offset, if its length is six bytes; else zeros.
fn address_at(len: u16, bytes: &[u8], at: usize) -> [u8; 6]
    requires { at + 6 ≤ length bytes.now }
    ensures { result ≡ address_at len bytes.now at }
{
    if len == 6 {
        [
            bytes[at],
            bytes[at + 1],
            bytes[at + 2],
            bytes[at + 3],
            bytes[at + 4],
            bytes[at + 5],
        ]
    } else {
        [0; 6]
    }
}
