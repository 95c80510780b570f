//! What a whole block of a pcapng file says.
ghost use Rattle.std.specs.Prelude.{◌<◌, ◌≡◌, ◌≤◌, ◌+◌, ◌*◌, ◌==◌, if◌then◌else◌, ◌↔◌, IsTrue, ℕ, List, [], length};
ghost use Rattle.std.specs.Prelude.{IfOk, IfErr, IfSome, MatchOption};
ghost use Rattle.captures.specs.Framed.{frame_bytes, own_frame};
ghost use Rattle.captures.specs.Numbers.{word};
ghost use Rattle.captures.specs.Pcapng.{section_header, interface_description, simple_packet};
ghost use Rattle.captures.specs.Pcapng.{is_read_version, IsOther, IsSkipped, HoldsPacket, Content, Says, IsTimedPacket};
ghost use Rattle.captures.specs.Pcapng.{IsSimplePacket, Reads, RefusesBlock, clock_at, clocks_with, link_at};
ghost use Rattle.captures.specs.Pcapng.{block_wire_len, links_with, later_links, simple_packet_captured_len};
ghost use Rattle.captures.specs.Pcapng.Content.{Holds};
ghost use Rattle.captures.specs.Units.{IsHeldOn, StandsAt};
ghost use Rattle.captures.specs.declared.origin.Origin.{Origin};
ghost use Rattle.captures.specs.declared.link.kind.Link.{Link};

use crate::CaptureError;
use crate::byte_order::ByteOrder;
use crate::link::frame::{Frame, report};
use crate::link::kind::Link;
use crate::origin::Origin;
use crate::pcapng::section::{CLOCK_COUNT, ETHERNET, LINKED_INTERFACES, Section};
use crate::time::clock::Clock;

pub(crate) const SECTION_HEADER: u32 = 0x0a0d_0d0a;

pub(crate) const BYTE_ORDER_MAGIC: u32 = 0x1a2b_3c4d;

const INTERFACE_DESCRIPTION: u32 = 1;

const OBSOLETE_PACKET: u32 = 2;

const SIMPLE_PACKET: u32 = 3;

const ENHANCED_PACKET: u32 = 6;

/// Whether a block that begins so is skipped, whatever it holds.
pub(crate) fn is_skipped(order: ByteOrder, prefix: &[u8]) -> bool
    requires { 12 ≤ length prefix.now }
    ensures { IsTrue result ↔ IsSkipped order prefix.now }
{
    ByteOrder::Big.word(prefix, 0) != SECTION_HEADER && is_other(order, prefix)
}

fn is_other(order: ByteOrder, prefix: &[u8]) -> bool
    requires { 12 ≤ length prefix.now }
    ensures { IsTrue result ↔ IsOther order prefix.now }
{
    let kind = order.word(prefix, 0);
    kind != SECTION_HEADER
        && kind != INTERFACE_DESCRIPTION
        && kind != ENHANCED_PACKET
        && kind != OBSOLETE_PACKET
        && kind != SIMPLE_PACKET
}

/// The frame in a block, no bytes where there is none, and where and when it was captured.
#[derive(Drop)]
pub(crate) struct Reading<'a> {
    pub origin: Origin,
    pub link: Link,
    /// How many bytes the packet had on the wire.
    pub wire_len: u32,
    /// How many bytes of the block come before those of the frame.
    pub at: usize,
    pub frame: Frame<'a>,
}

/// Reads a block, and what is known of the section after it.
#[inline(always)]
pub(crate) fn read_block<'a>(
    section: &mut Section,
    order: ByteOrder,
    block: &'a [u8],
) -> Result<Reading<'a>, CaptureError>
    requires { 12 ≤ length block.now }
    ensures reads { IfOk result
        (λ r. Reads section.old order block.now section.new r.origin (frame_bytes r.frame)) }
    ensures on { IfOk result (λ r. 0 < length (frame_bytes r.frame)
        → IsHeldOn section.old order block.now r.origin r.link r.wire_len r.frame) }
    ensures at { IfOk result (λ r. StandsAt block.now r.at r.frame.bytes) }
    ensures room { IfOk result (λ r. 52 + 2 * length (frame_bytes r.frame) ≤ 5 * length block.now) }
    ensures refused { IfErr result
        (λ e. RefusesBlock section.old order block.now e × (section.new ≡ section.old)) }
{
    match order.word(block, 0) {
        SECTION_HEADER => begin_section(section, order, block),
        INTERFACE_DESCRIPTION => describe_interface(section, order, block),
        ENHANCED_PACKET => read_packet(section, order, block),
        OBSOLETE_PACKET => read_packet(section, order, block),
        SIMPLE_PACKET => read_packet(section, order, block),
        _ => Ok(nothing()),
    }
}

// No packet.
fn nothing<'a>() -> Reading<'a>
    ensures frame { result.frame ≡ own_frame [] }
    ensures at { result.at ≡ 0 }
{
    Reading {
        origin: Origin {
            channel: 0,
            time: 0,
            wire_len: 0,
        },
        link: Link::Ethernet,
        wire_len: 0,
        at: 0,
        frame: Frame::of(&[]),
    }
}

fn begin_section<'a>(
    section: &mut Section,
    order: ByteOrder,
    block: &'a [u8],
) -> Result<Reading<'a>, CaptureError>
    requires size { 12 ≤ length block.now }
    requires kind { word order block.now 0 ≡ section_header }
    ensures reads { IfOk result
        (λ r. Reads section.old order block.now section.new r.origin (frame_bytes r.frame)) }
    ensures on { IfOk result (λ r. 0 < length (frame_bytes r.frame)
        → IsHeldOn section.old order block.now r.origin r.link r.wire_len r.frame) }
    ensures at { IfOk result (λ r. StandsAt block.now r.at r.frame.bytes) }
    ensures room { IfOk result (λ r. 52 + 2 * length (frame_bytes r.frame) ≤ 5 * length block.now) }
    ensures refused { IfErr result
        (λ e. RefusesBlock section.old order block.now e × (section.new ≡ section.old)) }
{
    if block.len() < 28 {
        return Err(CaptureError::BadBlock);
    }
    let (major, minor) = (order.half(block, 12), order.half(block, 14));
    if !is_read_version(major, minor) {
        return Err(CaptureError::Version(major, minor));
    }
    let Some(first) = section.first.checked_add(section.interfaces) else {
        return Err(CaptureError::BadBlock);
    };
    section.order = order;
    section.first = first;
    section.interfaces = 0;
    section.snap_len = 0;
    Ok(nothing())
}

fn is_read_version(major: u16, minor: u16) -> bool
    ensures { result ≡ is_read_version major minor }
{
    major == 1 && (minor == 0 || minor == 2)
}

fn describe_interface<'a>(
    section: &mut Section,
    order: ByteOrder,
    block: &'a [u8],
) -> Result<Reading<'a>, CaptureError>
    requires size { 12 ≤ length block.now }
    requires kind { word order block.now 0 ≡ interface_description }
    ensures reads { IfOk result
        (λ r. Reads section.old order block.now section.new r.origin (frame_bytes r.frame)) }
    ensures on { IfOk result (λ r. 0 < length (frame_bytes r.frame)
        → IsHeldOn section.old order block.now r.origin r.link r.wire_len r.frame) }
    ensures at { IfOk result (λ r. StandsAt block.now r.at r.frame.bytes) }
    ensures room { IfOk result (λ r. 52 + 2 * length (frame_bytes r.frame) ≤ 5 * length block.now) }
    ensures refused { IfErr result
        (λ e. RefusesBlock section.old order block.now e × (section.new ≡ section.old)) }
{
    if block.len() < 20 {
        return Err(CaptureError::BadBlock);
    }
    let Some(interfaces) = section.interfaces.checked_add(1) else {
        return Err(CaptureError::BadBlock);
    };
    let link_type = order.half(block, 8);
    let Some(links) = links_with(section, link_type) else {
        return Err(CaptureError::InterfaceLimit(link_type));
    };
    let clock = Clock::of(order, &block[16..block.len() - 4]);
    let snap_len = first_snap_len(section, order.word(block, 12));
    section.clocks = clocks_with(section, clock);
    section.interfaces = interfaces;
    section.snap_len = snap_len;
    section.links = links;
    Ok(nothing())
}

// The links of the first interfaces, after one more of this link type was described, if it may be.
fn links_with(section: &Section, link_type: u16) -> Option<[Link; LINKED_INTERFACES]>
    ensures { result ≡ links_with section.now link_type }
{
    let interface = section.interfaces as usize;
    if interface >= LINKED_INTERFACES {
        return later_links(section, link_type);
    }
    let mut links = section.links;
    links[interface] = Link::of(link_type);
    Some(links)
}

fn later_links(section: &Section, link_type: u16) -> Option<[Link; LINKED_INTERFACES]>
    ensures { result ≡ later_links section.now link_type }
{
    if link_type == ETHERNET {
        Some(section.links)
    } else {
        None
    }
}

// The clocks, after one more interface was described.
fn clocks_with(section: &Section, clock: Clock) -> [Clock; CLOCK_COUNT]
    ensures { result ≡ clocks_with section.now clock }
{
    let mut clocks = section.clocks;
    clocks[(section.interfaces as usize).min(LINKED_INTERFACES)] = clock;
    clocks
}

// The clock of an interface that is described.
fn clock_at(section: &Section, interface: u32) -> Clock
    ensures { result ≡ clock_at section.now interface }
{
    section.clocks[(interface as usize).min(LINKED_INTERFACES)]
}

// The link of an interface that is described.
fn link_at(section: &Section, interface: u32) -> Link
    ensures { result ≡ link_at section.now interface }
{
    if (interface as usize) < LINKED_INTERFACES {
        section.links[interface as usize]
    } else {
        Link::Ethernet
    }
}

// The snap length of the first interface, after one more was described.
fn first_snap_len(section: &Section, described: u32) -> u32
    ensures { result ≡ (if section.now.interfaces == 0 then described else section.now.snap_len) }
{
    if section.interfaces == 0 {
        described
    } else {
        section.snap_len
    }
}

// A packet's bytes, how many they are, how many were on the wire and how many come before them in the
// block, where and when it was captured, and on which link.
#[derive(Drop)]
struct Held<'a> {
    origin: Origin,
    link: Link,
    wire_len: u32,
    at: usize,
    captured: u32,
    packet: &'a [u8],
}

#[inline(always)]
fn read_packet<'a>(
    section: &mut Section,
    order: ByteOrder,
    block: &'a [u8],
) -> Result<Reading<'a>, CaptureError>
    requires size { 12 ≤ length block.now }
    requires kind { HoldsPacket order block.now }
    ensures reads { IfOk result
        (λ r. Reads section.old order block.now section.new r.origin (frame_bytes r.frame)) }
    ensures on { IfOk result (λ r. 0 < length (frame_bytes r.frame)
        → IsHeldOn section.old order block.now r.origin r.link r.wire_len r.frame) }
    ensures at { IfOk result (λ r. StandsAt block.now r.at r.frame.bytes) }
    ensures room { IfOk result (λ r. 52 + 2 * length (frame_bytes r.frame) ≤ 5 * length block.now) }
    ensures refused { IfErr result
        (λ e. RefusesBlock section.old order block.now e × (section.new ≡ section.old)) }
{
    let Some(held) = held_packet(section, order, block) else {
        return Err(CaptureError::BadBlock);
    };
    if let Some(link_type) = held.link.refused_type(section.passing.unfit) {
        return Err(CaptureError::LinkType(link_type));
    }
    if held.captured as usize > held.link.taken_limit(section.passing.unfit) {
        return Err(CaptureError::FrameTooLong(held.captured));
    }
    let Some(frame) = report(&mut section.passing, held.link, held.packet) else {
        return Err(CaptureError::NoFrame);
    };
    Ok(Reading {
        origin: held.origin,
        link: held.link,
        wire_len: held.wire_len,
        at: held.at + (held.packet.len() - frame.bytes().len()),
        frame,
    })
}

#[inline(always)]
fn held_packet<'a>(section: &Section, order: ByteOrder, block: &'a [u8]) -> Option<Held<'a>>
    requires size { 12 ≤ length block.now }
    requires kind { HoldsPacket order block.now }
    ensures found { MatchOption result
        ((content : Content) → Says section.now order block.now content → ⊥)
        (λ h. Says section.now order block.now (Holds h.origin h.link h.packet.now)) }
    ensures wire { IfSome result (λ h. block_wire_len order block.now ≡ h.wire_len) }
    ensures captured { IfSome result (λ h. h.captured ≡ length h.packet.now) }
    ensures at { IfSome result (λ h. StandsAt block.now h.at h.packet.now) }
    ensures size { IfSome result (λ h. length h.packet.now + 16 ≤ length block.now) }
{
    match order.word(block, 0) {
        ENHANCED_PACKET => timed_packet(section, order, block, order.word(block, 8)),
        OBSOLETE_PACKET => timed_packet(section, order, block, u32::from(order.half(block, 8))),
        _ => simple_packet(section, order, block),
    }
}

#[inline(always)]
fn timed_packet<'a>(
    section: &Section,
    order: ByteOrder,
    block: &'a [u8],
    interface: u32,
) -> Option<Held<'a>>
    ensures found { MatchOption result
        ((origin : Origin) (link : Link) (packet : List ℕ)
        → IsTimedPacket interface section.now order block.now origin link packet → ⊥)
        (λ h. IsTimedPacket interface section.now order block.now h.origin h.link h.packet.now) }
    ensures wire { IfSome result (λ h. word order block.now 24 ≡ h.wire_len) }
    ensures captured { IfSome result (λ h. h.captured ≡ length h.packet.now) }
    ensures at { IfSome result (λ h. StandsAt block.now h.at h.packet.now) }
    ensures size { IfSome result (λ h. length h.packet.now + 16 ≤ length block.now) }
{
    if block.len() < 32 || interface >= section.interfaces {
        return None;
    }
    let channel = section.first.checked_add(interface)?;
    let captured = order.word(block, 20);
    if captured as usize > block.len() - 32 {
        return None;
    }
    let time = clock_at(section, interface).time(order.word(block, 12), order.word(block, 16));
    let link = link_at(section, interface);
    let wire_len = order.word(block, 24);
    Some(Held {
        origin: Origin {
            channel,
            time,
            wire_len: link.wire_len_on(captured, wire_len),
        },
        link,
        wire_len,
        at: 28,
        captured,
        packet: &block[28..28 + captured as usize],
    })
}

fn simple_packet<'a>(section: &Section, order: ByteOrder, block: &'a [u8]) -> Option<Held<'a>>
    requires size { 12 ≤ length block.now }
    requires kind { word order block.now 0 ≡ simple_packet }
    ensures found { MatchOption result
        ((origin : Origin) (link : Link) (packet : List ℕ)
        → IsSimplePacket section.now order block.now origin link packet → ⊥)
        (λ h. IsSimplePacket section.now order block.now h.origin h.link h.packet.now) }
    ensures wire { IfSome result (λ h. word order block.now 8 ≡ h.wire_len) }
    ensures captured { IfSome result (λ h. h.captured ≡ length h.packet.now) }
    ensures at { IfSome result (λ h. StandsAt block.now h.at h.packet.now) }
    ensures size { IfSome result (λ h. length h.packet.now + 16 ≤ length block.now) }
{
    if block.len() < 16 || section.interfaces == 0 {
        return None;
    }
    let wire_len = order.word(block, 8);
    let captured = simple_packet_captured_len(section.snap_len, wire_len);
    if captured as usize > block.len() - 16 {
        return None;
    }
    let link = link_at(section, 0);
    Some(Held {
        origin: Origin {
            channel: section.first,
            time: 0,
            wire_len: link.wire_len_on(captured, wire_len),
        },
        link,
        wire_len,
        at: 12,
        captured,
        packet: &block[12..12 + captured as usize],
    })
}

fn simple_packet_captured_len(snap_len: u32, original: u32) -> u32
    ensures { result ≡ simple_packet_captured_len snap_len original }
{
    if snap_len == 0 {
        original
    } else {
        snap_len.min(original)
    }
}
