//! The block at the start of some bytes of a section.
ghost use Rattle.std.specs.Prelude.{◌≡◌, ◌≤◌, ◌+◌, ◌*◌, ◌↔◌, IsTrue, length, IfOk, IfErr, IfSome, MatchOption};
ghost use Rattle.captures.specs.Pcapng.{HasOrder, IsTaken};
ghost use Rattle.captures.specs.Framed.{frame_bytes};
ghost use Rattle.captures.specs.Units.{IsIncomplete, RefusesAt, HasPacket, StandsAt};
ghost use Rattle.captures.specs.declared.byte_order.ByteOrder.{ByteOrder};
ghost use Rattle.captures.specs.declared.state.State.TheVariants.{Pcapng};

use crate::CaptureError;
use crate::byte_order::ByteOrder;
use crate::limits::BLOCK_LIMIT;
use crate::pcap::unit::Unit;
use crate::pcapng::block::{BYTE_ORDER_MAGIC, SECTION_HEADER, is_skipped, read_block};
use crate::pcapng::section::Section;

/// The bytes of the shortest block.
pub(crate) const BLOCK_MIN_LEN: usize = 12;

/// The block at the start of the bytes, and what is known of the section after it. There is none
/// where bytes are missing.
#[inline(always)]
pub(crate) fn section_unit<'a>(
    section: &mut Section,
    bytes: &'a [u8],
) -> Result<Option<Unit<'a>>, CaptureError>
    ensures found { IfOk result
        (λ found. MatchOption found
        (IsIncomplete (Pcapng section.old) bytes.now × (section.new ≡ section.old))
        (λ u. HasPacket (Pcapng section.old) bytes.now (Pcapng section.new) u.origin u.link u.wire_len u.frame
        u.rest.now)) }
    ensures at { IfOk result
        (λ found. IfSome found (λ u. StandsAt bytes.now u.at u.frame.bytes)) }
    ensures room { IfOk result
        (λ found. IfSome found (λ u. 52 + 2 * length (frame_bytes u.frame) + 5 * length u.rest.now
        ≤ 5 * length bytes.now)) }
    ensures refused { IfErr result
        (λ e. RefusesAt section.old bytes.now e × (section.new ≡ section.old)) }
{
    if bytes.len() < BLOCK_MIN_LEN {
        return Ok(None);
    }
    let Some(order) = block_order(section.order, bytes) else {
        return Err(CaptureError::BadBlock);
    };
    let len = order.word(bytes, 4);
    if len < 12 || len % 4 != 0 {
        return Err(CaptureError::BadBlock);
    }
    if !is_taken(order, bytes, len) {
        return Err(CaptureError::BlockTooLong(len));
    }
    if bytes.len() < len as usize {
        return Ok(None);
    }
    let (block, rest) = bytes.split_at(len as usize);
    if order.word(block, block.len() - 4) != len {
        return Err(CaptureError::BadBlock);
    }
    match read_block(section, order, block) {
        Ok(reading) => Ok(Some(Unit {
            origin: reading.origin,
            link: reading.link,
            wire_len: reading.wire_len,
            at: reading.at,
            frame: reading.frame,
            rest,
        })),
        Err(error) => Err(error),
    }
}

// The byte order of a block, in a section of this order.
fn block_order(order: ByteOrder, bytes: &[u8]) -> Option<ByteOrder>
    requires { 12 ≤ length bytes.now }
    ensures { MatchOption result ((o : ByteOrder) → HasOrder order bytes.now o → ⊥)
        (λ o. HasOrder order bytes.now o) }
{
    if ByteOrder::Big.word(bytes, 0) != SECTION_HEADER {
        Some(order)
    } else if ByteOrder::Big.word(bytes, 8) == BYTE_ORDER_MAGIC {
        Some(ByteOrder::Big)
    } else if ByteOrder::Little.word(bytes, 8) == BYTE_ORDER_MAGIC {
        Some(ByteOrder::Little)
    } else {
        None
    }
}

// Whether a block of this length is taken.
fn is_taken(order: ByteOrder, bytes: &[u8], len: u32) -> bool
    requires { 12 ≤ length bytes.now }
    ensures { IsTrue result ↔ IsTaken order bytes.now len }
{
    len as usize <= BLOCK_LIMIT || is_skipped(order, bytes)
}
