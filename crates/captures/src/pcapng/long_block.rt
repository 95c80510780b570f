//! A block that is skipped, and that is longer than what a run holds of its input.
ghost use Rattle.std.specs.Prelude.{◌≡◌, ◌≤◌, ◌<◌, List, ℕ, length, MatchOption, Some};
ghost use Rattle.captures.specs.Dropped.{ComesAfter, IsDropped, IsWithin};
ghost use Rattle.captures.specs.Units.{IsIncomplete};
ghost use Rattle.captures.specs.declared.state.State.{State};

use crate::byte_order::ByteOrder;
use crate::limits::{BLOCK_LIMIT, INPUT_CAPACITY};
use crate::pcapng::block::is_skipped;
use crate::pcapng::section_unit::BLOCK_MIN_LEN;
use crate::state::State;

/// The bytes of a block's second length.
const SECOND_LEN: usize = 4;

/// Such a block, after a prefix of it.
#[derive(Clone, Copy)]
pub(crate) struct LongBlock {
    pub order: ByteOrder,
    pub kind: u32,
    pub len: u32,
    /// How many bytes are still to come before its second length.
    pub left: u32,
}

/// What happens to the bytes that follow the prefix of a long block.
#[derive(Clone, Copy)]
pub(crate) enum Following {
    /// It isn't whole yet. This many of them are held, of its second length.
    Held(LongBlock, usize),
    /// Its second length is another one. This many bytes are left from there on.
    Refused(LongBlock, usize),
    /// This many follow it.
    Passed(usize),
}

impl LongBlock {
    /// Drops what these bytes have of the block, as far as its second length.
    pub(crate) fn following(self, bytes: &[u8]) -> Following
        ensures comes { (state : State) (dropped : List ℕ) → IsDropped state (Some self) dropped
            → ComesAfter state self dropped bytes.now result }
        ensures within { IsWithin (length bytes.now) result }
    {
        let dropped = bytes.len().min(self.left as usize);
        let (_, rest) = bytes.split_at(dropped);
        let started = LongBlock {
            order: self.order,
            kind: self.kind,
            len: self.len,
            left: self.left - dropped as u32,
        };
        if rest.len() < SECOND_LEN {
            return Following::Held(started, rest.len());
        }
        if self.order.word(rest, 0) != self.len {
            return Following::Refused(started, rest.len());
        }
        Following::Passed(rest.len() - SECOND_LEN)
    }
}

/// Such a block, of which these bytes are a prefix, if they begin one.
pub(crate) fn long_block(state: State, bytes: &[u8]) -> Option<LongBlock>
    requires started { IsIncomplete state bytes.now }
    requires size { length bytes.now ≤ INPUT_CAPACITY }
    ensures { MatchOption result (length bytes.now < INPUT_CAPACITY)
        (λ block. IsDropped state (Some block) bytes.now) }
{
    let State::Pcapng(section) = state else {
        return None;
    };
    if bytes.len() < BLOCK_MIN_LEN {
        return None;
    }
    let order = section.order;
    let len = order.word(bytes, 4);
    if len as usize <= BLOCK_LIMIT || !is_skipped(order, bytes) {
        return None;
    }
    Some(LongBlock {
        order,
        kind: order.word(bytes, 0),
        len,
        left: len - 4 - bytes.len() as u32,
    })
}
