//! Where in a capture it is refused: a packet's number, an offset in bytes and a block type.
ghost use Rattle.std.specs.Prelude.{◌≡◌, ◌+◌, ◌++◌, ℕ, List};
ghost use Rattle.captures.specs.Dropped.{IsDropped};
ghost use Rattle.captures.specs.Numbers.{capped};
ghost use Rattle.captures.specs.Positions.{block_type};
ghost use Rattle.captures.specs.Units.{seen_in};

use crate::byte_order::ByteOrder;
use crate::pcapng::block::SECTION_HEADER;
use crate::pcapng::long_block::LongBlock;
use crate::state::State;
use std::fmt;

/// Where in a capture it is refused. Counts stop at the greatest number of 64 bits.
#[derive(Clone, Copy, Debug, PartialEq, Eq)]
pub struct Position {
    /// The number in the capture of the packet there, or of the first one after it, as
    /// [`Packet`](crate::Packet) has it.
    pub packet: u64,
    /// How many bytes come before the file header, packet record or block there.
    pub offset: u64,
    /// The type of the block there, in a pcapng file, if as many bytes were read as it has.
    pub block: Option<u32>,
}

impl fmt::Display for Position {
    fn fmt<W: fmt::Write>(&self, f: &mut fmt::Formatter<W>) -> fmt::Result {
        let (packet, offset) = (self.packet, self.offset);
        write!(f, "packet {packet}, byte {offset}")?;
        match self.block {
            Some(kind) => {
                let name = block_name(kind);
                write!(f, ", block type {kind:#x}{name}")
            }
            None => Ok(()),
        }
    }
}

// The name that the format gives a block type.
fn block_name(kind: u32) -> &'static str {
    match kind {
        0x0a0d_0d0a => " (section header)",
        0x1 => " (interface description)",
        0x2 => " (obsolete packet)",
        0x3 => " (simple packet)",
        0x4 => " (name resolution)",
        0x5 => " (interface statistics)",
        0x6 => " (enhanced packet)",
        0x9 => " (systemd journal export)",
        0xa => " (decryption secrets)",
        0xbad | 0x4000_0bad => " (custom)",
        _ => "",
    }
}

/// The position of what follows this many bytes of whole units, of which this is held.
pub(crate) fn position_of(
    passed: u64,
    state: State,
    started: Option<LongBlock>,
    held: &[u8],
) -> Position
    ensures packet { result.packet ≡ capped (seen_in state + 1) }
    ensures offset { result.offset ≡ passed }
    ensures block { (dropped : List ℕ) → IsDropped state started dropped
        → result.block ≡ block_type state (dropped ++ held.now) }
{
    Position {
        packet: state.seen().saturating_add(1),
        offset: passed,
        block: started_type(state, started, held),
    }
}

// The type of the block of which these bytes are held, after what was dropped of it.
fn started_type(state: State, started: Option<LongBlock>, held: &[u8]) -> Option<u32>
    ensures { (dropped : List ℕ) → IsDropped state started dropped
        → result ≡ block_type state (dropped ++ held.now) }
{
    match started {
        Some(block) => Some(block.kind),
        None => block_type(state, held),
    }
}

fn block_type(state: State, bytes: &[u8]) -> Option<u32>
    ensures { result ≡ block_type state bytes.now }
{
    if bytes.len() < 4 {
        return None;
    }
    match state {
        State::Start(_) => {
            if ByteOrder::Big.word(bytes, 0) == SECTION_HEADER {
                Some(SECTION_HEADER)
            } else {
                None
            }
        }
        State::Classic(_, _, _, _) => None,
        State::Pcapng(section) => Some(section.order.word(bytes, 0)),
    }
}
