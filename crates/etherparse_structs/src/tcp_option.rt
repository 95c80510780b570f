//! The options of a TCP header, one after the other, as fields and numbers.
ghost use Rattle.std.specs.Prelude.{◌≡◌, ◌-◌, ◌≤◌, [], ◌∷◌, Some, map, length};
ghost use Rattle.std.specs.Iterator.{YieldsFirst};
ghost use Rattle.etherparse.specs.tcpudp.Options.{item_at, items_of, rest_at};
ghost use Rattle.etherparse_structs.specs.Part.{part_after, part_bytes};
ghost use Rattle.etherparse_structs.specs.TcpOption.{block_struct, blocks_there, element_struct, fault_struct};
ghost use Rattle.etherparse_structs.specs.TcpOption.{no_tcp_option, option_struct, option_struct_in, options_left, some_option};

use crate::EpPart;
use etherparse::{TcpOptionElement, TcpOptionReadError, TcpOptionsIterator};

/// A block of bytes that arrived after a gap (RFC 2018, section 3).
#[repr(C)]
#[derive(Drop)]
pub struct EpTcpBlock {
    /// The sequence number of its first byte.
    pub left_edge: u32,
    /// The sequence number of the byte after its last one.
    pub right_edge: u32,
}

/// An option of a TCP header, or why the bytes are none. The fields of other kinds are 0.
#[repr(C)]
#[derive(Drop)]
pub struct EpTcpOption {
    /// Of kind 5: the blocks, of which `block_count` are there.
    pub blocks: [EpTcpBlock; 4],
    /// Of fault 1: how many bytes are left.
    pub there: usize,
    /// Of kind 8: the sender's clock.
    pub timestamp: u32,
    /// Of kind 8: the clock value that it replies to.
    pub echoed_timestamp: u32,
    /// 0 none; 1 fewer bytes are left than the option needs; 2 its length byte isn't one that its
    /// kind has; 3 the kind is unknown. After a fault nothing is read.
    pub fault: u32,
    /// Of kind 5: how many blocks there are, 1 to 4.
    pub block_count: u32,
    /// Of kind 2: the greatest segment that the sender takes.
    pub maximum_segment_size: u16,
    /// The kind of the option: 0 none, since the list has ended; 1 no operation, 2 maximum segment
    /// size, 3 window scale, 4 selective acknowledgements are permitted, 5 a selective
    /// acknowledgement, 8 timestamps. Of a fault any but 0.
    pub kind: u8,
    /// Of kind 3: by how many bits window sizes are shifted.
    pub window_scale: u8,
    /// Of fault 1: how many bytes it needs.
    pub needed: u8,
    /// Of fault 2: its length byte.
    pub stated_len: u8,
}

/// Takes the next option from those that are left in a part of the bytes.
#[tactic(auto, using(crate::proofs::OptionLemmas::taken_from, crate::proofs::OptionLemmas::option_is_first))]
pub fn next_tcp_option(bytes: &[u8], left: &mut EpPart) -> EpTcpOption
    ensures exact { result ≡ option_struct_in (item_at (part_bytes bytes.now left.old)) }
    ensures left { left.new ≡ part_after (length (part_bytes bytes.now left.old)
        - length (rest_at (part_bytes bytes.now left.old))) left.old }
    ensures rest { part_bytes bytes.now left.new ≡ rest_at (part_bytes bytes.now left.old) }
    ensures steps { YieldsFirst (options_left bytes.now) left.old (some_option result) left.new }
{
    take_option(bytes, left)
}

// The same, by the iterator over the bytes.
fn take_option(bytes: &[u8], left: &mut EpPart) -> EpTcpOption
    ensures exact { result ≡ option_struct_in (item_at (part_bytes bytes.now left.old)) }
    ensures left { left.new ≡ part_after (length (part_bytes bytes.now left.old)
        - length (rest_at (part_bytes bytes.now left.old))) left.old }
    ensures steps { YieldsFirst items_of (part_bytes bytes.now left.old)
        (item_at (part_bytes bytes.now left.old)) (rest_at (part_bytes bytes.now left.old)) }
{
    let (item, taken) = first_option(left.bytes_in(bytes));
    left.take_first(taken);
    option_struct_in(item)
}

// The first of the options, and how many bytes it takes.
#[tactic(auto, using(crate::proofs::OptionLemmas::rest_most))]
fn first_option(options: &[u8]) -> (Option<Result<TcpOptionElement, TcpOptionReadError>>, usize)
    ensures item { result.0 ≡ item_at options.now }
    ensures taken { result.1 ≡ length options.now - length (rest_at options.now) }
    ensures most { result.1 ≤ length options.now }
    ensures steps { YieldsFirst items_of options.now (item_at options.now) (rest_at options.now) }
{
    let mut iterator = TcpOptionsIterator::from_slice(options);
    let item = iterator.next();
    (item, options.len() - iterator.rest().len())
}

fn option_struct_in(item: Option<Result<TcpOptionElement, TcpOptionReadError>>) -> EpTcpOption
    ensures { result ≡ option_struct_in item }
{
    match item {
        Some(item) => option_struct(item),
        None => no_tcp_option(),
    }
}

fn no_tcp_option() -> EpTcpOption
    ensures { result ≡ no_tcp_option }
{
    EpTcpOption {
        blocks: [
            block_struct(None),
            block_struct(None),
            block_struct(None),
            block_struct(None),
        ],
        there: 0,
        timestamp: 0,
        echoed_timestamp: 0,
        fault: 0,
        block_count: 0,
        maximum_segment_size: 0,
        kind: 0,
        window_scale: 0,
        needed: 0,
        stated_len: 0,
    }
}

fn option_struct(item: Result<TcpOptionElement, TcpOptionReadError>) -> EpTcpOption
    ensures { result ≡ option_struct item }
{
    match item {
        Ok(element) => element_struct(element),
        Err(fault) => fault_struct(fault),
    }
}

fn element_struct(element: TcpOptionElement) -> EpTcpOption
    ensures { result ≡ element_struct element }
{
    match element {
        TcpOptionElement::Noop => EpTcpOption {
            kind: 1,
            ..no_tcp_option()
        },
        TcpOptionElement::MaximumSegmentSize(maximum_segment_size) => EpTcpOption {
            kind: 2,
            maximum_segment_size,
            ..no_tcp_option()
        },
        TcpOptionElement::WindowScale(window_scale) => EpTcpOption {
            kind: 3,
            window_scale,
            ..no_tcp_option()
        },
        TcpOptionElement::SelectiveAcknowledgementPermitted => EpTcpOption {
            kind: 4,
            ..no_tcp_option()
        },
        TcpOptionElement::SelectiveAcknowledgement(first, rest) => acknowledgement(first, rest),
        TcpOptionElement::Timestamp(timestamp, echoed_timestamp) => EpTcpOption {
            kind: 8,
            timestamp,
            echoed_timestamp,
            ..no_tcp_option()
        },
    }
}

fn acknowledgement(first: (u32, u32), rest: [Option<(u32, u32)>; 3]) -> EpTcpOption
    ensures { result ≡ record no_tcp_option {
      kind = 5;
      block_count = blocks_there (Some first ∷ rest);
      blocks = map block_struct (Some first ∷ rest);
    } }
{
    let [second, third, fourth] = rest;
    EpTcpOption {
        kind: 5,
        block_count: 1 + is_there(second) + is_there(third) + is_there(fourth),
        blocks: [
            block_struct(Some(first)),
            block_struct(second),
            block_struct(third),
            block_struct(fourth),
        ],
        ..no_tcp_option()
    }
}

fn is_there(block: Option<(u32, u32)>) -> u32
    ensures value { result ≡ blocks_there (block ∷ []) }
    ensures most { result ≤ 1 }
{
    match block {
        Some(_) => 1,
        None => 0,
    }
}

fn block_struct(block: Option<(u32, u32)>) -> EpTcpBlock
    ensures { result ≡ block_struct block }
{
    match block {
        Some((left_edge, right_edge)) => EpTcpBlock {
            left_edge,
            right_edge,
        },
        None => EpTcpBlock {
            left_edge: 0,
            right_edge: 0,
        },
    }
}

fn fault_struct(fault: TcpOptionReadError) -> EpTcpOption
    ensures { result ≡ fault_struct fault }
{
    match fault {
        TcpOptionReadError::UnexpectedEndOfSlice {
            option_id,
            expected_len,
            actual_len,
        } => EpTcpOption {
            kind: option_id,
            fault: 1,
            needed: expected_len,
            there: actual_len,
            ..no_tcp_option()
        },
        TcpOptionReadError::UnexpectedSize { option_id, size } => EpTcpOption {
            kind: option_id,
            fault: 2,
            stated_len: size,
            ..no_tcp_option()
        },
        TcpOptionReadError::UnknownId(kind) => EpTcpOption {
            kind,
            fault: 3,
            ..no_tcp_option()
        },
    }
}
