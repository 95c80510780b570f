//! One option of a TCP header.

ghost use Rattle.std.specs.Prelude.{◌≡◌, ◌+◌, ◌≤◌, [], ◌∷◌, ◌++◌, length};
ghost use Rattle.ep_tcpudp.specs.Options.{blocks_bytes, element_bytes};

use crate::tcp_option::{
    KIND_MAXIMUM_SEGMENT_SIZE, KIND_NOOP, KIND_SELECTIVE_ACK, KIND_SELECTIVE_ACK_PERMITTED,
    KIND_TIMESTAMP, KIND_WINDOW_SCALE, LEN_MAXIMUM_SEGMENT_SIZE, LEN_SELECTIVE_ACK_PERMITTED,
    LEN_TIMESTAMP, LEN_WINDOW_SCALE,
};
use arrayvec::ArrayVec;

/// An option of a TCP header, without the end of the list.
#[derive(Clone, Copy, Debug, PartialEq, Eq)]
pub enum TcpOptionElement {
    /// No operation: padding between options (RFC 9293, section 3.2).
    Noop,
    /// The greatest segment that the sender takes (RFC 9293, section 3.2).
    MaximumSegmentSize(u16),
    /// By how many bits window sizes are shifted (RFC 7323, section 2.2).
    WindowScale(u8),
    /// Selective acknowledgements are understood (RFC 2018, section 2).
    SelectiveAcknowledgementPermitted,
    /// Blocks of bytes that arrived after a gap, each by the number of its first byte and of the
    /// byte after its last one: the first, and up to three more (RFC 2018, section 3). Parsed
    /// blocks that are `Some` come first.
    SelectiveAcknowledgement((u32, u32), [Option<(u32, u32)>; 3]),
    /// The sender's clock, and the clock value that it replies to (RFC 7323, section 3.2).
    Timestamp(u32, u32),
}

impl TcpOptionElement {
    // The number of bytes that encode it.
    pub(crate) fn len(&self) -> usize
        ensures value { result ≡ length (element_bytes self.now) }
        ensures small { result ≤ 34 }
    {
        match self {
            TcpOptionElement::Noop => 1,
            TcpOptionElement::MaximumSegmentSize(_) => 4,
            TcpOptionElement::WindowScale(_) => 3,
            TcpOptionElement::SelectiveAcknowledgementPermitted => 2,
            TcpOptionElement::SelectiveAcknowledgement(_, rest) => 10 + blocks_len(rest),
            TcpOptionElement::Timestamp(_, _) => 10,
        }
    }

    // Appends the bytes that encode it, for which there is space.
    pub(crate) fn write_to(&self, bytes: &mut ArrayVec<u8, 40>)
        requires { length bytes.old.items + length (element_bytes self.now) ≤ 40 }
        ensures { bytes.new.items ≡ bytes.old.items ++ element_bytes self.now }
    {
        match *self {
            TcpOptionElement::Noop => append(bytes, &[KIND_NOOP]),
            TcpOptionElement::MaximumSegmentSize(size) => {
                append(
                    bytes,
                    &[KIND_MAXIMUM_SEGMENT_SIZE, LEN_MAXIMUM_SEGMENT_SIZE],
                );
                append(bytes, &size.to_be_bytes());
            }
            TcpOptionElement::WindowScale(shift) => {
                append(bytes, &[KIND_WINDOW_SCALE, LEN_WINDOW_SCALE, shift]);
            }
            TcpOptionElement::SelectiveAcknowledgementPermitted => {
                append(
                    bytes,
                    &[KIND_SELECTIVE_ACK_PERMITTED, LEN_SELECTIVE_ACK_PERMITTED],
                );
            }
            TcpOptionElement::SelectiveAcknowledgement(first, rest) => {
                append(bytes, &[KIND_SELECTIVE_ACK, 10 + blocks_len(&rest) as u8]);
                append_block(bytes, Some(first));
                append_blocks(bytes, rest);
            }
            TcpOptionElement::Timestamp(value, reply) => {
                append(bytes, &[KIND_TIMESTAMP, LEN_TIMESTAMP]);
                append_block(bytes, Some((value, reply)));
            }
        }
    }
}

// The number of bytes of the blocks that are there.
fn blocks_len(blocks: &[Option<(u32, u32)>; 3]) -> usize
    ensures value { result ≡ length (blocks_bytes blocks.now) }
    ensures small { result ≤ 24 }
{
    let [a, b, c] = blocks;
    block_len(a) + block_len(b) + block_len(c)
}

fn block_len(block: &Option<(u32, u32)>) -> usize
    ensures value { result ≡ length (blocks_bytes (block.now ∷ [])) }
    ensures small { result ≤ 8 }
{
    match block {
        Some(_) => 8,
        None => 0,
    }
}

fn append(bytes: &mut ArrayVec<u8, 40>, more: &[u8])
    requires { length bytes.old.items + length more.now ≤ 40 }
    ensures { bytes.new.items ≡ bytes.old.items ++ more.now }
{
    bytes.try_extend_from_slice(more).unwrap();
}

fn append_block(bytes: &mut ArrayVec<u8, 40>, block: Option<(u32, u32)>)
    requires { length bytes.old.items + length (blocks_bytes (block ∷ [])) ≤ 40 }
    ensures { bytes.new.items ≡ bytes.old.items ++ blocks_bytes (block ∷ []) }
{
    if let Some((left, right)) = block {
        append(bytes, &left.to_be_bytes());
        append(bytes, &right.to_be_bytes());
    }
}

fn append_blocks(bytes: &mut ArrayVec<u8, 40>, blocks: [Option<(u32, u32)>; 3])
    requires { length bytes.old.items + length (blocks_bytes blocks) ≤ 40 }
    ensures { bytes.new.items ≡ bytes.old.items ++ blocks_bytes blocks }
{
    let [a, b, c] = blocks;
    append_block(bytes, a);
    append_block(bytes, b);
    append_block(bytes, c);
}
