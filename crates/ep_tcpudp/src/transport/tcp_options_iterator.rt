//! The options of a TCP header, one after the other.

ghost use Rattle.std.specs.Prelude.{◌≡◌, ◌≢◌, ⊤, ◌+◌, ◌<◌, ◌≤◌, ℕ, List, length, nat_eq, OnOk};
ghost use Rattle.std.specs.Cmp.Lexicographic.{pointwise};
ghost use Rattle.std.specs.Cmp.Rules.{comparing};
ghost use Rattle.std.specs.Iterator.{YieldsFirst, item_count, MakesProgress};
ghost use Rattle.std.proofs.Common.{rules};
ghost use Rattle.ep_tcpudp.specs.Options.{acknowledgement_at, block_at, block_within, element_at, is_end, item_at};
ghost use Rattle.ep_tcpudp.specs.Options.{items_of, kind_at, of_size, rest_at, size_at};

use crate::tcp_option::{
    KIND_END, KIND_MAXIMUM_SEGMENT_SIZE, KIND_NOOP, KIND_SELECTIVE_ACK,
    KIND_SELECTIVE_ACK_PERMITTED, KIND_TIMESTAMP, KIND_WINDOW_SCALE, LEN_MAXIMUM_SEGMENT_SIZE,
    LEN_SELECTIVE_ACK_PERMITTED, LEN_TIMESTAMP, LEN_WINDOW_SCALE,
};
use crate::{TcpOptionElement, TcpOptionReadError};
use std::marker::Model;

/// The elements that the bytes of TCP options encode, one after the other (RFC 9293, section 3.2).
///
/// It ends with the bytes, at the option that ends the list, or after the first fault, which is
/// returned as the last item; [`crate::laws::tcp::items_are_elements`] states it by the table of
/// options. A contract sees it as the bytes that are left, and by these it is equal to another.
#[derive(Clone, Debug, Drop)]
pub struct TcpOptionsIterator<'a> {
    options: &'a [u8],
}

impl<'a> Model for TcpOptionsIterator<'a> {
    ghost Value = { List ℕ };

    ghost view = { λ iterator. iterator.options.now };
}

impl<'a> TcpOptionsIterator<'a> {
    /// The options that these bytes encode.
    pub fn from_slice(options: &'a [u8]) -> TcpOptionsIterator<'a>
        ensures { result ≡ options.now }
    {
        TcpOptionsIterator { options }
    }

    /// The bytes that are left: none after the end of the list or a fault.
    pub fn rest(&self) -> &'a [u8]
        ensures { result.now ≡ self.now }
    {
        self.options
    }
}

impl<'a> Iterator for TcpOptionsIterator<'a> {
    type Item = Result<TcpOptionElement, TcpOptionReadError>;

    ghost next_gives = { YieldsFirst items_of };

    ghost remaining = { item_count items_of };

    fn next(&mut self) -> Option<Self::Item>
        ensures steps { YieldsFirst items_of self.old result self.new }
        ensures goes { MakesProgress (λ _. ⊤) (item_count items_of) self.old result self.new }
        // It is the element or the fault at the start of what is left, or none at the end.
        ensures item { result ≡ item_at self.old }
        ensures rest { self.new ≡ rest_at self.old }
    {
        let options = self.options;
        if is_end(options) {
            self.options = &options[options.len()..];
            return None;
        }
        match element_at(options) {
            Ok(element) => {
                self.options = &options[size_at(options)..];
                Some(Ok(element))
            }
            Err(error) => {
                self.options = &options[options.len()..];
                Some(Err(error))
            }
        }
    }
}

impl<'a> PartialEq for TcpOptionsIterator<'a> {
    ghost eq = { pointwise nat_eq };

    ghost laws = { Prim.search (comparing, rules) };

    fn eq(&self, other: &Self) -> bool {
        self.options == other.options
    }
}

impl<'a> Eq for TcpOptionsIterator<'a> {
    ghost laws = { Prim.search (comparing, rules) };
}

fn is_end(options: &[u8]) -> bool
    ensures { result ≡ is_end options.now }
{
    options.is_empty() || options[0] == KIND_END
}

// The size in bytes of the option at the start.
fn size_at(options: &[u8]) -> usize
    requires some { 0 < length options.now }
    requires second { kind_at options.now ≢ 1 → 2 ≤ length options.now }
    ensures { result ≡ size_at options.now }
{
    if options[0] == KIND_NOOP {
        1
    } else {
        usize::from(options[1])
    }
}

// The element at the start of the bytes, which are some, or its fault.
fn element_at(options: &[u8]) -> Result<TcpOptionElement, TcpOptionReadError>
    requires { 0 < length options.now }
    ensures exact { result ≡ element_at options.now }
    // Where it is an element, its size is among the bytes, and they are as many.
    ensures second { OnOk result (kind_at options.now ≢ 1 → 2 ≤ length options.now) }
    ensures fits { OnOk result ((0 < size_at options.now)
        × (size_at options.now ≤ length options.now)) }
{
    match options[0] {
        KIND_NOOP => Ok(TcpOptionElement::Noop),
        KIND_MAXIMUM_SEGMENT_SIZE => {
            of_size(options, LEN_MAXIMUM_SEGMENT_SIZE)?;
            let size = u16::from_be_bytes([options[2], options[3]]);
            Ok(TcpOptionElement::MaximumSegmentSize(size))
        }
        KIND_WINDOW_SCALE => {
            of_size(options, LEN_WINDOW_SCALE)?;
            Ok(TcpOptionElement::WindowScale(options[2]))
        }
        KIND_SELECTIVE_ACK_PERMITTED => {
            of_size(options, LEN_SELECTIVE_ACK_PERMITTED)?;
            Ok(TcpOptionElement::SelectiveAcknowledgementPermitted)
        }
        KIND_SELECTIVE_ACK => acknowledgement_at(options),
        KIND_TIMESTAMP => {
            of_size(options, LEN_TIMESTAMP)?;
            let (value, reply) = block_at(options, 2);
            Ok(TcpOptionElement::Timestamp(value, reply))
        }
        kind => Err(TcpOptionReadError::UnknownId(kind)),
    }
}

// Tests an option of a kind that has one size.
fn of_size(options: &[u8], size: u8) -> Result<(), TcpOptionReadError>
    requires some { 0 < length options.now }
    requires two { 2 ≤ size }
    ensures exact { result ≡ of_size size options.now tt }
    ensures room { OnOk result (size ≤ length options.now) }
{
    if options.len() < usize::from(size) {
        return Err(TcpOptionReadError::UnexpectedEndOfSlice {
            option_id: options[0],
            expected_len: size,
            actual_len: options.len(),
        });
    }
    if options[1] != size {
        return Err(TcpOptionReadError::UnexpectedSize {
            option_id: options[0],
            size: options[1],
        });
    }
    Ok(())
}

// The selective acknowledgement at the start of the bytes, or its fault. It isn't inlined: else the
// loop over options would wait for a fault's length, which is stored in several parts and loaded at
// once.
#[inline(never)]
fn acknowledgement_at(options: &[u8]) -> Result<TcpOptionElement, TcpOptionReadError>
    requires { 0 < length options.now }
    ensures { result ≡ acknowledgement_at options.now }
{
    if options.len() < 2 {
        return Err(TcpOptionReadError::UnexpectedEndOfSlice {
            option_id: options[0],
            expected_len: 2,
            actual_len: options.len(),
        });
    }
    let size = options[1];
    if size != 10 && size != 18 && size != 26 && size != 34 {
        return Err(TcpOptionReadError::UnexpectedSize {
            option_id: options[0],
            size,
        });
    }
    if options.len() < usize::from(size) {
        return Err(TcpOptionReadError::UnexpectedEndOfSlice {
            option_id: options[0],
            expected_len: size,
            actual_len: options.len(),
        });
    }
    let rest = [
        block_within(options, size, 10),
        block_within(options, size, 18),
        block_within(options, size, 26),
    ];
    let first = block_at(options, 2);
    Ok(TcpOptionElement::SelectiveAcknowledgement(first, rest))
}

// The block of 8 bytes at this offset.
fn block_at(options: &[u8], offset: usize) -> (u32, u32)
    requires { offset + 8 ≤ length options.now }
    ensures { result ≡ block_at options.now offset }
{
    (
        u32::from_be_bytes([
            options[offset],
            options[offset + 1],
            options[offset + 2],
            options[offset + 3],
        ]),
        u32::from_be_bytes([
            options[offset + 4],
            options[offset + 5],
            options[offset + 6],
            options[offset + 7],
        ]),
    )
}

// The block at this offset, if an option of so many bytes reaches there.
fn block_within(options: &[u8], size: u8, offset: usize) -> Option<(u32, u32)>
    requires { offset < size → offset + 8 ≤ length options.now }
    ensures { result ≡ block_within size options.now offset }
{
    if offset < usize::from(size) {
        Some(block_at(options, offset))
    } else {
        None
    }
}
