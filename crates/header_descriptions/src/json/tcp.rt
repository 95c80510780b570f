//! TCP segments (RFC 9293), with their options.

use crate::json::fields::{Hex, begin, flags, number, numbers, printed};
use ep_tcpudp::{TcpOptionElement, TcpOptionReadError, TcpOptions, TcpOptionsIterator, TcpSlice};
use serde::Serializer;

/// The header of a segment. It has no contract: tests compare the texts.
pub fn tcp<S: Serializer>(out: &mut S, segment: &TcpSlice<'_>) -> Result<(), S::Error> {
    begin(out, "Tcp")?;
    let leading = [
        ("source_port", segment.source_port().into()),
        ("destination_port", segment.destination_port().into()),
        ("sequence_number", segment.sequence_number().into()),
        (
            "acknowledgment_number",
            segment.acknowledgment_number().into(),
        ),
        ("data_offset", segment.data_offset().into()),
    ];
    numbers(out, &leading)?;
    control_bits(out, segment)?;
    let rest = [
        ("window_size", segment.window_size().into()),
        ("checksum", segment.checksum().into()),
        ("urgent_pointer", segment.urgent_pointer().into()),
    ];
    numbers(out, &rest)?;
    options(out, segment)?;
    out.end_map()
}

fn control_bits<S: Serializer>(out: &mut S, segment: &TcpSlice<'_>) -> Result<(), S::Error> {
    let members = [
        ("ns", segment.ns()),
        ("fin", segment.fin()),
        ("syn", segment.syn()),
        ("rst", segment.rst()),
        ("psh", segment.psh()),
        ("ack", segment.ack()),
        ("urg", segment.urg()),
        ("ece", segment.ece()),
        ("cwr", segment.cwr()),
    ];
    flags(out, &members)
}

// The options in their order, and their bytes, if there are any. One that is unknown is passed over by
// its length; the first other one that can't be read ends them.
fn options<S: Serializer>(out: &mut S, segment: &TcpSlice<'_>) -> Result<(), S::Error> {
    let bytes = segment.options();
    out.key("options")?;
    out.begin_seq(None)?;
    let mut left = bytes;
    // Each has a byte at least.
    'options: for _ in 0..TcpOptions::MAX_LEN {
        let Some(rest) = option_at(out, left)? else {
            break 'options;
        };
        left = rest;
    }
    out.end_seq()?;
    if bytes.is_empty() {
        return Ok(());
    }
    printed(out, "options_bytes", &Hex(bytes))
}

// The first of these options, or why it can't be read. It returns those that follow, and `None` at the
// end.
fn option_at<'a, S: Serializer>(
    out: &mut S,
    bytes: &'a [u8],
) -> Result<Option<&'a [u8]>, S::Error> {
    let mut elements = TcpOptionsIterator::from_slice(bytes);
    match elements.next() {
        Some(Ok(element)) => {
            option(out, &element)?;
            Ok(Some(elements.rest()))
        }
        Some(Err(error)) => {
            unread(out, &error)?;
            Ok(after_unknown(&error, bytes))
        }
        None => Ok(None),
    }
}

// What follows an unknown option by its length, which is its second byte.
fn after_unknown<'a>(error: &TcpOptionReadError, bytes: &'a [u8]) -> Option<&'a [u8]> {
    match (error, bytes.get(1).copied()) {
        (TcpOptionReadError::UnknownId(_), Some(len)) if len >= 2 => bytes.get(usize::from(len)..),
        _ => None,
    }
}

fn option<S: Serializer>(out: &mut S, element: &TcpOptionElement) -> Result<(), S::Error> {
    match element {
        TcpOptionElement::Noop => out.str("Noop"),
        TcpOptionElement::SelectiveAcknowledgementPermitted => {
            out.str("SelectiveAcknowledgementPermitted")
        }
        TcpOptionElement::MaximumSegmentSize(size) => {
            only_number(out, "MaximumSegmentSize", u64::from(*size))
        }
        TcpOptionElement::WindowScale(shift) => only_number(out, "WindowScale", u64::from(*shift)),
        TcpOptionElement::SelectiveAcknowledgement(first, rest) => blocks(out, *first, rest),
        TcpOptionElement::Timestamp(value, reply) => timestamp(out, *value, *reply),
    }
}

// An object whose one member is a number.
fn only_number<S: Serializer>(out: &mut S, name: &str, n: u64) -> Result<(), S::Error> {
    out.begin_map(None)?;
    number(out, name, n)?;
    out.end_map()
}

fn blocks<S: Serializer>(
    out: &mut S,
    first: (u32, u32),
    rest: &[Option<(u32, u32)>; 3],
) -> Result<(), S::Error> {
    out.begin_map(None)?;
    out.key("SelectiveAcknowledgement")?;
    out.begin_seq(None)?;
    pair(out, first.0, first.1)?;
    for block in rest {
        if let Some(block) = block {
            pair(out, block.0, block.1)?;
        }
    }
    out.end_seq()?;
    out.end_map()
}

fn timestamp<S: Serializer>(out: &mut S, value: u32, reply: u32) -> Result<(), S::Error> {
    out.begin_map(None)?;
    out.key("Timestamp")?;
    pair(out, value, reply)?;
    out.end_map()
}

fn pair<S: Serializer>(out: &mut S, first: u32, second: u32) -> Result<(), S::Error> {
    out.begin_seq(None)?;
    out.u64(first.into())?;
    out.u64(second.into())?;
    out.end_seq()
}

fn unread<S: Serializer>(out: &mut S, error: &TcpOptionReadError) -> Result<(), S::Error> {
    match error {
        TcpOptionReadError::UnexpectedEndOfSlice {
            option_id,
            expected_len,
            actual_len,
        } => {
            let members = [
                ("option_id", u64::from(*option_id)),
                ("expected_len", u64::from(*expected_len)),
                ("actual_len", *actual_len as u64),
            ];
            only_object(out, "UnexpectedEndOfSlice", &members)
        }
        TcpOptionReadError::UnexpectedSize { option_id, size } => {
            let members = [
                ("option_id", u64::from(*option_id)),
                ("size", u64::from(*size)),
            ];
            only_object(out, "UnexpectedSize", &members)
        }
        TcpOptionReadError::UnknownId(id) => only_number(out, "UnknownId", u64::from(*id)),
    }
}

// An object whose one member is an object of numbers.
fn only_object<S: Serializer>(
    out: &mut S,
    name: &str,
    members: &[(&str, u64)],
) -> Result<(), S::Error> {
    out.begin_map(None)?;
    begin(out, name)?;
    numbers(out, members)?;
    out.end_map()?;
    out.end_map()
}
