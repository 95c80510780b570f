//! TCP segments (RFC 9293).
ghost use Rattle.std.specs.Prelude.{◌≡◌};
ghost use Rattle.header_descriptions.specs.RelativeNumbers.{relative};

use crate::show::ip::after_sized;
use crate::show::line::Line;
use arrayvec::ArrayVec;
use ep_tcpudp::{TcpOptionElement, TcpOptionReadError, TcpOptions, TcpOptionsIterator, TcpSlice};
use std::alloc::AllocError;

/// The initial sequence numbers (RFC 9293, section 3.4) that the numbers of a segment are counted from,
/// modulo 2^32.
#[derive(Clone, Copy, Debug, PartialEq, Eq)]
pub struct InitialNumbers {
    /// That of its sequence number.
    pub sequence: u32,
    /// That of its acknowledgment number, and of what it acknowledges selectively.
    pub acknowledgment: u32,
}

impl InitialNumbers {
    /// With these the numbers are those of the segment.
    pub const NONE: InitialNumbers = InitialNumbers {
        sequence: 0,
        acknowledgment: 0,
    };
}

/// Flags, numbers counted from these initial ones, window and options of a segment whose payload has so
/// many bytes. It has no contract: tests compare the texts.
pub fn segment(
    line: &mut Line<'_>,
    segment: &TcpSlice<'_>,
    payload_len: usize,
    initial_numbers: InitialNumbers,
) -> Result<(), AllocError> {
    line.text(" ")?;
    flags(line, segment)?;
    let sequence = relative(segment.sequence_number(), initial_numbers.sequence);
    line.counted(" seq ", sequence.into())?;
    if segment.ack() {
        let acknowledgment = relative(
            segment.acknowledgment_number(),
            initial_numbers.acknowledgment,
        );
        line.counted(" ack ", acknowledgment.into())?;
    }
    line.counted(" win ", segment.window_size().into())?;
    if segment.urg() {
        line.counted(" urg ", segment.urgent_pointer().into())?;
    }
    line.counted(" len ", payload_len as u64)?;
    options(line, segment, initial_numbers.acknowledgment)
}

// A letter for each flag that is set, and a dot for ack.
fn flags(line: &mut Line<'_>, segment: &TcpSlice<'_>) -> Result<(), AllocError> {
    let letters = [
        (segment.fin(), b'F'),
        (segment.syn(), b'S'),
        (segment.rst(), b'R'),
        (segment.psh(), b'P'),
        (segment.ack(), b'.'),
        (segment.urg(), b'U'),
        (segment.ece(), b'E'),
        (segment.cwr(), b'W'),
        (segment.ns(), b'N'),
    ];
    let mut text = ArrayVec::<u8, 16>::new();
    let _ = text.try_push(b'[');
    for (is_set, letter) in letters {
        if is_set {
            let _ = text.try_push(letter);
        }
    }
    let _ = text.try_push(b']');
    line.bytes(text.as_slice())
}

// The options in their order. One that is unknown is passed over by its length; the first other one
// that can't be read ends them. What is acknowledged is counted from this number on.
fn options(
    line: &mut Line<'_>,
    segment: &TcpSlice<'_>,
    acknowledged: u32,
) -> Result<(), AllocError> {
    let mut left = segment.options();
    let mut before = " options [";
    // Each has a byte at least.
    'options: for _ in 0..TcpOptions::MAX_LEN {
        let Some(rest) = option_at(line, before, left, acknowledged)? else {
            break 'options;
        };
        left = rest;
        before = ",";
    }
    if before == "," {
        line.text("]")
    } else {
        Ok(())
    }
}

// The first of these options, after this text, or why it can't be read. It returns those that follow,
// and `None` at the end.
fn option_at<'a>(
    line: &mut Line<'_>,
    before: &str,
    bytes: &'a [u8],
    acknowledged: u32,
) -> Result<Option<&'a [u8]>, AllocError> {
    let mut elements = TcpOptionsIterator::from_slice(bytes);
    let Some(element) = elements.next() else {
        return Ok(None);
    };
    line.text(before)?;
    match &element {
        Ok(element) => {
            option(line, element, acknowledged)?;
            Ok(Some(elements.rest()))
        }
        Err(TcpOptionReadError::UnknownId(id)) => {
            line.counted("option ", u64::from(*id))?;
            Ok(Some(after_sized(line, bytes)?))
        }
        Err(error) => {
            unread(line, error)?;
            Ok(Some(&[]))
        }
    }
}

fn option(
    line: &mut Line<'_>,
    element: &TcpOptionElement,
    acknowledged: u32,
) -> Result<(), AllocError> {
    match element {
        TcpOptionElement::Noop => line.text("nop"),
        TcpOptionElement::MaximumSegmentSize(size) => line.counted("mss ", u64::from(*size)),
        TcpOptionElement::WindowScale(shift) => line.counted("wscale ", u64::from(*shift)),
        TcpOptionElement::SelectiveAcknowledgementPermitted => line.text("sack ok"),
        TcpOptionElement::SelectiveAcknowledgement(first, rest) => {
            line.text("sack")?;
            block(line, *first, acknowledged)?;
            for other in rest {
                if let Some(other) = other {
                    block(line, *other, acknowledged)?;
                }
            }
            Ok(())
        }
        TcpOptionElement::Timestamp(value, reply) => {
            line.counted("ts ", u64::from(*value))?;
            line.counted(" ecr ", u64::from(*reply))
        }
    }
}

fn block(line: &mut Line<'_>, block: (u32, u32), acknowledged: u32) -> Result<(), AllocError> {
    line.counted(" ", relative(block.0, acknowledged).into())?;
    line.counted("-", relative(block.1, acknowledged).into())
}

// How far a number is from the initial one, modulo 2^32.
fn relative(number: u32, initial: u32) -> u32
    ensures { result ≡ relative number initial }
{
    number.wrapping_sub(initial)
}

fn unread(line: &mut Line<'_>, error: &TcpOptionReadError) -> Result<(), AllocError> {
    match error {
        TcpOptionReadError::UnexpectedEndOfSlice { option_id, .. } => {
            line.counted("option ", u64::from(*option_id))?;
            line.text(" cut off")
        }
        TcpOptionReadError::UnexpectedSize { option_id, size } => {
            line.counted("option ", u64::from(*option_id))?;
            line.counted(" of length ", u64::from(*size))
        }
        TcpOptionReadError::UnknownId(id) => line.counted("option ", u64::from(*id)),
    }
}
