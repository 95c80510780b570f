//! Errors as objects: the variant's name, and its fields.

use ep_base::IpFragOffset;
use ep_packet::err::packet::SliceError;
use etherparse::defrag::IpDefragError;
use header_descriptions::json::faults;
use header_descriptions::json::fields::{begin, number};
use serde::Serializer;

/// Why a packet is refused. It has no contract: tests compare the texts.
pub(crate) fn member<S: Serializer>(
    out: &mut S,
    name: &str,
    error: &SliceError,
) -> Result<(), S::Error> {
    begin(out, name)?;
    variant(out, error)?;
    out.end_map()
}

fn variant<S: Serializer>(out: &mut S, error: &SliceError) -> Result<(), S::Error> {
    match error {
        SliceError::Len(error) => faults::len(out, error),
        SliceError::LinuxSll(error) => faults::linux_sll(out, error),
        SliceError::Macsec(error) => faults::macsec(out, error),
        SliceError::Ip(error) => faults::ip(out, error),
        SliceError::Ipv4(error) => faults::ipv4(out, error),
        SliceError::Ipv6(error) => faults::ipv6(out, error),
        SliceError::Ipv4Exts(error) => faults::ipv4_exts(out, error),
        SliceError::Ipv6Exts(error) => faults::ipv6_exts(out, error),
        SliceError::Tcp(error) => faults::tcp(out, error),
    }
}

/// Why a fragment is refused. It has no contract: tests compare the texts.
pub(crate) fn fragment<S: Serializer>(out: &mut S, error: &IpDefragError) -> Result<(), S::Error> {
    begin(out, "error")?;
    begin_variant(out, error)?;
    out.end_map()?;
    out.end_map()
}

fn begin_variant<S: Serializer>(out: &mut S, error: &IpDefragError) -> Result<(), S::Error> {
    match error {
        IpDefragError::UnalignedFragmentPayloadLen {
            offset,
            payload_len,
        } => with_offset(out, "UnalignedFragmentPayloadLen", *offset, *payload_len),
        IpDefragError::SegmentTooBig {
            offset,
            payload_len,
            max,
        } => {
            with_offset(out, "SegmentTooBig", *offset, *payload_len)?;
            number(out, "max", u64::from(*max))
        }
        IpDefragError::ConflictingEnd {
            previous_end,
            conflicting_end,
        } => {
            begin(out, "ConflictingEnd")?;
            number(out, "previous_end", u64::from(*previous_end))?;
            number(out, "conflicting_end", u64::from(*conflicting_end))
        }
        IpDefragError::AllocationFailure { len } => {
            begin(out, "AllocationFailure")?;
            number(out, "len", *len as u64)
        }
        IpDefragError::OverlappingFragment {
            offset,
            payload_len,
        } => with_offset(out, "OverlappingFragment", *offset, *payload_len),
    }
}

// Begins a variant by the offset of the fragment in its datagram, and its length.
fn with_offset<S: Serializer>(
    out: &mut S,
    variant: &str,
    offset: IpFragOffset,
    payload_len: usize,
) -> Result<(), S::Error> {
    begin(out, variant)?;
    number(out, "offset", offset.value().into())?;
    number(out, "payload_len", payload_len as u64)
}
