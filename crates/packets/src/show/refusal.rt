//! Why a packet or a fragment is refused, in words.

use ep_packet::err::packet::SliceError;
use etherparse::defrag::IpDefragError;
use header_descriptions::show::{Line, Tone, faults};
use std::alloc::AllocError;

/// Why a packet is refused. It has no contract: tests compare the texts.
pub(crate) fn packet(line: &mut Line<'_>, error: &SliceError) -> Result<(), AllocError> {
    refused(line)?;
    match error {
        SliceError::Len(error) => faults::len(line, error, ""),
        SliceError::LinuxSll(error) => faults::linux_sll(line, error),
        SliceError::Macsec(error) => faults::macsec(line, error),
        SliceError::Ip(error) => faults::ip(line, error),
        SliceError::Ipv4(error) => faults::ipv4(line, error),
        SliceError::Ipv6(error) => faults::ipv6(line, error),
        SliceError::Ipv4Exts(error) => faults::ip_auth(line, error),
        SliceError::Ipv6Exts(error) => faults::ipv6_exts(line, error),
        SliceError::Tcp(error) => faults::tcp(line, error),
    }
}

/// Why a reassembled message is refused. Offsets in it count from its own start. It has no
/// contract: tests compare the texts.
pub(crate) fn message(line: &mut Line<'_>, error: &SliceError) -> Result<(), AllocError> {
    match error {
        SliceError::Len(error) => {
            refused(line)?;
            faults::len(line, error, " of the message")
        }
        _ => packet(line, error),
    }
}

/// Why a fragment is refused. It has no contract: tests compare the texts.
pub(crate) fn fragment(line: &mut Line<'_>, error: &IpDefragError) -> Result<(), AllocError> {
    refused(line)?;
    match error {
        IpDefragError::UnalignedFragmentPayloadLen { payload_len, .. } => {
            line.counted("more follow, and its ", *payload_len as u64)?;
            line.text(" bytes are no multiple of 8")
        }
        IpDefragError::SegmentTooBig { max, .. } => {
            line.counted("ends beyond the ", u64::from(*max))?;
            line.text(" bytes of the longest message")
        }
        IpDefragError::ConflictingEnd {
            previous_end,
            conflicting_end,
        } => {
            line.counted("ends at ", u64::from(*conflicting_end))?;
            line.counted(", its message at ", u64::from(*previous_end))
        }
        IpDefragError::AllocationFailure { len } => {
            line.counted("no memory for ", *len as u64)?;
            line.text(" bytes")
        }
        IpDefragError::OverlappingFragment { .. } => {
            line.text("overlaps another, its message is dropped")
        }
    }
}

fn refused(line: &mut Line<'_>) -> Result<(), AllocError> {
    line.toned(Tone::Bad, "refused:")?;
    line.text(" ")
}
