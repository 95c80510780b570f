//! Why a fragment isn't taken.

use ep_base::IpFragOffset;
use thiserror::Error;

/// Why a fragment isn't taken.
#[derive(Clone, Copy, Debug, PartialEq, Eq, Hash, PartialOrd, Ord, Error)]
pub enum IpDefragError {
    /// More fragments follow, and the payload's length is no multiple of 8.
    #[error("Payload length {payload_len} of IP fragment (offset {offset}) is not a multiple of 8. This is only allowed for the last fragment packet.")]
    UnalignedFragmentPayloadLen {
        /// Where the fragment starts, in units of 8 bytes.
        offset: IpFragOffset,
        /// The number of its bytes.
        payload_len: usize,
    },
    /// The fragment ends after the greatest length of a datagram's payload.
    #[error("Overall length of IP fragment (offset {offset}, payload len: {payload_len}) bigger then the maximum allowed size of {max}.")]
    SegmentTooBig {
        /// Where the fragment starts, in units of 8 bytes.
        offset: IpFragOffset,
        /// The number of its bytes.
        payload_len: usize,
        /// The greatest length of a datagram's payload, in bytes.
        max: u16,
    },
    /// The fragment ends after the end of the datagram, or it is a last one and has another end.
    #[error("Received a IP fragment (offset + len: {conflicting_end}) which conflicts a package that previously set the end to {previous_end}.")]
    ConflictingEnd {
        /// The end of the datagram, in bytes, as an earlier last fragment named it.
        previous_end: u16,
        /// The end of this fragment, in bytes.
        conflicting_end: u16,
    },
    /// No memory was left for the fragment.
    #[error("Failed to allocate {len} bytes of memory to reconstruct the fragmented IP packets.")]
    AllocationFailure {
        /// The end of the fragment, in bytes.
        len: usize,
    },
    /// The fragment covers an offset that another fragment of its datagram covers, or it is a last
    /// one and another one reaches past its end, where overlaps are refused: over IPv6 (RFC 5722;
    /// RFC 8200, section 4.5). The datagram is dropped.
    #[error("IP fragment (offset {offset}, payload len: {payload_len}) overlaps an earlier one. The fragments of its message are dropped.")]
    OverlappingFragment {
        /// Where the fragment starts, in units of 8 bytes.
        offset: IpFragOffset,
        /// The number of its bytes.
        payload_len: usize,
    },
}
