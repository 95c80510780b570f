//! Why fragments are refused, in plain numbers, for use in tables.

use crate::defrag::fragments::offset;
use etherparse::defrag::IpDefragError;
use std::process::Abort;

/// Why a fragment is refused; offsets are in units of 8 bytes.
#[derive(Clone, Copy)]
pub enum Refusal {
    /// Its offset and its length.
    Unaligned(u16, usize),
    /// Its offset, its length, and the greatest length of a datagram's payload.
    TooBig(u16, usize, u16),
    /// The end that is known, and its own one.
    Conflict(u16, u16),
    /// Its end.
    NoMemory(usize),
    /// Its offset and its length.
    Overlap(u16, usize),
}

/// The refusal as the library's error. It has no contract, as tests alone call it.
pub fn error_of(rt: impl Abort + Copy, refusal: Refusal) -> IpDefragError {
    match refusal {
        Refusal::Unaligned(units, payload_len) => IpDefragError::UnalignedFragmentPayloadLen {
            offset: offset(rt, units),
            payload_len,
        },
        Refusal::TooBig(units, payload_len, max) => IpDefragError::SegmentTooBig {
            offset: offset(rt, units),
            payload_len,
            max,
        },
        Refusal::Conflict(previous_end, conflicting_end) => IpDefragError::ConflictingEnd {
            previous_end,
            conflicting_end,
        },
        Refusal::NoMemory(len) => IpDefragError::AllocationFailure { len },
        Refusal::Overlap(units, payload_len) => IpDefragError::OverlappingFragment {
            offset: offset(rt, units),
            payload_len,
        },
    }
}
