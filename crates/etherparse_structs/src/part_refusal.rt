//! Why a fragment is refused, as numbers.
ghost use Rattle.std.specs.Prelude.{◌≡◌};
ghost use Rattle.etherparse_structs.specs.PartRefusal.{no_part_refusal, part_refusal_of};

use etherparse::defrag::IpDefragError;

/// Why a fragment is refused. All fields are 0 where it isn't.
#[repr(C)]
#[derive(Drop)]
pub struct EpPartRefusal {
    /// 0 not refused, 1 others follow it and its length is no multiple of 8, 2 it ends beyond 65535
    /// bytes, 3 it ends elsewhere than the datagram, 4 over IPv6 it overlaps another fragment: then
    /// the datagram is dropped with all of its fragments.
    pub kind: u32,
    /// Of kinds 1, 2 and 4: its offset in the datagram, in units of 8 bytes.
    pub offset: u16,
    /// Of kind 3: the end of the datagram, in bytes.
    pub previous_end: u16,
    /// Of kind 3: its own end, in bytes.
    pub end: u16,
    /// Of kinds 1, 2 and 4: its length, in bytes.
    pub len: usize,
}

pub(crate) fn no_part_refusal() -> EpPartRefusal
    ensures { result ≡ no_part_refusal }
{
    EpPartRefusal {
        kind: 0,
        offset: 0,
        previous_end: 0,
        end: 0,
        len: 0,
    }
}

/// The refusal by an error; none where memory ran out.
pub(crate) fn part_refusal_of(error: &IpDefragError) -> EpPartRefusal
    ensures { result ≡ part_refusal_of error.now }
{
    match error {
        IpDefragError::UnalignedFragmentPayloadLen {
            offset,
            payload_len,
        } => EpPartRefusal {
            kind: 1,
            offset: offset.value(),
            len: *payload_len,
            ..no_part_refusal()
        },
        IpDefragError::SegmentTooBig {
            offset,
            payload_len,
            max: _,
        } => EpPartRefusal {
            kind: 2,
            offset: offset.value(),
            len: *payload_len,
            ..no_part_refusal()
        },
        IpDefragError::ConflictingEnd {
            previous_end,
            conflicting_end,
        } => EpPartRefusal {
            kind: 3,
            previous_end: *previous_end,
            end: *conflicting_end,
            ..no_part_refusal()
        },
        IpDefragError::OverlappingFragment {
            offset,
            payload_len,
        } => EpPartRefusal {
            kind: 4,
            offset: offset.value(),
            len: *payload_len,
            ..no_part_refusal()
        },
        IpDefragError::AllocationFailure { len: _ } => no_part_refusal(),
    }
}
