//! What became of a frame that a pool was given, as numbers.
ghost use Rattle.std.specs.Prelude.{◌≡◌};
ghost use Rattle.etherparse_structs.specs.FramePool.{added, error_status, frame_refused, fragment_refused};

use crate::message::no_message;
use crate::part_refusal::{no_part_refusal, part_refusal_of};
use crate::refusal::{no_refusal, refusal};
use crate::{DONE, EpMessage, EpPartRefusal, EpRefusal, NO_MEMORY, REFUSED};
use etherparse::defrag::IpDefragError;
use etherparse::err::packet::SliceError;

/// What became of a frame that a pool was given, or of the message that it kept.
#[repr(C)]
#[derive(Drop)]
pub struct EpAdded {
    /// 5 where a message is complete and written, 1 where it is complete and the output is too
    /// short for it, and 0 where none is complete; 2 out of memory, 3 refused, 4 in a wrong state.
    pub status: u32,
    /// Why the frame is refused.
    pub refusal: EpRefusal,
    /// Why the fragment in the frame is refused.
    pub part: EpPartRefusal,
    /// The message that is complete.
    pub message: EpMessage,
}

impl EpAdded {
    pub(crate) fn of(status: u32) -> EpAdded
        ensures { result ≡ added status }
    {
        EpAdded {
            status,
            refusal: no_refusal(),
            part: no_part_refusal(),
            message: no_message(),
        }
    }

    pub(crate) fn fragment_refused(error: &IpDefragError) -> EpAdded
        ensures { result ≡ fragment_refused error.now }
    {
        EpAdded {
            part: part_refusal_of(error),
            ..EpAdded::of(error_status(error))
        }
    }

    pub(crate) fn frame_refused(error: SliceError) -> EpAdded
        ensures { result ≡ frame_refused error }
    {
        EpAdded {
            refusal: refusal(error),
            ..EpAdded::of(REFUSED)
        }
    }
}

fn error_status(error: &IpDefragError) -> u32
    ensures { result ≡ error_status error.now }
{
    match error {
        IpDefragError::AllocationFailure { len: _ } => NO_MEMORY,
        IpDefragError::UnalignedFragmentPayloadLen { .. } => REFUSED,
        IpDefragError::SegmentTooBig { .. } => REFUSED,
        IpDefragError::ConflictingEnd { .. } => REFUSED,
        IpDefragError::OverlappingFragment { .. } => REFUSED,
    }
}
