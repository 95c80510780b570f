//! What became of a segment that a stream was given, as numbers.
ghost use Rattle.std.specs.Prelude.{◌≡◌};
ghost use Rattle.etherparse_structs.specs.StreamAdded.{conflicts_struct, no_conflicts, segment_refused, segment_status};
ghost use Rattle.etherparse_structs.specs.StreamAdded.{segment_struct};

use crate::{DONE, NO_MEMORY, REFUSED};
use tcp_streams::{Added, Conflicts, Refused};

/// A segment that ends after the window.
pub const SEGMENT_OUTSIDE_WINDOW: u32 = 1;

/// A segment with a byte or FIN after FIN, or whose FIN stands before a byte or FIN.
pub const SEGMENT_AFTER_FIN: u32 = 2;

/// A segment after the connection was reset.
pub const SEGMENT_AFTER_RESET: u32 = 3;

/// Positions at which a segment has another byte than one before it. The first byte stays.
#[repr(C)]
#[derive(Drop)]
pub struct EpConflicts {
    /// How many there are, UINT64_MAX at most.
    pub count: u64,
    /// The one that was found first, 0 where there is none.
    pub first: u64,
}

/// What became of a segment that a stream was given.
#[repr(C)]
#[derive(Drop)]
pub struct EpStreamAdded {
    /// 0 where it is accepted, 2 out of memory, 3 where it is refused, 4 where the stream isn't open.
    /// Where it isn't 0, nothing changed.
    pub status: u32,
    /// Why it is refused: 1 it ends after the window, 2 it has a byte or FIN after FIN, or its FIN
    /// stands before a byte or FIN, 3 the connection was reset. Else 0.
    pub refusal: u32,
    /// Of refusal 1: the position after the window. Of 2: that of the FIN that stands before the
    /// other. Else 0.
    pub refused_at: u64,
    /// The position of its first byte, those before the ones that are held left out. 0 where it isn't
    /// accepted.
    pub position: u64,
    /// The positions of its bytes that differ from those that are held.
    pub conflicts: EpConflicts,
}

impl EpConflicts {
    pub(crate) fn none() -> EpConflicts
        ensures { result ≡ no_conflicts }
    {
        EpConflicts { count: 0, first: 0 }
    }

    pub(crate) fn of(conflicts: Conflicts) -> EpConflicts
        ensures { result ≡ conflicts_struct conflicts }
    {
        EpConflicts {
            count: conflicts.count,
            first: conflicts.first.unwrap_or(0),
        }
    }
}

impl EpStreamAdded {
    pub(crate) fn of_status(status: u32) -> EpStreamAdded
        ensures { result ≡ segment_status status }
    {
        EpStreamAdded {
            status,
            refusal: 0,
            refused_at: 0,
            position: 0,
            conflicts: EpConflicts::none(),
        }
    }

    pub(crate) fn of(added: Result<Added, Refused>) -> EpStreamAdded
        ensures { result ≡ segment_struct added }
    {
        match added {
            Ok(added) => EpStreamAdded {
                position: added.position,
                conflicts: EpConflicts::of(added.conflicts),
                ..EpStreamAdded::of_status(DONE)
            },
            Err(error) => EpStreamAdded::refused(error),
        }
    }

    fn refused(error: Refused) -> EpStreamAdded
        ensures { result ≡ segment_refused error }
    {
        match error {
            Refused::OutsideWindow { window_end } => EpStreamAdded {
                refusal: SEGMENT_OUTSIDE_WINDOW,
                refused_at: window_end,
                ..EpStreamAdded::of_status(REFUSED)
            },
            Refused::AfterFin { fin } => EpStreamAdded {
                refusal: SEGMENT_AFTER_FIN,
                refused_at: fin,
                ..EpStreamAdded::of_status(REFUSED)
            },
            Refused::AfterReset => EpStreamAdded {
                refusal: SEGMENT_AFTER_RESET,
                ..EpStreamAdded::of_status(REFUSED)
            },
            Refused::OutOfMemory => EpStreamAdded::of_status(NO_MEMORY),
        }
    }
}
