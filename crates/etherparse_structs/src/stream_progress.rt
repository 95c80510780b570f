//! How far a stream came, as numbers.
ghost use Rattle.std.specs.Prelude.{◌≡◌};
ghost use Rattle.etherparse_structs.specs.Stream.{IsProgress, ShowsStream, Stream, gap_struct};
ghost use Rattle.etherparse_structs.specs.StreamAdded.{no_progress};

use crate::EpConflicts;
use tcp_streams::{Gap, StreamBuf};

/// Positions whose bytes are missing. Both are 0 where there is no gap.
#[repr(C)]
#[derive(Drop)]
pub struct EpGap {
    /// The first of them.
    pub start: u64,
    /// The position after the last one.
    pub end: u64,
}

/// How far a stream came. All fields are 0 where it isn't open.
#[repr(C)]
#[derive(Drop)]
pub struct EpStreamProgress {
    /// How many bytes can be read: those that follow the ones that were read, up to the first that
    /// is missing.
    pub available: usize,
    /// How many bytes were read.
    pub consumed: u64,
    /// The first positions whose bytes are missing, if bytes after them are held.
    pub gap: EpGap,
    /// The conflicts of all segments.
    pub conflicts: EpConflicts,
    /// Whether all bytes before FIN came.
    pub is_finished: bool,
    /// Whether the connection was reset.
    pub is_reset: bool,
    /// Whether the first segment that came had no SYN: bytes before it may be missing.
    pub joined_late: bool,
}

impl EpStreamProgress {
    pub(crate) fn none() -> EpStreamProgress
        ensures { result ≡ no_progress }
    {
        EpStreamProgress {
            available: 0,
            consumed: 0,
            gap: gap_struct(None),
            conflicts: EpConflicts::none(),
            is_finished: false,
            is_reset: false,
            joined_late: false,
        }
    }

    pub(crate) fn of(buf: &StreamBuf) -> EpStreamProgress
        ensures { (s : Stream) → ShowsStream buf.now s → IsProgress s result }
    {
        EpStreamProgress {
            available: buf.available().len(),
            consumed: buf.consumed(),
            gap: gap_struct(buf.gap()),
            conflicts: EpConflicts::of(buf.conflicts()),
            is_finished: buf.is_finished(),
            is_reset: buf.is_reset(),
            joined_late: buf.joined_late(),
        }
    }
}

fn gap_struct(gap: Option<Gap>) -> EpGap
    ensures { result ≡ gap_struct gap }
{
    match gap {
        Some(gap) => EpGap {
            start: gap.start,
            end: gap.end,
        },
        None => EpGap { start: 0, end: 0 },
    }
}
