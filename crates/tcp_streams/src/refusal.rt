//! Why a segment is refused.

use thiserror::Error;

/// Why a segment is refused. Nothing changes then.
#[derive(Clone, Copy, Debug, PartialEq, Eq, Error)]
pub enum Refused {
    /// It ends after the window.
    #[error("the segment ends after the window, which ends at byte {window_end}")]
    OutsideWindow {
        /// The position after the window.
        window_end: u64,
    },
    /// It has a byte or FIN after FIN, or its FIN stands before a byte or FIN.
    #[error("FIN stands at byte {fin}, and a byte or FIN after it")]
    AfterFin {
        /// The position of the FIN that stands before the other.
        fin: u64,
    },
    /// The connection was reset.
    #[error("the connection was reset")]
    AfterReset,
    /// There is no memory for it.
    #[error("out of memory")]
    OutOfMemory,
}
