//! The end of a capture.
ghost use Rattle.std.specs.Prelude.{◌≡◌, ◌+◌, ℕ, List, length};
ghost use Rattle.captures.specs.Dropped.{IsDropped};
ghost use Rattle.captures.specs.CaptureRuns.{fault_at_end};

use crate::CaptureError;
use crate::limits::FIRST_UNIT_LEN;
use crate::pcapng::long_block::LongBlock;
use crate::state::State;

/// How a capture ends with this many bytes held.
pub(crate) fn end(state: State, started: Option<LongBlock>, left: usize) -> Result<(), CaptureError>
    ensures { (dropped : List ℕ) → IsDropped state started dropped
        → result ≡ fault_at_end state (length dropped + left) }
{
    if started.is_some() {
        return Err(CaptureError::CutOff);
    }
    match state {
        State::Start(_) if left < FIRST_UNIT_LEN => Err(CaptureError::NotCapture),
        State::Start(_) => Err(CaptureError::CutOff),
        _ if left == 0 => Ok(()),
        _ => Err(CaptureError::CutOff),
    }
}
