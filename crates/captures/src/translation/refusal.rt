//! Why the input of a run is refused.
use crate::CaptureError;
use crate::position::Position;
use crate::text::bad_line::BadLine;

/// Why the input of a run is refused.
#[derive(Drop)]
pub(crate) enum Refusal {
    /// As a capture, at this position.
    InCapture(CaptureError, Position),
    /// As a text: this line gives no frame.
    InLine(BadLine),
}
