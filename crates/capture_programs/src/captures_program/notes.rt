//! The note after an error: which of the two commands reads such an input.
use crate::looks::Look;
use crate::notes::{self, compression_note};
use captures::{CaptureError, RunError};

/// The note after an error, where the input looks like this. It has no contract: tests compare the
/// texts.
pub fn note(error: RunError, look: Look) -> &'static str {
    match error {
        RunError::Capture(CaptureError::NotCapture, _) if look == Look::Text => {
            ": the input is text, `captures capture` reads lines of frames"
        }
        RunError::BadLine(line) if line.number == 1 => text_note(look),
        _ => notes::note(error, look),
    }
}

fn text_note(look: Look) -> &'static str {
    match look {
        Look::Capture => ": the input is a capture, `captures lines` reads it",
        _ => compression_note(look),
    }
}
