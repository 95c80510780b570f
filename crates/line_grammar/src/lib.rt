//! What lines request, parsed as their bytes come. No line is kept: of its hex digits the bytes of
//! the frame that they encode, and of all else the state in the grammar and a number. A line of a
//! frame with its time is parsed as a whole.
#![tactic(auto)]

mod frame_limits;
mod hex_digits;
pub mod laws;
mod line_head;
mod line_reader;
mod number;
mod request;
mod state;
mod timed_line;

pub use frame_limits::{FRAME_LIMIT, TIMED_LINE_LIMIT};
pub use hex_digits::FRAME_CAPACITY;
pub use line_reader::LineReader;
pub use request::{FrameRequest, Request};
pub use timed_line::{Time, TimedLine, read_timed_line};
