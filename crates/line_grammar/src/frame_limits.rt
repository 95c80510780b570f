//! How long the lines of frames are.
use lines::LINE_LIMIT;

// The bytes of a line before its digits at most: `frame `, a channel and a space.
const HEAD_LIMIT: usize = 17;

// The bytes of a longest time after the digits: three numbers of ten digits, and a space before
// each.
const TIME_TEXT_LIMIT: usize = 33;

/// The bytes at most of a frame whose line has at most [`LINE_LIMIT`] bytes on every channel.
pub const FRAME_LIMIT: usize = (LINE_LIMIT - HEAD_LIMIT) / 2;

/// The bytes at most of the line of such a frame with its time.
pub const TIMED_LINE_LIMIT: usize = HEAD_LIMIT + 2 * FRAME_LIMIT + TIME_TEXT_LIMIT;
