//! The state in which a line is read.

use crate::hex_digits::HexDigits;
use crate::number::Number;

/// A state in the grammar of lines, with what is known in it of the bytes read so far.
#[derive(Clone, Copy)]
pub enum State {
    /// This text is all of the line that is read, and one of the two first words may start so.
    Word(&'static [u8]),
    /// After `frame `: digits of a channel.
    Channel(Number),
    /// After the head of a line that gives a frame: digits of the frame.
    Digits(HexDigits),
    /// After `forget `: digits of a line's number.
    Line(Number),
    /// No line that starts so requests anything.
    Wrong,
}
