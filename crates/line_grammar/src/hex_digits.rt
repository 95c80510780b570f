//! The hex digits of a frame, decoded as they come.
ghost use Rattle.std.specs.Prelude.{◌≡◌, ◌≤◌, ◌+◌, ◌++◌, ℕ, List, length, Some, None};
ghost use Rattle.line_grammar.specs.Prefixes.{DigitsFit, StateFits, ReadsAt, ReadsDigits};
ghost use Rattle.line_grammar.specs.declared.hex_digits.TheConstants.{FRAME_CAPACITY};
ghost use Rattle.lines.specs.declared.limits.TheConstants.{LINE_LIMIT};

use crate::state::State;
use lines::LINE_LIMIT;

/// The bytes of a line's frame at most.
pub const FRAME_CAPACITY: usize = LINE_LIMIT / 2;

/// What is read of a line that gives a frame.
#[derive(Clone, Copy)]
pub struct HexDigits {
    pub channel: u32,
    /// The bytes of the line.
    pub len: usize,
    /// The bytes of the frame, each of a whole pair of digits.
    pub pairs: usize,
    /// A byte that waits for the second one of its pair.
    pub half: Option<u8>,
}

impl HexDigits {
    /// Goes on with the next bytes of the line.
    pub fn take(self, frame: &mut [u8], bytes: &[u8]) -> State
        requires room { length frame.old ≡ FRAME_CAPACITY }
        requires fits { DigitsFit self }
        ensures fits { StateFits result }
        ensures reads { (prefix : List ℕ) → ReadsDigits prefix self frame.old
            → ReadsAt (prefix ++ bytes.now) result frame.new }
    {
        if bytes.len() > LINE_LIMIT - self.len {
            return State::Wrong;
        }
        match self.half {
            None => self.take_pairs(frame, bytes),
            Some(high) => self.take_half(high, frame, bytes),
        }
    }

    // Where a byte waits.
    fn take_half(self, high: u8, frame: &mut [u8], bytes: &[u8]) -> State
        requires room { length frame.old ≡ FRAME_CAPACITY }
        requires fits { DigitsFit self }
        requires half { self.half ≡ Some high }
        requires short { self.len + length bytes.now ≤ LINE_LIMIT }
        ensures fits { StateFits result }
        ensures reads { (prefix : List ℕ) → ReadsDigits prefix self frame.old
            → ReadsAt (prefix ++ bytes.now) result frame.new }
    {
        let Some((low, later)) = bytes.split_first() else {
            return State::Digits(self);
        };
        if !digits::decode_at(&[high, *low], frame, self.pairs) {
            return State::Wrong;
        }
        let whole = HexDigits {
            channel: self.channel,
            len: self.len + 1,
            pairs: self.pairs + 1,
            half: None,
        };
        whole.take_pairs(frame, later)
    }

    // Where none waits.
    fn take_pairs(self, frame: &mut [u8], bytes: &[u8]) -> State
        requires room { length frame.old ≡ FRAME_CAPACITY }
        requires fits { DigitsFit self }
        requires half { self.half ≡ None }
        requires short { self.len + length bytes.now ≤ LINE_LIMIT }
        ensures fits { StateFits result }
        ensures reads { (prefix : List ℕ) → ReadsDigits prefix self frame.old
            → ReadsAt (prefix ++ bytes.now) result frame.new }
    {
        let pairs = bytes.len() / 2;
        let (whole, odd) = bytes.split_at(2 * pairs);
        if !digits::decode_at(whole, frame, self.pairs) {
            return State::Wrong;
        }
        State::Digits(HexDigits {
            channel: self.channel,
            len: self.len + bytes.len(),
            pairs: self.pairs + pairs,
            half: odd.first().copied(),
        })
    }
}
