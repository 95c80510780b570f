//! The head of a line: its first word, and the number after it.
ghost use Rattle.std.specs.Prelude.{◌≡◌, ◌≤◌, ◌++◌, ◌∷◌, ℕ, List, [], false, codes, length, IfSome, MatchOption};
ghost use Rattle.std.specs.Char.{is_ascii_digit};
ghost use Rattle.line_grammar.specs.Prefixes.{Begins, DigitsFit, IsWrong, StateFits, ReadsAt, ReadsDigits, ReadsHead};
ghost use Rattle.line_grammar.specs.declared.hex_digits.TheConstants.{FRAME_CAPACITY};
ghost use Rattle.line_grammar.specs.declared.line_head.TheConstants.{CHANNEL_DIGITS, LINE_DIGITS, WORD_LIMIT};

use crate::hex_digits::HexDigits;
use crate::number::Number;
use crate::state::State;

/// The first word of a line of a frame, and the space after it.
pub const FRAME: &[u8; 6] = b"frame ";

const FORGET: &[u8; 7] = b"forget ";

/// The bytes at most of a prefix of a first word that isn't all of it.
pub const WORD_LIMIT: usize = 6;

/// The digits of a channel at most.
pub const CHANNEL_DIGITS: usize = 10;

/// The digits of a line's number at most.
pub const LINE_DIGITS: usize = 20;

/// How a text starts with a word.
#[derive(Drop)]
pub enum WordMatch<'b> {
    /// The text has all of the word, and then these bytes.
    Whole(&'b [u8]),
    /// The text is this prefix of the word, which isn't all of it.
    Prefix(&'static [u8]),
    /// The text differs from the word.
    Other,
}

/// Goes on with a line of which a prefix of a first word is read.
pub fn take_word(prefix: &[u8], frame: &mut [u8], bytes: &[u8]) -> State
    requires room { length frame.old ≡ FRAME_CAPACITY }
    requires short { length prefix.now ≤ WORD_LIMIT }
    ensures fits { StateFits result }
    ensures reads { ReadsAt (prefix.now ++ bytes.now) result frame.new }
{
    if let Some(rest) = after_frame(prefix, bytes) {
        return take_channel(Number::new(), frame, rest);
    }
    match read_word(FRAME, prefix, bytes) {
        WordMatch::Whole(rest) => take_channel(Number::new(), frame, rest),
        WordMatch::Prefix(prefix) => State::Word(prefix),
        WordMatch::Other => match read_word(FORGET, prefix, bytes) {
            WordMatch::Whole(rest) => take_line(Number::new(), rest),
            WordMatch::Prefix(prefix) => State::Word(prefix),
            WordMatch::Other => State::Wrong,
        },
    }
}

// What follows `frame ` where that comes in one chunk, as it mostly does. This is faster.
fn after_frame<'b>(prefix: &[u8], bytes: &'b [u8]) -> Option<&'b [u8]>
    ensures { IfSome result (λ rest. prefix.now ++ bytes.now ≡ codes "frame " ++ rest.now) }
{
    match bytes {
        [b'f', b'r', b'a', b'm', b'e', b' ', rest @ ..] if prefix.is_empty() => Some(rest),
        _ => None,
    }
}

// How a text in two chunks starts with a word.
fn read_word<'b>(word: &'static [u8], prefix: &[u8], bytes: &'b [u8]) -> WordMatch<'b>
    requires { length prefix.now ≤ length word.now }
    ensures { Begins word.now (prefix.now ++ bytes.now) result }
{
    if !word.starts_with(prefix) {
        return WordMatch::Other;
    }
    let missing = &word[prefix.len()..];
    if bytes.starts_with(missing) {
        WordMatch::Whole(&bytes[missing.len()..])
    } else if missing.starts_with(bytes) {
        WordMatch::Prefix(&word[..prefix.len() + bytes.len()])
    } else {
        WordMatch::Other
    }
}

/// Goes on with a line of which the first word and digits of a channel are read.
pub fn take_channel(number: Number, frame: &mut [u8], bytes: &[u8]) -> State
    requires room { length frame.old ≡ FRAME_CAPACITY }
    requires few { number.count ≤ CHANNEL_DIGITS }
    ensures fits { StateFits result }
    ensures reads { (prefix : List ℕ) → ReadsHead (codes "frame ") prefix number
        → ReadsAt (prefix ++ bytes.now) result frame.new }
{
    let Some(run) = number.take(CHANNEL_DIGITS, bytes) else {
        return State::Wrong;
    };
    let Some((byte, digits)) = run.rest.split_first() else {
        return State::Channel(run.number);
    };
    match frame_head(run.number, *byte) {
        Some(head) => head.take(frame, digits),
        None => State::Wrong,
    }
}

// The head of a line that gives a frame, by its channel and the byte after it.
fn frame_head(number: Number, byte: u8) -> Option<HexDigits>
    requires { number.count ≤ CHANNEL_DIGITS }
    ensures fits { IfSome result (λ head. DigitsFit head) }
    ensures reads { (prefix frame : List ℕ) → ReadsHead (codes "frame ") prefix number
        → is_ascii_digit byte ≡ false → MatchOption result
        (IsWrong (prefix ++ byte ∷ []))
        (λ head. ReadsDigits (prefix ++ byte ∷ []) head frame) }
{
    if byte != b' ' || number.count == 0 {
        return None;
    }
    let Ok(channel) = u32::try_from(number.value) else {
        return None;
    };
    Some(HexDigits {
        channel,
        len: FRAME.len() + number.count + 1,
        pairs: 0,
        half: None,
    })
}

/// Goes on with a line of which the first word and digits of a line's number are read.
pub fn take_line(number: Number, bytes: &[u8]) -> State
    requires { number.count ≤ LINE_DIGITS }
    ensures fits { StateFits result }
    ensures reads { (prefix frame : List ℕ) → ReadsHead (codes "forget ") prefix number
        → ReadsAt (prefix ++ bytes.now) result frame }
{
    let Some(run) = number.take(LINE_DIGITS, bytes) else {
        return State::Wrong;
    };
    if run.rest.is_empty() {
        State::Line(run.number)
    } else {
        State::Wrong
    }
}
