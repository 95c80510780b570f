//! Reads a line as its bytes come.
ghost use Rattle.std.specs.Prelude.{◌≡◌, ◌≤◌, ◌++◌, ℕ, List, [], vec_len, length, codes, IfOk};
ghost use Rattle.line_grammar.specs.Commands.{command_of};
ghost use Rattle.line_grammar.specs.Prefixes.{DigitsFit, StateFits, ReadsAt, ReadsDigits, ReadsHead};
ghost use Rattle.line_grammar.specs.Request.{as_command, frame_len};
ghost use Rattle.line_grammar.specs.declared.hex_digits.TheConstants.{FRAME_CAPACITY};
ghost use Rattle.line_grammar.specs.declared.line_head.TheConstants.{LINE_DIGITS};

use crate::hex_digits::{FRAME_CAPACITY, HexDigits};
use crate::line_head::{take_channel, take_line, take_word};
use crate::number::Number;
use crate::state::State;
use crate::{FrameRequest, Request};
use std::alloc::{AllocError, Global};

/// Reads a line chunk by chunk, and returns what it requests.
#[derive(Drop)]
pub struct LineReader {
    state: State,
    // The first bytes are those of the frame.
    frame: Vec<u8>,
    ghost state_fits: { StateFits state },
    ghost frame_len: { vec_len frame ≡ FRAME_CAPACITY },
}

impl LineReader {
    /// Nothing is read yet. The memory for a line's frame is allocated here.
    pub fn new(alloc: Global) -> Result<LineReader, AllocError>
        ensures { IfOk result (λ reader. ReadsAt [] reader.state reader.frame.items) }
    {
        Ok(LineReader {
            state: State::Word(&[]),
            frame: vec![in alloc; 0; FRAME_CAPACITY]?,
        })
    }

    /// Starts the next line.
    pub fn restart(&mut self)
        ensures { ReadsAt [] self.new.state self.new.frame.items }
    {
        self.state = State::Word(&[]);
    }

    /// Goes on with the next bytes of the line.
    pub fn take(&mut self, bytes: &[u8])
        ensures { (prefix : List ℕ) → ReadsAt prefix self.old.state self.old.frame.items
            → ReadsAt (prefix ++ bytes.now) self.new.state self.new.frame.items }
    {
        self.state = next_state(self.state, self.frame.as_mut_slice(), bytes);
    }

    /// What the line that is read requests.
    pub fn request(&self) -> Request<'_>
        ensures command { (prefix : List ℕ) → ReadsAt prefix self.now.state self.now.frame.items
            → as_command result ≡ command_of prefix }
        ensures short { frame_len result ≤ FRAME_CAPACITY }
    {
        match self.state {
            State::Word(_) => Request::Bad,
            State::Channel(_) => Request::Bad,
            State::Digits(digits) => self.frame_request(digits),
            State::Line(number) => forget_request(number),
            State::Wrong => Request::Bad,
        }
    }

    // What a line with these digits requests.
    fn frame_request(&self, digits: HexDigits) -> Request<'_>
        requires { DigitsFit digits }
        ensures command { (prefix : List ℕ) → ReadsDigits prefix digits self.now.frame.items
            → as_command result ≡ command_of prefix }
        ensures short { frame_len result ≤ FRAME_CAPACITY }
    {
        if digits.pairs == 0 {
            return Request::Bad;
        }
        match digits.half {
            Some(_) => Request::Bad,
            None => Request::Frame(FrameRequest {
                channel: digits.channel,
                bytes: &self.frame.as_slice()[..digits.pairs],
            }),
        }
    }
}

// What a line requests that has this number after `forget `.
fn forget_request(number: Number) -> Request<'static>
    requires { number.count ≤ LINE_DIGITS }
    ensures command { (prefix : List ℕ) → ReadsHead (codes "forget ") prefix number
        → as_command result ≡ command_of prefix }
    ensures short { frame_len result ≤ FRAME_CAPACITY }
{
    if number.count == 0 {
        Request::Bad
    } else {
        Request::Forget(number.value)
    }
}

// Goes on from a state with the next bytes of the line.
fn next_state(state: State, frame: &mut [u8], bytes: &[u8]) -> State
    requires room { length frame.old ≡ FRAME_CAPACITY }
    requires fits { StateFits state }
    ensures fits { StateFits result }
    ensures reads { (prefix : List ℕ) → ReadsAt prefix state frame.old
        → ReadsAt (prefix ++ bytes.now) result frame.new }
{
    match state {
        State::Word(prefix) => take_word(prefix, frame, bytes),
        State::Channel(number) => take_channel(number, frame, bytes),
        State::Digits(digits) => digits.take(frame, bytes),
        State::Line(number) => take_line(number, bytes),
        State::Wrong => State::Wrong,
    }
}
