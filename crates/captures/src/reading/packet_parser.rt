//! The packets of a capture whose bytes a caller passes.
ghost use Rattle.std.specs.Prelude.{◌≡◌, ◌+◌, ◌<◌, ◌≤◌, ◌++◌, ℕ, List, [], length, IfOk, IfSome, IfNone, MatchOption};
ghost use Rattle.std.specs.Prelude.{Some, None, Err};
ghost use Rattle.captures.specs.Dropped.{IsDropped};
ghost use Rattle.captures.specs.Parsers.{EndsAs, FindsNext, HasParsed, LeavesOff, ParsesTo, refusal_of, skipped_of};
ghost use Rattle.captures.specs.Positions.{IsPosition};
ghost use Rattle.captures.specs.Units.{IsIncomplete};
ghost use Rattle.captures.specs.declared.packet.Packet.{Packet};
ghost use Rattle.captures.specs.declared.reading.refused_at.RefusedAt.{RefusedAt};
ghost use Rattle.captures.specs.declared.unfit.Unfit.{Unfit};

use crate::end::end;
use crate::limits::BLOCK_LIMIT;
use crate::pcapng::long_block::{Following, LongBlock, long_block};
use crate::position::position_of;
use crate::reading::ahead::{Ahead, look_ahead};
use crate::reading::parsed::{Parsed, ParsedPacket};
use crate::reading::refused_at::RefusedAt;
use crate::state::State;
use crate::translation::progress::last;
use crate::{CaptureError, Skipped, Unfit};

/// Says where the packets of a capture lie in bytes that a caller passes, which reads and allocates
/// nothing.
///
/// The caller passes the first bytes of the capture, and then, after each call, those that it isn't
/// done with and what follows them. Of at most [`BLOCK_LIMIT`](crate::BLOCK_LIMIT) bytes that hold no
/// whole packet fewer are left then: so a buffer of that length is enough.
///
/// A packet of which no byte was captured is not among them, and one that can't be reported ends
/// them or is passed over, as [`Unfit`] says. Once the capture is refused, each call returns the same.
#[derive(Drop)]
pub struct PacketParser {
    state: State,
    // A long block that is started, of which nothing is held.
    started: Option<LongBlock>,
    // How many bytes were passed: those of whole units.
    passed: u64,
    refused: Option<RefusedAt>,
}

impl PacketParser {
    /// Before the first packet.
    pub fn new(unfit: Unfit) -> PacketParser
        ensures { HasParsed unfit result [] [] [] }
    {
        PacketParser {
            state: State::Start(unfit),
            started: None,
            passed: 0,
            refused: None,
        }
    }

    /// The first packet of these bytes, or why none can follow. They are those that it isn't done with,
    /// and more.
    pub fn next(&mut self, bytes: &[u8]) -> Result<Parsed, RefusedAt>
        ensures parses { (unfit : Unfit) (read held more : List ℕ) (given : List Packet)
            → HasParsed unfit self.old read held given → bytes.now ≡ held ++ more
            → ParsesTo unfit self.new (read ++ more) bytes.now given result }
        ensures done { IfOk result (λ parsed. parsed.done ≤ length bytes.now) }
        ensures within { IfOk result (λ parsed. IfSome parsed.packet
            (λ packet. packet.offset + packet.len ≤ length bytes.now)) }
        ensures room { length bytes.now ≤ BLOCK_LIMIT → IfOk result (λ parsed.
            IfNone parsed.packet (length bytes.now < BLOCK_LIMIT + parsed.done)) }
        ensures again { (refused : RefusedAt) → refusal_of self.old ≡ Some refused
            → (result ≡ Err refused) × (self.new ≡ self.old) }
    {
        if let Some(refused) = self.refused {
            return Err(refused);
        }
        let ahead = self.take_next(bytes);
        let done = bytes.len() - ahead.left;
        if let Some(found) = ahead.found {
            return Ok(Parsed {
                done,
                packet: Some(ParsedPacket {
                    number: found.number,
                    interface: found.interface,
                    time: found.time,
                    link: found.link,
                    wire_len: found.wire_len,
                    header: found.header,
                    offset: bytes.len() - ahead.from,
                    len: ahead.len,
                }),
            });
        }
        if let Some(error) = ahead.refusal {
            let refused = self.refusal(error, last(bytes, ahead.left));
            self.refused = Some(refused);
            return Err(refused);
        }
        Ok(Parsed { done, packet: None })
    }

    /// How the capture ends, where [`next`](PacketParser::next) has returned no packet of what came
    /// before, isn't done with these bytes, and none follow them.
    pub fn end(&self, bytes: &[u8]) -> Result<(), RefusedAt>
        ensures ends { (unfit : Unfit) (read : List ℕ) (given : List Packet)
            → LeavesOff unfit self.now read bytes.now given None
            → EndsAs unfit self.now read given result }
        ensures again { (refused : RefusedAt) → refusal_of self.now ≡ Some refused
            → result ≡ Err refused }
    {
        if let Some(refused) = self.refused {
            return Err(refused);
        }
        match end(self.state, self.started, bytes.len()) {
            Ok(()) => Ok(()),
            Err(error) => Err(self.refusal(error, bytes)),
        }
    }

    /// How many packets were passed over so far.
    pub fn skipped(&self) -> Skipped
        ensures { result ≡ skipped_of self.now }
    {
        self.state.skipped()
    }

    // The capture is refused for this, where these bytes are held.
    fn refusal(&self, error: CaptureError, held: &[u8]) -> RefusedAt
        ensures error { result.error ≡ error }
        ensures position { (unfit : Unfit) (read : List ℕ) (given : List Packet)
            → (h : HasParsed unfit self.now read held.now given)
            → IsPosition self.now.state read (h.dropped ++ held.now) result.position }
    {
        RefusedAt {
            error,
            position: position_of(self.passed, self.state, self.started, held),
        }
    }

    // Finds the packet at the start of the bytes, if it is whole. Units without one before it are
    // passed, and what a long block has of it is dropped.
    fn take_next(&mut self, bytes: &[u8]) -> Ahead
        ensures finds { (unfit : Unfit) (read : List ℕ) (given : List Packet)
            → HasParsed unfit self.old read bytes.now given
            → FindsNext unfit self.new read bytes.now given result }
        ensures left { result.left ≤ length bytes.now }
        ensures len { result.len ≤ result.from }
        ensures from { result.from ≤ length bytes.now }
        ensures room { length bytes.now ≤ BLOCK_LIMIT → result.found ≡ None
            → result.refusal ≡ None → result.left < BLOCK_LIMIT }
        ensures refused { self.new.refused ≡ self.old.refused }
    {
        match self.started {
            Some(block) => self.take_after(block, bytes),
            None => self.take_packet(bytes),
        }
    }

    fn take_after(&mut self, block: LongBlock, bytes: &[u8]) -> Ahead
        requires { self.old.started ≡ Some block }
        ensures finds { (unfit : Unfit) (read : List ℕ) (given : List Packet)
            → HasParsed unfit self.old read bytes.now given
            → FindsNext unfit self.new read bytes.now given result }
        ensures left { result.left ≤ length bytes.now }
        ensures len { result.len ≤ result.from }
        ensures from { result.from ≤ length bytes.now }
        ensures room { length bytes.now ≤ BLOCK_LIMIT → result.found ≡ None
            → result.refusal ≡ None → result.left < BLOCK_LIMIT }
        ensures refused { self.new.refused ≡ self.old.refused }
    {
        match block.following(bytes) {
            Following::Held(started, left) => {
                self.started = Some(started);
                Ahead::none(left, None)
            }
            Following::Refused(started, left) => {
                self.started = Some(started);
                Ahead::none(left, Some(CaptureError::BadBlock))
            }
            Following::Passed(left) => {
                self.started = None;
                self.passed = self.passed.saturating_add(u64::from(block.len));
                self.take_packet(last(bytes, left))
            }
        }
    }

    fn take_packet(&mut self, bytes: &[u8]) -> Ahead
        requires { self.old.started ≡ None }
        ensures finds { (unfit : Unfit) (read : List ℕ) (given : List Packet)
            → HasParsed unfit self.old read bytes.now given
            → FindsNext unfit self.new read bytes.now given result }
        ensures left { result.left ≤ length bytes.now }
        ensures len { result.len ≤ result.from }
        ensures from { result.from ≤ length bytes.now }
        ensures room { length bytes.now ≤ BLOCK_LIMIT → result.found ≡ None
            → result.refusal ≡ None → result.left < BLOCK_LIMIT }
        ensures refused { self.new.refused ≡ self.old.refused }
    {
        let ahead = look_ahead(&mut self.state, bytes);
        let done = bytes.len() - ahead.left;
        self.passed = self.passed.saturating_add(done as u64);
        if let Some(_) = ahead.found {
            return ahead;
        }
        if let Some(_) = ahead.refusal {
            return ahead;
        }
        match started_block(self.state, last(bytes, ahead.left)) {
            Some(block) => {
                self.started = Some(block);
                Ahead::none(0, None)
            }
            None => ahead,
        }
    }
}

// The long block that these bytes begin, which are no whole unit. Of more bytes than are held
// elsewhere none are dropped.
fn started_block(state: State, bytes: &[u8]) -> Option<LongBlock>
    requires { IsIncomplete state bytes.now }
    ensures { MatchOption result (length bytes.now ≤ BLOCK_LIMIT → length bytes.now < BLOCK_LIMIT)
        (λ block. IsDropped state (Some block) bytes.now) }
{
    if bytes.len() > BLOCK_LIMIT {
        return None;
    }
    long_block(state, bytes)
}
