//! The packets of a capture that a reader gives.
ghost use Rattle.std.specs.Prelude.{◌≡◌, ◌+◌, ◌<◌, ◌++◌, ℕ, List, [], length, Result, IfOk, true, false, Some, None};
ghost use Rattle.std.specs.Io.KnownBytes.{Consumes};
ghost use Rattle.captures.specs.Dropped.{IsDropped};
ghost use Rattle.captures.specs.Numbers.{capped};
ghost use Rattle.captures.specs.Positions.{block_type};
ghost use Rattle.captures.specs.Readers.{ComesTo, EndsBy, FindsPacket, HasRead, HeldTo, IsBeside, IsRefusedWith, again};
ghost use Rattle.captures.specs.Readers.{packet_at, skipped_by, source_of};
ghost use Rattle.captures.specs.CaptureRuns.{fault_at_end};
ghost use Rattle.captures.specs.Units.{seen_in};
ghost use Rattle.captures.specs.declared.limits.TheConstants.{INPUT_CAPACITY};
ghost use Rattle.captures.specs.declared.packet.Packet.{Packet};
ghost use Rattle.captures.specs.declared.reading.read_error.ReadError.{ReadError};
ghost use Rattle.captures.specs.declared.unfit.Unfit.{Unfit};

use crate::end::end;
use crate::link::frame::Frame;
use crate::packet::Packet;
use crate::pcapng::long_block::{Following, LongBlock, long_block};
use crate::position::{Position, position_of};
use crate::reading::ahead::{Found, look_ahead};
use crate::reading::read_error::ReadError;
use crate::reading::window::Window;
use crate::state::State;
use crate::{CaptureError, READ_COUNT_LIMIT, Skipped, Unfit};
use std::alloc::{AllocError, Global};
use std::io::Read;

/// Reads the packets of a capture, one after the other, with one buffer of
/// [`BLOCK_LIMIT`](crate::BLOCK_LIMIT) bytes.
///
/// A packet of which no byte was captured is not among them, and one that can't be reported ends
/// them or is passed over, as [`Unfit`] says. A read that gives nothing reports the end. Once there
/// is no further packet, each call returns the same as the last one did and reads nothing. Any
/// fault of a read ends the packets, an interrupted call too.
#[derive(Drop)]
pub struct PacketReader<R> {
    reader: R,
    // How many reads gave bytes.
    reads: u64,
    // What is held of the input, and the marked bytes of the packet that was found.
    window: Window,
    state: State,
    // A long block that is started, of which nothing is held.
    started: Option<LongBlock>,
    // How many bytes were passed: those of whole units.
    passed: u64,
    found: Option<Found>,
    ended: Option<Result<(), ReadError>>,
}

impl<R: Read + Drop> PacketReader<R> {
    /// Before the first packet. Nothing is read yet. The reader is dropped where there is no memory
    /// for the buffer.
    pub fn new(alloc: Global, unfit: Unfit, reader: R) -> Result<PacketReader<R>, AllocError>
        ensures source { IfOk result (λ made. made.reader ≡ reader) }
        ensures starts { IfOk result (λ made. HasRead unfit made [] []) }
        ensures packet { IfOk result (λ made. packet_at made ≡ None) }
    {
        Ok(PacketReader {
            reader,
            reads: 0,
            window: Window::new(alloc)?,
            state: State::Start(unfit),
            started: None,
            passed: 0,
            found: None,
            ended: None,
        })
    }

    /// The next packet, or none at the end of the capture: [`advance`](PacketReader::advance), and
    /// then [`packet`](PacketReader::packet). It has no contract: a packet that is lent by
    /// `&mut self` has no value in one, and its two lines are those calls.
    pub fn next_packet(&mut self) -> Result<Option<Packet<'_>>, ReadError> {
        if self.advance()? {
            Ok(self.packet())
        } else {
            Ok(None)
        }
    }

    /// Advances to the next packet, and returns whether there is one.
    pub fn advance(&mut self) -> Result<bool, ReadError>
        ensures comes { (unfit : Unfit) (read : List ℕ) (given : List Packet)
            → HasRead unfit self.old read given → (more : List ℕ)
            × Consumes (R.remaining self.old.reader) (R.remaining self.new.reader) more
            × ComesTo unfit self.new (R.remaining self.new.reader) (read ++ more) given result }
        ensures again { (ended : Result Unit ReadError) → self.old.ended ≡ Some ended
            → (result ≡ again ended) × (self.new ≡ self.old) }
        ensures none { self.old.ended ≡ None → (result ≡ Ok true → ⊥)
            → packet_at self.new ≡ None }
    {
        if let Some(ended) = self.ended {
            return match ended {
                Ok(()) => Ok(false),
                Err(error) => Err(error),
            };
        }
        self.found = None;
        'reads: loop {
            match self.take_next() {
                Ok(true) => return Ok(true),
                Ok(false) => {}
                Err(error) => return self.refuse(error),
            }
            if self.reads >= READ_COUNT_LIMIT {
                return self.stop(ReadError::TooManyReads);
            }
            match self.window.fill(&mut self.reader) {
                Ok(0) => return self.end(),
                Ok(_) => self.reads += 1,
                Err(_) => return self.stop(ReadError::Read),
            }
        }
    }

    /// The packet that the last call advanced to, if it did.
    pub fn packet(&self) -> Option<Packet<'_>>
        ensures { result ≡ packet_at self.now }
    {
        let found = self.found?;
        Some(Packet {
            number: found.number,
            interface: found.interface,
            time: found.time,
            link: found.link,
            wire_len: found.wire_len,
            frame: Frame::following(found.header, self.window.marked()),
        })
    }

    /// Advances to the next packet if it is held whole, and returns whether it is. Nothing is read:
    /// so a caller does what is due before a read that may wait, and continues by
    /// [`PacketReader::advance`]. Where it is not, the reader has no current packet.
    pub fn advance_held(&mut self) -> Result<bool, ReadError>
        ensures source { source_of self.new ≡ source_of self.old }
        ensures comes { (unfit : Unfit) (read : List ℕ) (given : List Packet)
            → HasRead unfit self.old read given
            → HeldTo unfit self.new (R.remaining self.new.reader) read given result }
        ensures again { (ended : Result Unit ReadError) → self.old.ended ≡ Some ended
            → (result ≡ Ok false) × (self.new ≡ self.old) }
        ensures none { self.old.ended ≡ None → (result ≡ Ok true → ⊥)
            → packet_at self.new ≡ None }
    {
        if self.ended.is_some() {
            return Ok(false);
        }
        self.found = None;
        match self.take_next() {
            Ok(found) => Ok(found),
            Err(error) => self.refuse(error),
        }
    }

    /// How many packets were passed over so far.
    pub fn skipped(&self) -> Skipped
        ensures { result ≡ skipped_by self.now }
    {
        self.state.skipped()
    }

    /// How many bytes of the input come before what is to be taken next. It stops at the greatest
    /// number of 64 bits.
    pub fn consumed(&self) -> u64
        ensures { result ≡ self.now.passed }
    {
        self.passed
    }

    // Finds the packet at the start of what is held, and returns whether it is there. Units without
    // one before it are passed, and what a long block has of it is dropped.
    fn take_next(&mut self) -> Result<bool, CaptureError>
        ensures finds { (unfit : Unfit) (read : List ℕ) (given : List Packet)
            → HasRead unfit self.old read given → FindsPacket unfit self.new read given result }
        ensures room { result ≡ Ok false → length self.new.window.held < INPUT_CAPACITY }
        ensures same { IsBeside self.old self.new }
        ensures none { (result ≡ Ok true → ⊥) → self.new.found ≡ self.old.found }
    {
        match self.started {
            Some(block) => self.take_after(block),
            None => self.take_packet(),
        }
    }

    fn take_after(&mut self, block: LongBlock) -> Result<bool, CaptureError>
        requires { self.old.started ≡ Some block }
        ensures finds { (unfit : Unfit) (read : List ℕ) (given : List Packet)
            → HasRead unfit self.old read given → FindsPacket unfit self.new read given result }
        ensures room { result ≡ Ok false → length self.new.window.held < INPUT_CAPACITY }
        ensures same { IsBeside self.old self.new }
        ensures none { (result ≡ Ok true → ⊥) → self.new.found ≡ self.old.found }
    {
        match block.following(self.window.held()) {
            Following::Held(started, left) => {
                self.started = Some(started);
                self.window.keep(left);
                Ok(false)
            }
            Following::Refused(started, left) => {
                self.started = Some(started);
                self.window.keep(left);
                Err(CaptureError::BadBlock)
            }
            Following::Passed(left) => {
                self.started = None;
                self.passed = self.passed.saturating_add(u64::from(block.len));
                self.window.keep(left);
                self.take_packet()
            }
        }
    }

    fn take_packet(&mut self) -> Result<bool, CaptureError>
        requires { self.old.started ≡ None }
        ensures finds { (unfit : Unfit) (read : List ℕ) (given : List Packet)
            → HasRead unfit self.old read given → FindsPacket unfit self.new read given result }
        ensures room { result ≡ Ok false → length self.new.window.held < INPUT_CAPACITY }
        ensures same { IsBeside self.old self.new }
        ensures none { (result ≡ Ok true → ⊥) → self.new.found ≡ self.old.found }
    {
        let ahead = look_ahead(&mut self.state, self.window.held());
        let passed = self.window.held().len() - ahead.left;
        self.passed = self.passed.saturating_add(passed as u64);
        if let Some(found) = ahead.found {
            self.window.mark(ahead.from, ahead.len);
            self.window.keep(ahead.left);
            self.found = Some(found);
            return Ok(true);
        }
        self.window.keep(ahead.left);
        if let Some(error) = ahead.refusal {
            return Err(error);
        }
        match long_block(self.state, self.window.held()) {
            Some(block) => {
                self.started = Some(block);
                self.window.keep(0);
                Ok(false)
            }
            None => Ok(false),
        }
    }

    fn position(&self) -> Position
        ensures packet { result.packet ≡ capped (seen_in self.now.state + 1) }
        ensures offset { result.offset ≡ self.now.passed }
        ensures block { (dropped : List ℕ) → IsDropped self.now.state self.now.started dropped
            → result.block ≡ block_type self.now.state (dropped ++ self.now.window.held) }
    {
        position_of(self.passed, self.state, self.started, self.window.held())
    }

    fn refuse(&mut self, error: CaptureError) -> Result<bool, ReadError>
        ensures { IsRefusedWith self.old self.new error result }
    {
        self.stop(ReadError::Capture(error, self.position()))
    }

    fn end(&mut self) -> Result<bool, ReadError>
        ensures ends { (dropped : List ℕ) → IsDropped self.old.state self.old.started dropped
            → EndsBy self.old self.new
            (fault_at_end self.old.state (length (dropped ++ self.old.window.held))) result }
        ensures same { (self.new.found ≡ self.old.found) × (self.new.reader ≡ self.old.reader) }
    {
        match end(self.state, self.started, self.window.held().len()) {
            Ok(()) => {
                self.ended = Some(Ok(()));
                Ok(false)
            }
            Err(error) => self.refuse(error),
        }
    }

    fn stop(&mut self, error: ReadError) -> Result<bool, ReadError>
        ensures result { result ≡ Err error }
        ensures stopped { self.new ≡ record self.old { ended = Some (Err error) } }
    {
        self.ended = Some(Err(error));
        Err(error)
    }
}
