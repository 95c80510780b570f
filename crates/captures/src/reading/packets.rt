//! The packets of some bytes of a capture.
ghost use Rattle.std.specs.Prelude.{◌≡◌, ◌≤◌, ◌<◌, ◌+◌, ◌*◌, length, IfSome, None};
ghost use Rattle.std.specs.Iterator.{at_most};
ghost use Rattle.captures.specs.Framed.{frame_bytes};
ghost use Rattle.captures.specs.PacketSteps.{StepsTo};
ghost use Rattle.captures.specs.Units.{skipped_in};
ghost use Rattle.captures.specs.declared.state.State.TheVariants.{Start};

use crate::packet::Packet;
use crate::reading::prefix::first_packet;
use crate::state::State;
use crate::{CaptureError, Skipped, Unfit};

/// An iterator over the whole packets at the start of some bytes of a capture, which reads and
/// allocates nothing.
///
/// A packet of which no byte was captured is not among them, and one that can't be reported ends
/// them or is passed over, as [`Unfit`] says. Once it has returned `None` it returns no other
/// packet. What it left, [`Packets::rest`] and [`Packets::refusal`] return.
#[derive(Drop)]
pub struct Packets<'a> {
    state: State,
    rest: &'a [u8],
    refusal: Option<CaptureError>,
}

impl<'a> Packets<'a> {
    /// The packets of a capture that begins with these bytes.
    pub fn new(unfit: Unfit, bytes: &'a [u8]) -> Packets<'a>
        ensures state { result.state ≡ Start unfit }
        ensures rest { result.rest.now ≡ bytes.now }
    {
        Packets::following(State::Start(unfit), bytes)
    }

    /// The packets of what follows some units, with the state of the capture after them.
    pub(crate) fn following(state: State, bytes: &'a [u8]) -> Packets<'a>
        ensures state { result.state ≡ state }
        ensures rest { result.rest.now ≡ bytes.now }
    {
        Packets {
            state,
            rest: bytes,
            refusal: None,
        }
    }

    /// The bytes after the packets that it has given: in the end those of a packet or block that
    /// isn't whole, or that is refused.
    #[inline(always)]
    pub fn rest(&self) -> &'a [u8]
        ensures { result.now ≡ self.now.rest.now }
    {
        self.rest
    }

    /// Why nothing can follow, once it has returned `None`. If nothing is refused, the bytes end
    /// the capture or more must follow them.
    #[inline(always)]
    pub fn refusal(&self) -> Option<CaptureError>
        ensures { result ≡ self.now.refusal }
    {
        self.refusal
    }

    /// How many packets were passed over so far.
    pub fn skipped(&self) -> Skipped
        ensures { result ≡ skipped_in self.now.state }
    {
        self.state.skipped()
    }

    /// Continues where this left off: `bytes` are its rest and more after it.
    pub fn go_on<'b>(self, bytes: &'b [u8]) -> Packets<'b>
        ensures state { result.state ≡ self.entry.state }
        ensures rest { result.rest.now ≡ bytes.now }
    {
        Packets::following(self.state, bytes)
    }

    #[inline(always)]
    pub(crate) fn state(&self) -> State
        ensures { result ≡ self.now.state }
    {
        self.state
    }

    /// The next packet.
    #[inline(always)]
    pub(crate) fn step(&mut self) -> Option<Packet<'a>>
        ensures steps { StepsTo self.old result self.new }
        ensures fits { length self.new.rest.now ≤ length self.old.rest.now }
        ensures room { IfSome result (λ packet. 52 + 2 * length (frame_bytes packet.frame)
            + 5 * length self.new.rest.now ≤ 5 * length self.old.rest.now) }
    {
        let prefix = first_packet(&mut self.state, self.rest);
        self.rest = prefix.rest;
        self.refusal = prefix.refusal;
        prefix.packet
    }
}

impl<'a> Iterator for Packets<'a> {
    type Item = Packet<'a>;

    ghost next_gives = { StepsTo };

    ghost remaining = { λ packets. at_most (length packets.rest.now) };

    #[inline(always)]
    fn next(&mut self) -> Option<Packet<'a>> {
        self.step()
    }
}
