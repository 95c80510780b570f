//! A capture whose bytes a caller passes, and where its packets are.
ghost use Rattle.std.specs.Prelude.{◌≡◌, ◌≤◌, ◌<◌, ◌+◌, ◌++◌, ◌⊎◌, ℕ, List, [], length, true, false, Some, None, IfOk, IsSome};
ghost use Rattle.captures.specs.Framed.{unfit_by};
ghost use Rattle.captures.specs.Parsers.{HasParsed, LeavesOff};
ghost use Rattle.captures.specs.declared.packet.Packet.{Packet};
ghost use Rattle.captures.specs.declared.unfit.Unfit.{Unfit};
ghost use Rattle.etherparse_structs.specs.Capture.{AnswersEnd, AnswersNext, HasLeftOff, HasPassed, IsEnd, IsFound, IsHandle};
ghost use Rattle.etherparse_structs.specs.Captured.{captured_status, end_status};

use crate::capture_box::CaptureBox;
use crate::held_capture::HeldCapture;
use crate::{DONE, EpCaptureEnding, EpCaptured, NO_MEMORY, WRONG_STATE};
use c_handles::Loose;
use captures::{PacketParser, Unfit};
use std::alloc::{AllocError, Global};
use std::mem::replace;

/// A capture file, pcap or pcapng, whose bytes are passed from its first byte on. It starts as zeros, and
/// only these calls change it.
#[repr(C)]
#[derive(Drop)]
pub struct EpCapture {
    /// Whether it was opened and not freed.
    pub is_open: bool,
    /// For these calls alone.
    pub held: HeldCapture,
}

impl EpCapture {
    /// Opens it before its first byte. A packet that can't be given, since it has no Ethernet frame or is
    /// too long, ends it or, where `skips`, is passed over. The result is 0 where it is open, 2 where there
    /// is no memory, and 4 where it was open before. Where it isn't 0 nothing is changed.
    pub fn begin(&mut self, alloc: Global, skips: bool) -> u32
        requires { IsHandle self.old }
        ensures capture { IsHandle self.new }
        ensures opened { result ≡ 0 → HasPassed (unfit_by skips) self.new [] [] [] }
        ensures unchanged { 0 < result → self.new ≡ self.old }
        ensures wrong_state { self.old.is_open ≡ true → result ≡ 4 }
        ensures codes { self.old.is_open ≡ false → (result ≡ 0) ⊎ (result ≡ 2) }
    {
        if self.is_open {
            return WRONG_STATE;
        }
        let Ok(opened) = new_box(alloc, unfit_by(skips)) else {
            return NO_MEMORY;
        };
        put(self, opened);
        DONE
    }

    /// The first packet of these bytes, or why none can follow. They are those that aren't done with, and
    /// more.
    pub fn next(&mut self, alloc: Global, bytes: &[u8]) -> EpCaptured
        requires { IsHandle self.old }
        ensures capture { IsHandle self.new }
        ensures answers { (unfit : Unfit) (read left more : List ℕ) (given : List Packet)
            → HasPassed unfit self.old read left given → bytes.now ≡ left ++ more
            → AnswersNext unfit self.new (read ++ more) bytes.now given result }
        ensures done { result.done ≤ length bytes.now }
        ensures within { result.packet.bytes.offset + result.packet.bytes.len ≤ length bytes.now }
        ensures closed { self.old.is_open ≡ false
            → (self.new ≡ self.old) × (result ≡ captured_status 4) }
    {
        if !self.is_open {
            return EpCaptured::of_status(WRONG_STATE);
        }
        let mut opened = taken(alloc, self);
        let found = next_in(&mut opened.parser, bytes);
        put(self, opened);
        found
    }

    /// How it ends, where more bytes would have to follow these and none do.
    pub fn end(&mut self, alloc: Global, bytes: &[u8]) -> EpCaptureEnding
        requires { IsHandle self.old }
        ensures capture { IsHandle self.new }
        ensures answers { (unfit : Unfit) (read : List ℕ) (given : List Packet)
            → HasLeftOff unfit self.old read bytes.now given
            → AnswersEnd unfit self.new read given result }
        ensures closed { self.old.is_open ≡ false → (self.new ≡ self.old) × (result ≡ end_status 4) }
    {
        if !self.is_open {
            return EpCaptureEnding::of_status(WRONG_STATE);
        }
        let opened = taken(alloc, self);
        let ended = end_in(&opened.parser, bytes);
        put(self, opened);
        ended
    }

    /// Frees all that it holds. One that isn't open stays as it is.
    pub fn free(&mut self, alloc: Global)
        requires { IsHandle self.old }
        ensures closed { self.new.is_open ≡ false }
        ensures freed { self.old.is_open ≡ true → self.new.held.value ≡ None }
        ensures unchanged { self.old.is_open ≡ false → self.new ≡ self.old }
    {
        if self.is_open {
            drop(taken(alloc, self));
        }
    }
}

fn next_in(parser: &mut PacketParser, bytes: &[u8]) -> EpCaptured
    ensures found { (unfit : Unfit) (read left more : List ℕ) (given : List Packet)
        → HasParsed unfit parser.old read left given → bytes.now ≡ left ++ more
        → IsFound unfit parser.new (read ++ more) bytes.now given result }
    ensures done { result.done ≤ length bytes.now }
    ensures within { result.packet.bytes.offset + result.packet.bytes.len ≤ length bytes.now }
{
    EpCaptured::of(parser.next(bytes))
}

fn end_in(parser: &PacketParser, bytes: &[u8]) -> EpCaptureEnding
    ensures { (unfit : Unfit) (read : List ℕ) (given : List Packet)
        → LeavesOff unfit parser.now read bytes.now given None
        → IsEnd unfit parser.now read given result }
{
    EpCaptureEnding::of(parser.end(bytes))
}

fn unfit_by(skips: bool) -> Unfit
    ensures { result ≡ unfit_by skips }
{
    if skips { Unfit::Skip } else { Unfit::Refuse }
}

fn new_box(alloc: Global, unfit: Unfit) -> Result<Box<CaptureBox>, AllocError>
    ensures { IfOk result (λ opened. HasParsed unfit opened.value.parser [] [] []) }
{
    let opened = CaptureBox {
        parser: PacketParser::new(unfit),
    };
    match Box::new(alloc, opened) {
        Ok(opened) => Ok(opened),
        Err(_) => Err(AllocError),
    }
}

// What an open capture holds, which is closed then.
fn taken(alloc: Global, capture: &mut EpCapture) -> Box<CaptureBox>
    requires { IsSome capture.old.held.value }
    ensures opened { capture.old.held.value ≡ Some result.value }
    ensures closed { capture.new.is_open ≡ false }
    ensures none { capture.new.held.value ≡ None }
{
    capture.is_open = false;
    replace(&mut capture.held, HeldCapture::none())
        .into_loose(alloc)
        .into_box()
}

fn put(capture: &mut EpCapture, opened: Box<CaptureBox>)
    ensures held { capture.new.held.value ≡ Some opened.value }
    ensures opened { capture.new.is_open ≡ true }
{
    capture.held = HeldCapture::of(Loose::of(opened));
    capture.is_open = true;
}
