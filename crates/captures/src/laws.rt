//! Laws of captures: the contract of each function is the law, and its body is empty.

pub mod examples;

ghost use Rattle.std.specs.Prelude.{◌≡◌, ◌≢◌, ◌⊎◌, ◌≤◌, ◌<◌, ◌+◌, ◌*◌, ◌%◌, ◌^◌, ℕ, List, [], ◌∷◌, codes, length};
ghost use Rattle.std.specs.Prelude.{Option, Some};
ghost use Rattle.std.specs.List.{AllByRecursion};
ghost use Rattle.ep_base.specs.Traits.{IsPlainData};
ghost use Rattle.hex.specs.Hex.{IsBytes};
ghost use Rattle.captures.specs.ComeBack.{CapturedPacketsHaveLines, LinesComeBack, TimedLinesComeBack};
ghost use Rattle.captures.specs.Forgetting.{ForgetDrops, ForgetKeeps, forgets};
ghost use Rattle.captures.specs.Framed.{FrameParts, captured_len, frame_parts};
ghost use Rattle.captures.specs.Lines.{Packet, blank, line_of};
ghost use Rattle.captures.specs.Numbers.{half, word};
ghost use Rattle.captures.specs.Pcapng.{Content, HasOrder, RefusesBlock, Says};
ghost use Rattle.captures.specs.Pcapng.Content.{Opens};
ghost use Rattle.captures.specs.CaptureRuns.{ArePassedOver, IsCapture};
ghost use Rattle.captures.specs.Skipping.{none_skipped};
ghost use Rattle.captures.specs.Texts.{IsText};
ghost use Rattle.captures.specs.Units.{RefusesAt, Takes};
ghost use Rattle.captures.specs.declared.byte_order.ByteOrder.{ByteOrder};
ghost use Rattle.captures.specs.declared.capture_error.CaptureError.{CaptureError};
ghost use Rattle.captures.specs.declared.capture_error.CaptureError.TheVariants.{InterfaceLimit, LinkType, BadBlock, FrameTooLong};
ghost use Rattle.captures.specs.declared.capture_error.CaptureError.TheVariants.{BlockTooLong, Version};
ghost use Rattle.captures.specs.declared.link.kind.Link.{Link};
ghost use Rattle.captures.specs.declared.pcapng.section.Section.{Section};
ghost use Rattle.captures.specs.declared.state.State.{State};
ghost use Rattle.captures.specs.declared.state.State.TheVariants.{Start};
ghost use Rattle.captures.specs.declared.skipped.Skipped.{Skipped};
ghost use Rattle.captures.specs.declared.unfit.Unfit.{Unfit};
ghost use Rattle.captures.specs.declared.unfit.Unfit.TheVariants.{Refuse, Skip};
ghost use Rattle.captures.specs.Encoding.{IsWritable, capture_of, packets_in};
ghost use Rattle.captures.specs.CapturedFrames.{CapturedFrame};
ghost use Rattle.captures.specs.declared.extra.Extra.{Extra};
ghost use Rattle.captures.specs.declared.extra.Extra.TheVariants.{Forget};
ghost use Rattle.captures.specs.declared.text.ledger.Ledger.{Ledger};
ghost use Rattle.captures.specs.declared.time.time_unit.TimeUnit.{TimeUnit};

pub mod spans;

use crate::limits::{BLOCK_LIMIT, FIRST_UNIT_LEN, INPUT_CAPACITY, SKIPPED_LIMIT, TIME_LIMIT};
use crate::pcapng::section::ETHERNET;
use crate::{
    BadLine, CaptureError, Extra, FRAME_LIMIT, Header, LineFault, Link, Position, ReadError,
    RefusedAt, RunError, Skipped, TimeUnit, Unfit,
};
use device_runs::Fault;
use ep_base::laws::traits::Value;

/// What is written is read again, as the same frames in the same order, at their times.
pub fn written_frames_are_read()
    ensures { (frames : List CapturedFrame) → AllByRecursion IsWritable frames
        → (unfit : Unfit) (time_unit : TimeUnit)
        → IsCapture unfit (capture_of time_unit frames) (packets_in time_unit frames)
        none_skipped }
{}

/// The packets of a capture are determined by its bytes, and so is how many are passed over.
pub fn capture_is_alone()
    ensures { (unfit : Unfit) (bytes : List ℕ) (packets packets' : List Packet)
        (skipped skipped' : Skipped) → IsBytes bytes
        → IsCapture unfit bytes packets skipped → IsCapture unfit bytes packets' skipped'
        → (packets ≡ packets') × (skipped ≡ skipped') }
{}

/// How many packets of some bytes are passed over is determined by the bytes, whether more must
/// follow them or they are refused.
pub fn passed_over_is_alone()
    ensures { (unfit : Unfit) (bytes : List ℕ) (skipped skipped' : Skipped) → IsBytes bytes
        → ArePassedOver unfit skipped bytes → ArePassedOver unfit skipped' bytes
        → skipped ≡ skipped' }
{}

/// A capture that is reported whole where packets that can't be reported are refused is reported
/// the same where they are passed over.
pub fn reported_whole_by_both()
    ensures { (bytes : List ℕ) (packets : List Packet) (skipped : Skipped)
        → IsCapture Refuse bytes packets skipped → IsCapture Skip bytes packets skipped }
{}

/// What is reported of any bytes, whether more must follow them or they are refused, is determined
/// by them.
pub fn reported_is_alone()
    ensures { (extra : Extra) (unfit : Unfit) (bytes rest rest' text text' : List ℕ)
        (state state' : State) (refusal refusal' : Option CaptureError)
        (noted noted' : Ledger) → IsBytes bytes
        → Takes (blank extra) (Start unfit) bytes state rest text refusal noted
        → Takes (blank extra) (Start unfit) bytes state' rest' text' refusal' noted'
        → text ≡ text' }
{}

/// The frames of a text of lines are determined by its bytes.
pub fn text_is_alone()
    ensures { (bytes : List ℕ) (frames frames' : List CapturedFrame) → IsText bytes frames
        → IsText bytes frames' → frames ≡ frames' }
{}

/// The bytes of a packet that has some are as many as were captured, by its frame and its link.
pub fn captured_lengths()
    ensures { (link : Link) (packet : List ℕ) (frame : FrameParts) → 0 < length packet
        → frame_parts link packet ≡ Some frame → captured_len link frame ≡ length packet }
{}

/// While all packets after a packet come less than this many seconds later, by their times, no line
/// has its reassembly dropped.
pub fn forget_keeps()
    ensures { ForgetKeeps }
{}

/// Where no packet before it is later, its reassembly is dropped in time: let a packet come this
/// many seconds after it, and then one that comes this many seconds after each up to that one. A
/// line with a greater number than its own comes before that packet's line, or earlier.
pub fn forget_drops()
    ensures { ForgetDrops }
{}

/// The lines of six packets, with spans of ten seconds: at 100, 105, 110, 119, 90 and 121 seconds.
pub fn worked_spans()
    ensures { (packet : ℕ → Packet)
        → ((second : ℕ) → (packet second).origin.time ≡ 1_000_000_000 * second)
        → forgets 10 (blank (Forget 10)) (packet 100 ∷ packet 105 ∷ packet 110 ∷ packet 119
        ∷ packet 90 ∷ packet 121 ∷ []) ≡ 1 ∷ 3 ∷ [] }
{}

/// Each packet of a capture has at least one byte, no more than a line can hold, and a channel of
/// 32 bits; and it had at least as many bytes on the wire as its frame has.
pub fn captured_packets_have_lines()
    ensures { CapturedPacketsHaveLines }
{}

/// The lines of packets are a text of which a capture of the same frames in the same order is
/// written: the same packets where all have channel 0 and no time.
pub fn lines_come_back()
    ensures { LinesComeBack }
{}

/// With times the packets of that capture have their times too, in whole microseconds, or in
/// nanoseconds where the capture is written in these, and their frames the lengths that they had on
/// the wire.
pub fn timed_lines_come_back()
    ensures { TimedLinesComeBack }
{}

/// The line of a frame that isn't too long has 200,000 bytes at most before its end, whatever its
/// channel.
pub fn lines_are_short()
    ensures { (packet : Packet) → packet.origin.channel < 2 ^ 32 → length packet.frame ≤ FRAME_LIMIT
        → length (line_of packet) ≤ 200_001 }
{}

/// The line of two bytes.
pub fn worked_line()
    ensures { line_of (record {
      origin = record { channel = 7; time = 0; wire_len = 2 };
      frame = 0x0a ∷ 0xff ∷ [];
    }) ≡ codes "frame 7 0aff\n" }
{}

/// A block of the kind of a section header begins a section with 28 bytes at least and version 1.0
/// or 1.2, and any other version is refused by its numbers.
pub fn section_header_lengths()
    ensures short { (section : Section) (order : ByteOrder) (block : List ℕ) (content : Content)
        → word order block 0 ≡ 0x0a0d0d0a → length block < 28
        → Says section order block content → ⊥ }
    ensures long { (section : Section) (order : ByteOrder) (block : List ℕ)
        → word order block 0 ≡ 0x0a0d0d0a → 28 ≤ length block → half order block 12 ≡ 1
        → (half order block 14 ≡ 0) ⊎ (half order block 14 ≡ 2)
        → section.first + section.interfaces < 2 ^ 32
        → Says section order block (Opens (section.first + section.interfaces)) }
    ensures other { (section : Section) (order : ByteOrder) (block : List ℕ)
        → word order block 0 ≡ 0x0a0d0d0a → 28 ≤ length block
        → (half order block 12 ≢ 1) ⊎ ((half order block 14 ≢ 0) × (half order block 14 ≢ 2))
        → RefusesBlock section order block (Version (half order block 12) (half order block 14)) }
{}

/// An interface description of fewer than 20 bytes is not well made, whatever its link type is.
pub fn interface_description_lengths()
    ensures { (section : Section) (order : ByteOrder) (block : List ℕ)
        → word order block 0 ≡ 1 → length block < 20
        → RefusesBlock section order block BadBlock
        × ((number : ℕ) → RefusesBlock section order block (InterfaceLimit number) → ⊥) }
{}

/// A packet block with fewer bytes than it states is not well made, however many it states and
/// whatever its link type is: an enhanced (6) or obsolete packet (2) has 32 more.
pub fn packet_lengths()
    ensures { (section : Section) (order : ByteOrder) (block : List ℕ)
        → (word order block 0 ≡ 6) ⊎ (word order block 0 ≡ 2)
        → length block < 32 + word order block 20
        → RefusesBlock section order block BadBlock
        × ((captured : ℕ) → RefusesBlock section order block (FrameTooLong captured) → ⊥)
        × ((number : ℕ) → RefusesBlock section order block (LinkType number) → ⊥) }
{}

/// A block whose length is no whole words is not too long, however long it is: it is not well made.
pub fn block_lengths_in_words()
    ensures long { (section : Section) (bytes : List ℕ) (len : ℕ) → len % 4 ≢ 0
        → RefusesAt section bytes (BlockTooLong len) → ⊥ }
    ensures bad { (section : Section) (order : ByteOrder) (bytes : List ℕ) → 12 ≤ length bytes
        → HasOrder section.order bytes order → word order bytes 4 % 4 ≢ 0
        → RefusesAt section bytes BadBlock }
{}

/// A copy of an error is the error and takes no memory. Equal are the errors that are the same,
/// with the values in them.
pub fn types_are_plain_data()
    ensures capture_error { IsPlainData ⟦<CaptureError as Value>⟧ }
    ensures position { IsPlainData ⟦<Position as Value>⟧ }
    ensures run_error { IsPlainData ⟦<RunError as Value>⟧ }
    ensures bad_line { IsPlainData ⟦<BadLine as Value>⟧ }
    ensures line_fault { IsPlainData ⟦<LineFault as Value>⟧ }
    ensures unfit { IsPlainData ⟦<Unfit as Value>⟧ }
    ensures extra { IsPlainData ⟦<Extra as Value>⟧ }
    ensures time_unit { IsPlainData ⟦<TimeUnit as Value>⟧ }
    ensures skipped { IsPlainData ⟦<Skipped as Value>⟧ }
    ensures fault { IsPlainData ⟦<Fault as Value>⟧ }
    ensures header { IsPlainData ⟦<Header as Value>⟧ }
    ensures link { IsPlainData ⟦<Link as Value>⟧ }
    ensures read_error { IsPlainData ⟦<ReadError as Value>⟧ }
    ensures refused_at { IsPlainData ⟦<RefusedAt as Value>⟧ }
{}

/// The numbers that the definitions take from the code.
pub fn constants()
    ensures skipped { SKIPPED_LIMIT ≡ 262_128 }
    ensures block { BLOCK_LIMIT ≡ 262_144 }
    ensures first { FIRST_UNIT_LEN ≡ 24 }
    ensures input { INPUT_CAPACITY ≡ 262_144 }
    ensures time { TIME_LIMIT ≡ 4_294_967_295_999_999_999 }
    ensures ethernet { ETHERNET ≡ 1 }
{}
