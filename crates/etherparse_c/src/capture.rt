//! Packets of capture files, and captures written.
ghost use Rattle.std.specs.Prelude.{◌≡◌, ◌≤◌, ◌<◌, ◌+◌, ◌++◌, ◌⊎◌, ℕ, List, [], length, true, false, None};
ghost use Rattle.captures.specs.Encoding.{file_header, record_head};
ghost use Rattle.captures.specs.Framed.{unfit_by};
ghost use Rattle.captures.specs.declared.packet.Packet.{Packet};
ghost use Rattle.captures.specs.declared.unfit.Unfit.{Unfit};
ghost use Rattle.etherparse_structs.specs.Capture.{AnswersEnd, AnswersNext, HasLeftOff, HasPassed, IsHandle, unit_by};
ghost use Rattle.etherparse_structs.specs.Captured.{captured_status, end_status};

use etherparse_structs::{
    EpCapture, EpCaptureEnding, EpCaptured, EpFileHeader, EpRecordHead, capture_header, packet_head,
};
use std::alloc::Global;

/// Opens a capture file, pcap or pcapng, before its first byte. A packet that can't be given, since it
/// has no Ethernet frame or is too long, ends it or, where `skips`, is passed over.
///
/// The result is 0 where it is open, 2 where there is no memory, and 4 where it was open before. Where
/// it isn't 0 nothing is changed.
#[unsafe(no_mangle)]
pub extern "C" fn ep_capture_new(alloc: Global, capture: &mut EpCapture, skips: bool) -> u32
    requires { IsHandle capture.old }
    ensures capture { IsHandle capture.new }
    ensures opened { result ≡ 0 → HasPassed (unfit_by skips) capture.new [] [] [] }
    ensures unchanged { 0 < result → capture.new ≡ capture.old }
    ensures wrong_state { capture.old.is_open ≡ true → result ≡ 4 }
    ensures codes { capture.old.is_open ≡ false → (result ≡ 0) ⊎ (result ≡ 2) }
{
    capture.begin(alloc, skips)
}

/// The first packet of these bytes, or why none can follow. The first call is passed the first bytes of
/// the file, and each other one those that weren't done with and what follows them. Where the status is
/// 7 more bytes have to be passed, in a buffer of 262,144 bytes at most; where there are none,
/// ep_capture_end says how the capture ends. Once it is refused, each call returns the same.
#[unsafe(no_mangle)]
pub extern "C" fn ep_capture_next(
    alloc: Global,
    capture: &mut EpCapture,
    bytes: &[u8],
) -> EpCaptured
    requires { IsHandle capture.old }
    ensures capture { IsHandle capture.new }
    ensures answers { (unfit : Unfit) (read left more : List ℕ) (given : List Packet)
        → HasPassed unfit capture.old read left given → bytes.now ≡ left ++ more
        → AnswersNext unfit capture.new (read ++ more) bytes.now given result }
    ensures done { result.done ≤ length bytes.now }
    ensures within { result.packet.bytes.offset + result.packet.bytes.len ≤ length bytes.now }
    ensures closed { capture.old.is_open ≡ false
        → (capture.new ≡ capture.old) × (result ≡ captured_status 4) }
{
    capture.next(alloc, bytes)
}

/// How a capture ends, where ep_capture_next needs more bytes and these are the last: those that weren't
/// done with.
#[unsafe(no_mangle)]
pub extern "C" fn ep_capture_end(
    alloc: Global,
    capture: &mut EpCapture,
    bytes: &[u8],
) -> EpCaptureEnding
    requires { IsHandle capture.old }
    ensures capture { IsHandle capture.new }
    ensures answers { (unfit : Unfit) (read : List ℕ) (given : List Packet)
        → HasLeftOff unfit capture.old read bytes.now given
        → AnswersEnd unfit capture.new read given result }
    ensures closed { capture.old.is_open ≡ false
        → (capture.new ≡ capture.old) × (result ≡ end_status 4) }
{
    capture.end(alloc, bytes)
}

/// Frees what a capture holds. One that isn't open stays as it is.
#[unsafe(no_mangle)]
pub extern "C" fn ep_capture_free(alloc: Global, capture: &mut EpCapture)
    requires { IsHandle capture.old }
    ensures closed { capture.new.is_open ≡ false }
    ensures freed { capture.old.is_open ≡ true → capture.new.held.value ≡ None }
    ensures unchanged { capture.old.is_open ≡ false → capture.new ≡ capture.old }
{
    capture.free(alloc);
}

/// The header of a pcap file of Ethernet frames, with times in microseconds or nanoseconds: version 2.4,
/// the low byte of each number first, a snap length of 262,144.
#[unsafe(no_mangle)]
pub extern "C" fn ep_capture_file_header(nanoseconds: bool) -> EpFileHeader
    ensures { result.bytes ≡ file_header (unit_by nanoseconds) }
{
    capture_header(nanoseconds)
}

/// The head of a packet record of such a file: its time, in seconds since 1970 and microseconds or
/// nanoseconds, how many bytes of the frame follow, and how many it had on the wire.
#[unsafe(no_mangle)]
pub extern "C" fn ep_capture_record_head(
    seconds: u32,
    fraction: u32,
    len: u32,
    wire_len: u32,
) -> EpRecordHead
    ensures { result.bytes ≡ record_head seconds fraction len wire_len }
{
    packet_head(seconds, fraction, len, wire_len)
}
