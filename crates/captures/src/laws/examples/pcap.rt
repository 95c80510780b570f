//! Classic captures (draft-ietf-opsawg-pcap, sections 4 and 5).

ghost use Rattle.std.specs.Prelude.{◌≡◌, ◌^◌, ℕ, List, [], ◌∷◌, ◌++◌, replicate, length, codes, true, false, None};
ghost use Rattle.captures.specs.CapturedFrames.{CapturedFrame};
ghost use Rattle.captures.specs.Examples.{empty_record, file_after, file_header, numbered, packet_at, packet_record};
ghost use Rattle.captures.specs.Framed.{link_of};
ghost use Rattle.captures.specs.Lines.{blank};
ghost use Rattle.captures.specs.Numbers.{half, word};
ghost use Rattle.captures.specs.PacketSteps.{Gives};
ghost use Rattle.captures.specs.Pcap.{IsFileHeader, IsPacketRecord, is_magic, link_type, record_captured_len};
ghost use Rattle.captures.specs.Pcap.{record_wire_len};
ghost use Rattle.captures.specs.CaptureRuns.{IsCapture};
ghost use Rattle.captures.specs.Skipping.{none_skipped};
ghost use Rattle.captures.specs.Encoding.{IsWritable};
ghost use Rattle.captures.specs.Units.{HasLongFrame, HasNoFrame, HasOtherLink, IsShortRecord, Takes};
ghost use Rattle.captures.specs.declared.byte_order.ByteOrder.TheVariants.{Big, Little};
ghost use Rattle.captures.specs.declared.extra.Extra.TheVariants.{Nothing};
ghost use Rattle.captures.specs.declared.link.kind.Link.TheVariants.{Ethernet, Ip};
ghost use Rattle.captures.specs.declared.state.State.TheVariants.{Start};
ghost use Rattle.captures.specs.declared.unfit.Unfit.TheVariants.{Refuse};

/// Numbers in both byte orders.
pub fn numbers()
    ensures high_first { (half Big (9 ∷ 1 ∷ 2 ∷ []) 1 ≡ 0x0102)
        × (word Big (9 ∷ 1 ∷ 2 ∷ 3 ∷ 4 ∷ []) 1 ≡ 0x01020304) }
    ensures low_first { (half Little (9 ∷ 1 ∷ 2 ∷ []) 1 ≡ 0x0201)
        × (word Little (9 ∷ 1 ∷ 2 ∷ 3 ∷ 4 ∷ []) 1 ≡ 0x04030201) }
{}

/// The two magic numbers, and some that are none: either in the other order, that of a patched
/// format, and the type of a section header.
pub fn magic_numbers()
    ensures read { (is_magic 0xa1b2c3d4 ≡ true) × (is_magic 0xa1b23c4d ≡ true) }
    ensures other { (is_magic 0xd4c3b2a1 ≡ false) × (is_magic 0x4d3cb2a1 ≡ false)
        × (is_magic 0xa1b2cd34 ≡ false) × (is_magic 0x0a0d0d0a ≡ false) }
{}

/// File headers of Ethernet in both orders, the second with a frame check sequence of 4 bytes (0x48 in
/// the upper bits of its last number), and headers of versions 2.3 and 1.4.
pub fn file_headers()
    ensures low_first { IsFileHeader Little (0xd4 ∷ 0xc3 ∷ 0xb2 ∷ 0xa1 ∷ 2 ∷ 0 ∷ 4 ∷ 0 ∷ replicate 8 0
        ++ 0xff ∷ 0xff ∷ 0 ∷ 0 ∷ 1 ∷ 0 ∷ 0 ∷ 0 ∷ []) }
    ensures high_first { IsFileHeader Big (0xa1 ∷ 0xb2 ∷ 0x3c ∷ 0x4d ∷ 0 ∷ 2 ∷ 0 ∷ 4 ∷ replicate 8 0
        ++ 0 ∷ 4 ∷ 0 ∷ 0 ∷ 0x48 ∷ 0 ∷ 0 ∷ 1 ∷ []) }
    ensures minor { IsFileHeader Little (0xd4 ∷ 0xc3 ∷ 0xb2 ∷ 0xa1 ∷ 2 ∷ 0 ∷ 3 ∷ 0 ∷ replicate 16 0)
        → ⊥ }
    ensures major { IsFileHeader Little (0xd4 ∷ 0xc3 ∷ 0xb2 ∷ 0xa1 ∷ 1 ∷ 0 ∷ 4 ∷ 0 ∷ replicate 16 0)
        → ⊥ }
    ensures link { link_type Little (replicate 20 0 ++ 0x14 ∷ 1 ∷ 0 ∷ 0 ∷ []) ≡ 276 }
    ensures sequence { link_type Big (replicate 20 0 ++ 0x48 ∷ 0 ∷ 0 ∷ 1 ∷ []) ≡ 1 }
{}

/// A record states how many bytes follow it, and how many the packet had on the wire: 2 of 1500.
pub fn packet_records()
    ensures is_record { IsPacketRecord Little (replicate 8 0 ++ 2 ∷ 0 ∷ 0 ∷ 0 ∷ 0xdc ∷ 5 ∷ 0 ∷ 0 ∷ 7 ∷ 8
        ∷ []) (7 ∷ 8 ∷ []) }
    ensures wire { record_wire_len Little (replicate 8 0 ++ 2 ∷ 0 ∷ 0 ∷ 0 ∷ 0xdc ∷ 5 ∷ 0 ∷ 0 ∷ 7 ∷ 8
        ∷ []) ≡ 1500 }
    ensures high_first { record_wire_len Big packet_record ≡ 1500 }
    ensures captured { (record_captured_len Little (replicate 8 0 ++ 2 ∷ 0 ∷ 0 ∷ 0 ∷ 0xdc ∷ 5 ∷ 0 ∷ 0
        ∷ 7 ∷ 8 ∷ []) ≡ 2) × (record_captured_len Big packet_record ≡ 21) }
{}

/// A capture of one packet, whose first 21 bytes of 1500 were captured on LINUX_SLL2.
pub fn captures_of_records()
    ensures { IsCapture Refuse (file_header ++ packet_record)
        (packet_at 1700000000250000000 1494 ∷ []) none_skipped }
{}

/// A packet of which no byte was captured has a number too, and the one after it the next.
pub fn numbers_of_records()
    ensures { Gives (Start Refuse) (file_header ++ (empty_record ++ packet_record))
        (numbered 2 ∷ []) (file_after 2) [] }
{}

/// Where a capture stops: the head of a record on a link of PPP (9); one that states two bytes,
/// with one after it; one that states 99,992 bytes of an Ethernet frame, more than a line can hold;
/// and a record of an IP packet of version 5.
pub fn captures_that_stop()
    ensures link { HasOtherLink (link_of 9) Refuse (replicate 8 0 ++ 2 ∷ 0 ∷ 0 ∷ 0 ∷ 0xdc ∷ 5 ∷ 0 ∷ 0
        ∷ []) 9 }
    ensures cut_off { IsShortRecord Little Ethernet Refuse
        (replicate 8 0 ++ 2 ∷ 0 ∷ 0 ∷ 0 ∷ 0xdc ∷ 5 ∷ 0 ∷ 0 ∷ 7 ∷ []) }
    ensures too_long { HasLongFrame Big Ethernet Refuse
        (replicate 8 0 ++ 0 ∷ 1 ∷ 0x86 ∷ 0x98 ∷ 0 ∷ 1 ∷ 0x86 ∷ 0x98 ∷ []) 99_992 }
    ensures no_frame { HasNoFrame Big Ip Refuse
        (replicate 8 0 ++ 0 ∷ 0 ∷ 0 ∷ 2 ∷ 0 ∷ 0 ∷ 5 ∷ 0xdc ∷ 0x50 ∷ 0 ∷ []) }
{}

/// The line of that packet is reported before the five bytes after it, which begin another record.
pub fn packets_before_a_rest()
    ensures { Takes (blank Nothing) (Start Refuse)
        (file_header ++ packet_record ++ 0x65 ∷ 0x53 ∷ 0xf1 ∷ 0 ∷ 0x0e ∷ []) (file_after 1)
        (0x65 ∷ 0x53 ∷ 0xf1 ∷ 0 ∷ 0x0e ∷ [])
        (codes "frame 0 000000000000020000000001080045\n") None (blank Nothing) }
{}

/// The greatest frame that is written has as many bytes as a line can hold, its time is the last
/// nanosecond of 32 bits of seconds, and its length on the wire the greatest number of 32 bits, and
/// at least its own.
pub fn greatest_written_frames()
    ensures greatest { (frame : List ℕ) → length frame ≡ 99_991 → IsWritable
        (record {
          seconds = 4_294_967_295;
          nanoseconds = 999_999_999;
          wire_len = 4_294_967_295;
          frame = frame;
        }) }
    ensures longer { (given : CapturedFrame) → length given.frame ≡ 99_992 → IsWritable given → ⊥ }
    ensures later { (given : CapturedFrame) → given.seconds ≡ 2 ^ 32 → IsWritable given → ⊥ }
    ensures on_wire { (given : CapturedFrame) → given.wire_len ≡ 2 ^ 32 → IsWritable given → ⊥ }
    ensures fewer { (given : CapturedFrame) → given.wire_len ≡ 59 → length given.frame ≡ 60
        → IsWritable given → ⊥ }
    ensures nanoseconds { (given : CapturedFrame) → given.nanoseconds ≡ 1_000_000_000
        → IsWritable given → ⊥ }
{}
