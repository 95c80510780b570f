//! Pcapng files (draft-ietf-opsawg-pcapng).

ghost use Rattle.std.specs.Prelude.{◌≡◌, ◌≢◌, ◌⊎◌, ℕ, List, [], ◌∷◌, ◌++◌, length, true, false, replicate, slice_set, take, Some};
ghost use Rattle.std.specs.Prelude.{None};
ghost use Rattle.captures.specs.Examples.{cooked_packet, cut_simple_block, described_section, empty_block};
ghost use Rattle.captures.specs.Examples.{enhanced_block, interface_block, longer_packet, numbered, obsolete_block};
ghost use Rattle.captures.specs.Examples.{origin_at, other_block, other_interface, packet_at, section_block, simple_block};
ghost use Rattle.captures.specs.Numbers.{word};
ghost use Rattle.captures.specs.Pcapng.{Becomes, IsEnhancedPacket, IsObsoletePacket, IsSimplePacket, IsTaken};
ghost use Rattle.captures.specs.Pcapng.{IsTimedPacket, Says, byte_order_magic, enhanced_packet};
ghost use Rattle.captures.specs.Pcapng.{interface_description, is_read_version, links_with, obsolete_packet};
ghost use Rattle.captures.specs.Pcapng.{block_wire_len, section_header, simple_packet, simple_packet_captured_len};
ghost use Rattle.captures.specs.Pcapng.Content.{Describes, Holds};
ghost use Rattle.captures.specs.CaptureRuns.{IsCapture};
ghost use Rattle.captures.specs.PacketSteps.{Gives};
ghost use Rattle.captures.specs.Skipping.{none_skipped, passing_from};
ghost use Rattle.captures.specs.Times.{usual_clock};
ghost use Rattle.captures.specs.Units.{HasBadLength, HasLongBlock, HasOtherBack, HasRefusedBlock, IsShortBlock};
ghost use Rattle.captures.specs.Units.{no_section, skipped_in};
ghost use Rattle.captures.specs.declared.byte_order.ByteOrder.{ByteOrder};
ghost use Rattle.captures.specs.declared.byte_order.ByteOrder.TheVariants.{Big, Little};
ghost use Rattle.captures.specs.declared.capture_error.CaptureError.TheVariants.{BadBlock, InterfaceLimit, LinkType};
ghost use Rattle.captures.specs.declared.link.kind.Link.TheVariants.{Ethernet, Ip, Other, Sll2};
ghost use Rattle.captures.specs.declared.origin.Origin.{Origin};
ghost use Rattle.captures.specs.declared.pcapng.section.Section.{Section};
ghost use Rattle.captures.specs.declared.state.State.{State};
ghost use Rattle.captures.specs.declared.state.State.TheVariants.{Start};
ghost use Rattle.captures.specs.declared.unfit.Unfit.TheVariants.{Refuse, Skip};

/// The types of blocks, and the magic number that gives the byte order (sections 4.1 to 4.4 and
/// appendix A).
pub fn block_types()
    ensures section { section_header ≡ 0x0a0d0d0a }
    ensures interface { interface_description ≡ 1 }
    ensures packets { (enhanced_packet ≡ 6) × (simple_packet ≡ 3) × (obsolete_packet ≡ 2) }
    ensures order { byte_order_magic ≡ 0x1a2b3c4d }
{}

/// The versions of sections: the format has 1.0, and 1.2 is to be read as that.
pub fn versions()
    ensures read { (is_read_version 1 0 ≡ true) × (is_read_version 1 2 ≡ true) }
    ensures minor { (is_read_version 1 1 ≡ false) × (is_read_version 1 3 ≡ false)
        × (is_read_version 1 256 ≡ false) × (is_read_version 1 65535 ≡ false) }
    ensures major { (is_read_version 0 0 ≡ false) × (is_read_version 2 0 ≡ false)
        × (is_read_version 2 2 ≡ false) × (is_read_version 256 0 ≡ false) }
{}

/// Of a simple packet the lesser of its length and of the snap length is there, and all of it where
/// the snap length is 0.
pub fn simple_packet_lengths()
    ensures whole { simple_packet_captured_len 96 60 ≡ 60 }
    ensures same { simple_packet_captured_len 96 96 ≡ 96 }
    ensures cut { simple_packet_captured_len 96 1500 ≡ 96 }
    ensures no_limit { simple_packet_captured_len 0 1500 ≡ 1500 }
{}

/// The description of an interface of LINUX_SLL2 (276) that cuts packets at 262,144 bytes.
pub fn interface_descriptions()
    ensures { (section : Section) → section.interfaces ≡ 0
        → Says section Little (1 ∷ 0 ∷ 0 ∷ 0 ∷ 20 ∷ 0 ∷ 0 ∷ 0 ∷ 0x14 ∷ 1 ∷ 0 ∷ 0 ∷ 0 ∷ 0 ∷ 4 ∷ 0 ∷ 20
        ∷ 0 ∷ 0 ∷ 0 ∷ []) (Describes 276 262144 usual_clock) }
{}

/// The 32nd interface of a section may have any link, one that isn't read too, the 33rd that of
/// Ethernet alone.
pub fn links_of_interfaces()
    ensures first { (section : Section) → section.interfaces ≡ 31
        → (links_with section 101 ≡ Some (slice_set section.links 31 Ip))
        × (links_with section 105 ≡ Some (slice_set section.links 31 (Other 105))) }
    ensures later { (section : Section) → section.interfaces ≡ 32
        → (links_with section 1 ≡ Some section.links) × (links_with section 101 ≡ None) }
{}

/// A block that is read has 262,144 bytes at most, and a custom one any length.
pub fn greatest_blocks()
    ensures read { (order : ByteOrder) (block : List ℕ) → word order block 0 ≡ 6
        → IsTaken order block 262_144 × (IsTaken order block 262_148 → ⊥) }
    ensures custom { (order : ByteOrder) (block : List ℕ) → word order block 0 ≡ 0x0bad
        → word Big block 0 ≢ 0x0a0d0d0a → IsTaken order block 4_294_967_292 }
{}

/// A packet that is too long for a line is passed over where such packets are, up to 262,128 bytes.
pub fn long_packets_are_passed_over()
    ensures { (section : Section) (order : ByteOrder) (origin : Origin) (packet : List ℕ)
        → section.passing ≡ passing_from Skip
        → (length packet ≡ 99_992) ⊎ (length packet ≡ 262_128)
        → Becomes section order (Holds origin Ethernet packet) (record section {
          passing = record {
            unfit = Skip;
            skipped = record { of_other_links = 0; too_long = 1; without_frame = 0 };
            seen = 1;
          };
        }) origin [] }
{}

/// A section of version 1.0, low byte first, with an interface of LINUX_SLL2 (276) that cuts packets at
/// 22 bytes, and three packets: a simple one of 21 bytes, a simple one of which 22 of 1500 bytes
/// are there, and an enhanced one of which 21 are. A simple packet has no time.
pub fn captures_of_blocks()
    ensures { IsCapture Refuse (section_block ++ (interface_block ++ (simple_block
        ++ (cut_simple_block ++ enhanced_block))))
        (packet_at 0 15 ∷ longer_packet ∷ packet_at 1700000000250000000 1494 ∷ []) none_skipped }
{}

/// A packet of another link that is passed over has a number too, and so has one of which no byte
/// was captured: the packet after both is the third.
pub fn numbers_of_blocks()
    ensures { (after : State) × Gives (Start Skip) (section_block ++ (interface_block
        ++ (other_interface ++ (other_block ++ (empty_block ++ enhanced_block)))))
        (numbered 3 ∷ []) after []
        × (skipped_in after ≡ record { of_other_links = 1; too_long = 0; without_frame = 0 }) }
{}

/// A packet in a block of each kind, after the description of that interface: a simple packet has
/// no time, an older kind counts dropped packets after its interface's number.
pub fn packets_of_blocks()
    ensures simple { IsSimplePacket described_section Little simple_block (origin_at 0 15) Sll2
        cooked_packet }
    ensures timed { IsTimedPacket 0 described_section Little enhanced_block
        (origin_at 1700000000250000000 1494) Sll2 cooked_packet }
    ensures enhanced { IsEnhancedPacket described_section Little enhanced_block
        (origin_at 1700000000250000000 1494) Sll2 cooked_packet }
    ensures obsolete { IsObsoletePacket described_section Little obsolete_block
        (origin_at 1700000000250000000 1494) Sll2 cooked_packet }
{}

/// How many bytes a packet had on the wire, by a block of each kind, and by an enhanced one whose
/// numbers have their high byte first: 1500 of each, and all 21 of one that wasn't cut.
pub fn lengths_on_the_wire()
    ensures simple { (block_wire_len Little simple_block ≡ 21)
        × (block_wire_len Little cut_simple_block ≡ 1500) }
    ensures enhanced { block_wire_len Little enhanced_block ≡ 1500 }
    ensures obsolete { block_wire_len Little obsolete_block ≡ 1500 }
    ensures high_first { block_wire_len Big (0 ∷ 0 ∷ 0 ∷ 6 ∷ replicate 20 0 ++ 0 ∷ 0 ∷ 5 ∷ 0xdc ∷ [])
        ≡ 1500 }
{}

/// Blocks that are cut off or have another length at their end than at their start, lengths below
/// 12 and of no whole words, and a block that is read and has 262,148 bytes.
pub fn lengths_that_stop()
    ensures cut_off { IsShortBlock (no_section Refuse) (take 24 section_block) }
    ensures other_back { HasOtherBack Little (5 ∷ 0 ∷ 0 ∷ 0 ∷ 12 ∷ 0 ∷ 0 ∷ 0 ∷ 16 ∷ 0 ∷ 0 ∷ 0 ∷ []) }
    ensures bad_back { HasBadLength described_section
        (5 ∷ 0 ∷ 0 ∷ 0 ∷ 12 ∷ 0 ∷ 0 ∷ 0 ∷ 16 ∷ 0 ∷ 0 ∷ 0 ∷ []) }
    ensures too_short { HasBadLength described_section
        (5 ∷ 0 ∷ 0 ∷ 0 ∷ 8 ∷ 0 ∷ 0 ∷ 0 ∷ 8 ∷ 0 ∷ 0 ∷ 0 ∷ []) }
    ensures no_words { HasBadLength described_section
        (5 ∷ 0 ∷ 0 ∷ 0 ∷ 14 ∷ 0 ∷ 0 ∷ 0 ∷ 0 ∷ 0 ∷ 14 ∷ 0 ∷ 0 ∷ 0 ∷ []) }
    ensures too_long { HasLongBlock described_section
        (6 ∷ 0 ∷ 0 ∷ 0 ∷ 4 ∷ 0 ∷ 4 ∷ 0 ∷ 0 ∷ 0 ∷ 0 ∷ 0 ∷ []) 262_148 }
{}

/// Whole blocks that are refused for what they say: a packet on an interface of PPP (9), a
/// description of IP (101) after 32 others, and one that is too short for its snap length.
pub fn blocks_that_are_refused()
    ensures link { HasRefusedBlock (record described_section {
      links = slice_set (replicate 32 Ethernet) 0 (Other 9);
    }) enhanced_block (LinkType 9) }
    ensures limit { HasRefusedBlock (record described_section { interfaces = 32 })
        (1 ∷ 0 ∷ 0 ∷ 0 ∷ 20 ∷ 0 ∷ 0 ∷ 0 ∷ 101 ∷ 0 ∷ 0 ∷ 0 ∷ 0 ∷ 0 ∷ 4 ∷ 0 ∷ 20 ∷ 0 ∷ 0 ∷ 0 ∷ 5
        ∷ []) (InterfaceLimit 101) }
    ensures bad { HasRefusedBlock described_section (1 ∷ 0 ∷ 0 ∷ 0 ∷ 16 ∷ 0 ∷ 0 ∷ 0 ∷ 1 ∷ 0 ∷ 0 ∷ 0
        ∷ 16 ∷ 0 ∷ 0 ∷ 0 ∷ []) BadBlock }
{}
