//! The definitions at literal values: each clause is what a standard gives, or was worked out
//! independently of the code, so that a definition can't change with the code.

ghost use Rattle.std.specs.Prelude.{◌≡◌, ℕ, [], ◌∷◌, ◌++◌, replicate, true, false, Ok, Err};
ghost use Rattle.ep_base.specs.LenError.{too_few_bytes};
ghost use Rattle.ep_base.specs.declared.err.layer.Layer.TheVariants as layer;
ghost use Rattle.ep_base.specs.declared.err.value_type.ValueType.TheVariants as value_type;
ghost use Rattle.ep_icmp.specs.Examples.{destination, letters, ping, source, three_bytes, timestamp, too_big};
ghost use Rattle.ep_icmp.specs.Icmpv4 as v4;
ghost use Rattle.ep_icmp.specs.Icmpv4Fault as v4_fault;
ghost use Rattle.ep_icmp.specs.Icmpv6 as v6;
ghost use Rattle.ep_icmp.specs.Icmpv6Fault as v6_fault;
ghost use Rattle.ep_icmp.specs.Layout.{with_unused_bytes_zero};
ghost use Rattle.ep_icmp.specs.Limit.{IsWithin};
ghost use Rattle.ep_icmp.specs.declared.transport.icmpv4.dest_unreachable_header.DestUnreachableHeader.TheVariants as unreachable_4;
ghost use Rattle.ep_icmp.specs.declared.transport.icmpv4_type.Icmpv4Type.TheVariants as kind_4;
ghost use Rattle.ep_icmp.specs.declared.transport.icmpv6_type.Icmpv6Type.TheVariants as kind_6;

/// ICMPv4 headers by their bytes, both ways (RFC 792).
#[tactic(auto, unfolding(crate::specs::Icmpv4::kind_at))]
pub fn icmpv4_headers()
    ensures echo { v4.icmpv4_header_of (ping ++ letters) ≡ record {
      icmp_type = kind_4.EchoRequest (record { id = 1; seq = 1 });
      checksum = 19802;
    } }
    ensures timestamp { v4.type_of timestamp ≡ kind_4.TimestampRequest (record {
      id = 4660;
      seq = 1;
      originate_timestamp = 16909060;
      receive_timestamp = 84281096;
      transmit_timestamp = 151653132;
    }) }
    ensures unknown { v4.type_of (3 ∷ 16 ∷ 0 ∷ 0 ∷ 1 ∷ 2 ∷ 3 ∷ 4 ∷ [])
        ≡ kind_4.Unknown 3 16 (1 ∷ 2 ∷ 3 ∷ 4 ∷ []) }
    ensures encoded { v4.encoding (record {
      icmp_type = kind_4.DestinationUnreachable (unreachable_4.FragmentationNeeded 1500);
      checksum = 258;
    }) ≡ 3 ∷ 4 ∷ 1 ∷ 2 ∷ 0 ∷ 0 ∷ 5 ∷ 220 ∷ [] }
    ensures unused { with_unused_bytes_zero (v4.layout_of (kind_4.DestinationUnreachable
        unreachable_4.Host))
        (3 ∷ 1 ∷ 5 ∷ 6 ∷ 1 ∷ 2 ∷ 3 ∷ 4 ∷ [])
        ≡ 3 ∷ 1 ∷ 5 ∷ 6 ∷ 0 ∷ 0 ∷ 0 ∷ 0 ∷ [] }
{}

/// Numbers that the table of ICMPv4 kinds names, and some that it doesn't.
#[tactic(auto, unfolding(crate::specs::Icmpv4::is_listed))]
pub fn icmpv4_numbers()
    ensures last_unreachable { v4.is_listed 3 15 ≡ true }
    ensures beyond { v4.is_listed 3 16 ≡ false }
    ensures timestamp { v4.is_listed 14 0 ≡ true }
    ensures source_quench { v4.is_listed 4 0 ≡ false }
{}

/// Where ICMPv4 messages end: a timestamp message, which carries no data, has 20 bytes.
pub fn icmpv4_lengths()
    ensures prefix { v4_fault.message_at (replicate 7 8) ≡ Err (too_few_bytes layer.Icmpv4 8 7) }
    ensures whole { v4_fault.message_at ping ≡ Ok ping }
    ensures request { v4_fault.message_at (13 ∷ replicate 7 0)
        ≡ Err (too_few_bytes layer.Icmpv4Timestamp 20 8) }
    ensures reply { v4_fault.message_at (14 ∷ replicate 20 0)
        ≡ Err (too_few_bytes layer.Icmpv4TimestampReply 20 21) }
    ensures timestamp { v4_fault.message_at timestamp ≡ Ok timestamp }
    ensures other_code { v4_fault.message_at (13 ∷ 1 ∷ replicate 6 0)
        ≡ Ok (13 ∷ 1 ∷ replicate 6 0) }
{}

/// Checksums of ICMPv4 messages: the header and data of an echo request, and a reply of zeros.
#[tactic(auto, unfolding(ep_base::specs::Sum::total, ep_base::specs::Sum::fold))]
pub fn icmpv4_checksums()
    ensures ping { v4.right_checksum (kind_4.EchoRequest (record { id = 1; seq = 1 })) letters
        ≡ 19802 }
    ensures zeros { v4.right_checksum (kind_4.EchoReply (record { id = 0; seq = 0 })) [] ≡ 65535 }
{}

/// ICMPv6 headers by their bytes, both ways, and their numbers (RFC 4443).
#[tactic(auto, unfolding(crate::specs::Icmpv6::kind_at, crate::specs::Icmpv6::is_listed))]
pub fn icmpv6_headers()
    ensures too_big { v6.icmpv6_header_of (too_big ++ three_bytes)
        ≡ record { icmp_type = kind_6.PacketTooBig 1500; checksum = 38999 } }
    ensures encoded { v6.encoding
        (record { icmp_type = kind_6.PacketTooBig 1500; checksum = 38999 }) ≡ too_big }
    ensures unknown { v6.type_of (135 ∷ 0 ∷ 0 ∷ 0 ∷ 1 ∷ 2 ∷ 3 ∷ 4 ∷ [])
        ≡ kind_6.Unknown 135 0 (1 ∷ 2 ∷ 3 ∷ 4 ∷ []) }
    ensures last_problem { v6.is_listed 4 10 ≡ true }
    ensures beyond { v6.is_listed 4 11 ≡ false }
    ensures short { v6_fault.message_at (replicate 7 128) ≡ Err (too_few_bytes layer.Icmpv6 8 7) }
{}

/// The checksum of an ICMPv6 message between two addresses, with a payload of an odd length.
#[tactic(auto, unfolding(ep_base::specs::Sum::total, ep_base::specs::Sum::fold))]
pub fn icmpv6_checksums()
    ensures { v6.right_checksum source destination (kind_6.PacketTooBig 1500) three_bytes ≡ 38999 }
{}

/// The greatest payload of an ICMPv6 message, whose length with the header has 32 bits in the pseudo
/// header, and one byte more, which is refused with both. (No test has the memory for it.)
pub fn icmpv6_greatest_payload()
    ensures greatest { IsWithin {A = ℕ} 1 4294967287 (Ok 1) }
    ensures more { IsWithin {A = ℕ} 1 4294967288 (Err (record {
      actual = 4294967288;
      max_allowed = 4294967287;
      value_type = value_type.Icmpv6PayloadLength;
    })) }
{}
