//! The definitions at literal packets by the RFCs' layouts, so that a definition can't change with
//! the code.
ghost use Rattle.std.specs.Prelude.{◌≡◌, true, false, [], ◌∷◌, Ok, Some};
ghost use Rattle.std.specs.Hash as fed;
ghost use Rattle.ep_base.specs.declared.len_source.LenSource.TheVariants as source;
ghost use Rattle.ep_ipslice.specs.Compared.{hashed_as};
ghost use Rattle.ep_ipslice.specs.Examples.{example_header, example_ipv4, example_ipv4_packet, example_ipv6};
ghost use Rattle.ep_ipslice.specs.Examples.{example_ipv6_packet, example_pieces, fragment_header};
ghost use Rattle.ep_ipslice.specs.Ipv4Packet.{ipv4_packet_at};
ghost use Rattle.ep_ipslice.specs.Packet.{IsIpv4Packet, IsIpv6Packet, ipv4_fragment_fields, ipv4_payload};
ghost use Rattle.ep_ipslice.specs.Packet.{ipv6_fragment_fields};

/// The parts of one IPv4 packet with an authentication header and padding, and what it says of its
/// payload.
pub fn ipv4_packet_at_a_literal()
    ensures found { ipv4_packet_at example_ipv4 ≡ Ok example_ipv4_packet }
    ensures packet { IsIpv4Packet example_ipv4 example_ipv4_packet }
    ensures payload { ipv4_payload example_ipv4_packet ≡ record {
      ip_number = record { 0 = 17 };
      fragmented = false;
      len_source = source.Ipv4HeaderTotalLen;
      payload = example_ipv4_packet.payload;
    } }
    ensures unfragmented { ipv4_fragment_fields example_header
        ≡ record { identification = 7; offset = 0; more = false } }
    ensures fragment { ipv4_fragment_fields fragment_header
        ≡ record { identification = 258; offset = 5; more = true } }
    ensures is_fragment { (ipv4_payload (record example_ipv4_packet { header = fragment_header })).fragmented ≡ true }
{}

/// The parts of one IPv6 packet with hop-by-hop options, a fragment header and padding, and what it
/// says of its payload as a fragment.
pub fn ipv6_packet_at_a_literal()
    ensures packet { IsIpv6Packet example_ipv6 example_ipv6_packet }
    ensures fragment { ipv6_fragment_fields example_pieces
        ≡ Some (record { identification = 16909060; offset = 1; more = true }) }
{}

/// What a hasher is fed of one payload: number, flag, the index of its length's source among the
/// sources, and the bytes.
pub fn payload_hash_at_a_literal()
    ensures { hashed_as example_ipv6_packet.payload
        ≡ (17 ∷ []) ∷ (1 ∷ []) ∷ (3 ∷ []) ∷ fed.slice fed.u8 (1 ∷ 2 ∷ 3 ∷ 4 ∷ 5 ∷ 6 ∷ 7 ∷ 8 ∷ []) }
{}
