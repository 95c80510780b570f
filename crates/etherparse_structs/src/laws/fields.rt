//! What is read beyond the fields of a packet: options, extension headers and ICMP messages.
ghost use Rattle.std.specs.Prelude.{◌≡◌, ◌+◌, ◌-◌, ◌*◌, ◌^◌, ◌<◌, ◌≤◌, ℕ, List, [], ◌∷◌, ◌++◌, length, map, replicate, true, Ok, Some};
ghost use Rattle.etherparse.specs.ext.Chain.{Row};
ghost use Rattle.etherparse.specs.ext.Value.{Piece, bytes_of};
ghost use Rattle.etherparse.specs.ip.Ipv4 as ipv4;
ghost use Rattle.etherparse.specs.ipslice.Ipv6Exts.{view_order};
ghost use Rattle.etherparse.specs.tcpudp.Tcp as tcp;
ghost use Rattle.etherparse_structs.specs.Extension.{extensions_from, extensions_left, no_extension};
ghost use Rattle.etherparse_structs.specs.IcmpFields.{icmpv4_fields_in, icmpv6_fields_in, ndp_struct_in, no_icmp_fields, no_ndp};
ghost use Rattle.etherparse_structs.specs.Part.{options_part, part_at, part_bytes};
ghost use Rattle.etherparse_structs.specs.TcpOption.{no_tcp_option, options_left};
ghost use Rattle.etherparse_structs.specs.Transport.{tcp_struct};

use crate::icmp_fields::{
    ICMP_DESTINATION_UNREACHABLE, ICMP_ECHO_REPLY, ICMP_ECHO_REQUEST, ICMP_NONE,
    ICMP_PACKET_TOO_BIG, ICMP_PARAMETER_PROBLEM, ICMP_REDIRECT, ICMP_TIME_EXCEEDED,
    ICMP_TIMESTAMP_REPLY, ICMP_TIMESTAMP_REQUEST, ICMP_UNKNOWN,
};
use etherparse::laws::ext::whole_header_is_found;

/// Where a TCP segment is in the bytes of a packet, the part of its options has their bytes.
#[tactic(auto, using(crate::proofs::PacketFields::options_are))]
pub fn options_of_segments()
    ensures { (before message after : List ℕ) → tcp.ReadableTcp message
        → length before + 20 < 2 ^ 64
        → part_bytes (before ++ (message ++ after))
        (options_part 20 (tcp_struct (length before) message).header) ≡ tcp.options_of message }
{}

/// The same of the options of an IPv4 header.
#[tactic(auto, using(crate::proofs::PacketFields::ipv4_options_are))]
pub fn options_of_ipv4_headers()
    ensures { (before header after : List ℕ) → ipv4.IsIpv4Header header
        → length before + 20 < 2 ^ 64
        → part_bytes (before ++ (header ++ after))
        (options_part 20 (part_at (length before) header)) ≡ ipv4.options_of header }
{}

/// Where the extension headers of an IPv6 packet are in its bytes, they are those that are left there,
/// each once and in their order.
#[tactic(auto, using(crate::proofs::PacketFields::headers_are))]
pub fn extension_headers_are_left()
    ensures { (before after : List ℕ) (first : ℕ) (pieces : List Piece) (last : ℕ)
        → Row view_order [] first pieces last
        → extensions_left (before ++ (bytes_of pieces ++ after)) (record {
          left = part_at (length before) (bytes_of pieces);
          next_header = first;
        }) ≡ extensions_from (length before) pieces }
{
    whole_header_is_found();
}

/// Options of TCP (RFC 9293, section 3.2; RFC 7323; RFC 2018), after a byte that isn't theirs: of each
/// kind, with the end of the list; and each fault, after which nothing is read.
pub fn tcp_options()
    ensures syn { options_left (9 ∷ 2 ∷ 4 ∷ 5 ∷ 180 ∷ 4 ∷ 2 ∷ 8 ∷ 10 ∷ 0 ∷ 0 ∷ 1 ∷ 0 ∷ 0 ∷ 0 ∷ 0 ∷ 2 ∷
        1 ∷ 3 ∷ 3 ∷ 7 ∷ 0 ∷ 1 ∷ []) (record { offset = 1; len = 22 }) ≡
        record no_tcp_option { kind = 2; maximum_segment_size = 1460 } ∷
        record no_tcp_option { kind = 4 } ∷
        record no_tcp_option { kind = 8; timestamp = 256; echoed_timestamp = 2 } ∷
        record no_tcp_option { kind = 1 } ∷
        record no_tcp_option { kind = 3; window_scale = 7 } ∷ [] }
    ensures blocks { options_left (5 ∷ 18 ∷ 0 ∷ 0 ∷ 0 ∷ 1 ∷ 0 ∷ 0 ∷ 1 ∷ 0 ∷ 0 ∷ 0 ∷ 0 ∷ 3 ∷ 0 ∷ 0 ∷ 0 ∷
        4 ∷ 0 ∷ 0 ∷ []) (record { offset = 0; len = 20 }) ≡ record no_tcp_option {
          kind = 5;
          block_count = 2;
          blocks = record { left_edge = 1; right_edge = 256 }
              ∷ record { left_edge = 3; right_edge = 4 }
              ∷ record { left_edge = 0; right_edge = 0 }
              ∷ record { left_edge = 0; right_edge = 0 } ∷ [];
        } ∷ [] }
    ensures unknown { options_left (1 ∷ 19 ∷ 4 ∷ 0 ∷ 0 ∷ 1 ∷ []) (record { offset = 0; len = 6 }) ≡
        record no_tcp_option { kind = 1 } ∷
        record no_tcp_option { kind = 19; fault = 3 } ∷ [] }
    ensures wrong_size { options_left (2 ∷ 3 ∷ 5 ∷ 1 ∷ []) (record { offset = 0; len = 4 }) ≡
        record no_tcp_option { kind = 2; fault = 2; stated_len = 3 } ∷ [] }
    ensures cut { options_left (3 ∷ 3 ∷ 7 ∷ []) (record { offset = 0; len = 2 }) ≡
        record no_tcp_option { kind = 3; fault = 1; needed = 3; there = 2 } ∷ [] }
{}

/// Extension headers (RFC 8200, section 4; RFC 4302), after a byte that isn't theirs: a hop-by-hop
/// options, a fragment and an authentication header.
#[tactic(auto, unfolding(ep_ipslice::specs::Ipv6Walk::pieces_within))]
pub fn extension_headers()
    ensures fragment { extensions_left (9 ∷ 44 ∷ 0 ∷ 1 ∷ 4 ∷ 0 ∷ 0 ∷ 0 ∷ 0 ∷ 51 ∷ 0 ∷ 3 ∷ 0xb9 ∷ 0xde ∷ 0xad ∷
        0xbe ∷ 0xef ∷ 17 ∷ 1 ∷ 0 ∷ 0 ∷ 0 ∷ 0 ∷ 0 ∷ 1 ∷ 0 ∷ 0 ∷ 0 ∷ 2 ∷ [])
        (record { left = record { offset = 1; len = 28 }; next_header = 0 }) ≡
        record no_extension {
          header = record { offset = 1; len = 8 };
          payload = record { offset = 3; len = 6 };
          layer = 14;
          number = 0;
          next_header = 44;
        } ∷ record no_extension {
          header = record { offset = 9; len = 8 };
          layer = 17;
          number = 44;
          next_header = 51;
          identification = 0xdeadbeef;
          fragment_offset = 119;
          more_fragments = true;
        } ∷ record no_extension {
          header = record { offset = 17; len = 12 };
          payload = record { offset = 29; len = 0 };
          layer = 10;
          number = 51;
          next_header = 17;
          spi = 1;
          sequence_number = 2;
        } ∷ [] }
    ensures routing { extensions_left (60 ∷ 0 ∷ 1 ∷ 4 ∷ 0 ∷ 0 ∷ 0 ∷ 0 ∷ 59 ∷ 0 ∷ 1 ∷ 4 ∷ 0 ∷ 0 ∷ 0 ∷ 0 ∷ [])
        (record { left = record { offset = 0; len = 16 }; next_header = 43 }) ≡
        record no_extension {
          header = record { offset = 0; len = 8 };
          payload = record { offset = 2; len = 6 };
          layer = 16;
          number = 43;
          next_header = 60;
        } ∷ record no_extension {
          header = record { offset = 8; len = 8 };
          payload = record { offset = 10; len = 6 };
          layer = 15;
          number = 60;
          next_header = 59;
        } ∷ [] }
{}

/// Messages of ICMPv4 (RFC 792; RFC 1191): an echo request, fragmentation needed, a redirect, a
/// parameter problem, a timestamp reply, and an information request, which has no kind.
#[tactic(auto, unfolding(ep_icmp::specs::Icmpv4::kind_at))]
pub fn icmpv4_messages()
    ensures echo { icmpv4_fields_in (Ok (8 ∷ 0 ∷ 0 ∷ 0 ∷ 0x12 ∷ 0x34 ∷ 0 ∷ 5 ∷ []))
        ≡ record no_icmp_fields { kind = 2; id = 0x1234; sequence_number = 5 } }
    ensures fragmentation { icmpv4_fields_in (Ok (3 ∷ 4 ∷ 0 ∷ 0 ∷ 9 ∷ 9 ∷ 5 ∷ 120 ∷ []))
        ≡ record no_icmp_fields { kind = 4; mtu = 1400 } }
    ensures redirect { icmpv4_fields_in (Ok (5 ∷ 1 ∷ 0 ∷ 0 ∷ 10 ∷ 0 ∷ 0 ∷ 254 ∷ []))
        ≡ record no_icmp_fields { kind = 5; gateway = 10 ∷ 0 ∷ 0 ∷ 254 ∷ [] } }
    ensures problem { icmpv4_fields_in (Ok (12 ∷ 0 ∷ 0 ∷ 0 ∷ 20 ∷ 0 ∷ 0 ∷ 0 ∷ []))
        ≡ record no_icmp_fields { kind = 7; pointer = 20 } }
    ensures timestamps { icmpv4_fields_in (Ok (14 ∷ 0 ∷ 0 ∷ 0 ∷ 0 ∷ 1 ∷ 0 ∷ 2 ∷ 0 ∷ 0 ∷ 0 ∷ 3 ∷ 0 ∷ 0 ∷ 0 ∷
        4 ∷ 0 ∷ 0 ∷ 0 ∷ 5 ∷ [])) ≡ record no_icmp_fields {
          kind = 9;
          id = 1;
          sequence_number = 2;
          originate_timestamp = 3;
          receive_timestamp = 4;
          transmit_timestamp = 5;
        } }
    ensures unknown { icmpv4_fields_in (Ok (15 ∷ 0 ∷ 0 ∷ 0 ∷ 0 ∷ 1 ∷ 0 ∷ 2 ∷ []))
        ≡ record no_icmp_fields { kind = 1 } }
{}

/// Messages of ICMPv6 (RFC 4443): an echo reply, a packet too big, and a parameter problem.
#[tactic(auto, unfolding(ep_icmp::specs::Icmpv6::kind_at))]
pub fn icmpv6_messages()
    ensures echo { icmpv6_fields_in (Ok (129 ∷ 0 ∷ 0 ∷ 0 ∷ 0x12 ∷ 0x34 ∷ 0 ∷ 5 ∷ []))
        ≡ record no_icmp_fields { kind = 3; id = 0x1234; sequence_number = 5 } }
    ensures too_big { icmpv6_fields_in (Ok (2 ∷ 0 ∷ 0 ∷ 0 ∷ 0 ∷ 1 ∷ 5 ∷ 0 ∷ []))
        ≡ record no_icmp_fields { kind = 10; mtu = 66816 } }
    ensures problem { icmpv6_fields_in (Ok (4 ∷ 1 ∷ 0 ∷ 0 ∷ 0 ∷ 0 ∷ 0 ∷ 40 ∷ []))
        ≡ record no_icmp_fields { kind = 7; pointer = 40 } }
{}

/// Messages of neighbor discovery (RFC 4861, section 4): a router advertisement, and a neighbor
/// advertisement that answers a solicitation.
pub fn neighbor_discovery()
    ensures router { ndp_struct_in (Some (Ok (134 ∷ 0 ∷ 0 ∷ 0 ∷ 64 ∷ 0x80 ∷ 7 ∷ 8 ∷ 0 ∷ 0 ∷ 0x75 ∷ 0x30 ∷
        0 ∷ 0 ∷ 3 ∷ 0xe8 ∷ []))) ≡ record no_ndp {
          icmp_type = 134;
          options_offset = 16;
          hop_limit = 64;
          managed = true;
          router_lifetime = 1800;
          reachable_time = 30000;
          retrans_timer = 1000;
        } }
    ensures neighbor { ndp_struct_in (Some (Ok (136 ∷ 0 ∷ 0 ∷ 0 ∷ 0x40 ∷ 0 ∷ 0 ∷ 0 ∷ replicate 16 7)))
        ≡ record no_ndp {
          icmp_type = 136;
          options_offset = 24;
          solicited = true;
          target = replicate 16 7;
        } }
{}

/// The numbers of the kinds of ICMP messages.
pub fn icmp_kinds() -> [u32; 11]
    ensures { result ≡ 0 ∷ 1 ∷ 2 ∷ 3 ∷ 4 ∷ 5 ∷ 6 ∷ 7 ∷ 8 ∷ 9 ∷ 10 ∷ [] }
{
    [
        ICMP_NONE,
        ICMP_UNKNOWN,
        ICMP_ECHO_REQUEST,
        ICMP_ECHO_REPLY,
        ICMP_DESTINATION_UNREACHABLE,
        ICMP_REDIRECT,
        ICMP_TIME_EXCEEDED,
        ICMP_PARAMETER_PROBLEM,
        ICMP_TIMESTAMP_REQUEST,
        ICMP_TIMESTAMP_REPLY,
        ICMP_PACKET_TOO_BIG,
    ]
}
