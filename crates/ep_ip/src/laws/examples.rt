//! The definitions and laws at values from outside: each clause states a value of a standard or one
//! that was calculated by hand, so that a definition can't change with the code.

ghost use Rattle.std.specs.Prelude.{◌≡◌, [], ◌∷◌, ◌++◌, replicate, take, length, true, false, Ok, Err};
ghost use Rattle.ep_base.specs.declared.err.layer.Layer.TheVariants as layer;
ghost use Rattle.ep_base.specs.declared.len_source.LenSource.TheVariants as source;
ghost use Rattle.ep_base.specs.declared.net.ip_ecn.IpEcn.TheVariants as notification;
ghost use Rattle.ep_ip.specs.declared.err.ipv4.header_error.HeaderError.TheVariants as fault_4;
ghost use Rattle.ep_base.specs.declared.err.slice_error.SliceError.TheVariants as slice_error;
ghost use Rattle.ep_ip.specs.declared.err.ipv6.header_error.HeaderError.TheVariants as fault_6;
ghost use Rattle.ep_ip.specs.Examples.{ipv4_with_options, ipv4_with_reserved_bit, ipv4_of_all_ones, ipv6_example};
ghost use Rattle.ep_ip.specs.Examples.{two_headers};
ghost use Rattle.ep_ip.specs.Ipv4 as v4;
ghost use Rattle.ep_ip.specs.Ipv4Checksum.{right_checksum, HasRightChecksum};
ghost use Rattle.ep_ip.specs.Ipv4Fault as v4_fault;
ghost use Rattle.ep_ip.specs.Ipv4Options.{IsIpv4Options};
ghost use Rattle.ep_ip.specs.Ipv6 as v6;
ghost use Rattle.ep_ip.specs.Ipv6Fault as v6_fault;
ghost use Rattle.ep_ip.specs.Pseudo.{pseudo_v4, pseudo_v6};
ghost use Rattle.ep_ip.specs.Skip as walk;

use super::ipv4::same_fields_from_same_bytes;
use super::ipv6::skip_follows_every_walk;

/// An IPv4 header is found whatever follows it, and each fault has its fields and its position in
/// the order: fewer than 20 bytes, the version, the length field, fewer bytes than it says.
pub fn ipv4_headers_found()
    ensures found { v4_fault.header_at (ipv4_with_options ++ 170 ∷ 187 ∷ [])
        ≡ Ok ipv4_with_options }
    ensures short { v4_fault.header_at (replicate 19 99) ≡ Err (slice_error.Len (record {
      required_len = 20;
      len = 19;
      len_source = source.Slice;
      layer = layer.Ipv4Header;
      layer_start_offset = 0;
    })) }
    ensures version { v4_fault.header_at (replicate 20 99)
        ≡ Err (slice_error.Content (fault_4.UnexpectedVersion 6)) }
    ensures ihl { v4_fault.header_at (replicate 20 68)
        ≡ Err (slice_error.Content (fault_4.HeaderLengthSmallerThanHeader 4)) }
    ensures cut_off { v4_fault.header_at (replicate 20 79) ≡ Err (slice_error.Len (record {
      required_len = 60;
      len = 20;
      len_source = source.Slice;
      layer = layer.Ipv4Header;
      layer_start_offset = 0;
    })) }
{}

/// The fields of an IPv4 header, and its bytes again.
pub fn ipv4_fields()
    ensures fields { v4.ipv4_header_of ipv4_with_options ≡ record {
      dscp = 8;
      ecn = notification.Ect1;
      total_len = 30;
      identification = 7;
      dont_fragment = false;
      more_fragments = true;
      fragment_offset = 5;
      time_to_live = 64;
      protocol = record { 0 = 17 };
      header_checksum = 17311;
      source = 10 ∷ 0 ∷ 0 ∷ 1 ∷ [];
      destination = 10 ∷ 0 ∷ 0 ∷ 2 ∷ [];
      options = 1 ∷ 1 ∷ 1 ∷ 0 ∷ [];
    } }
    ensures bytes { v4.encoding (v4.ipv4_header_of ipv4_with_options) ≡ ipv4_with_options }
    ensures reserved { v4.with_reserved_bit_zero ipv4_with_reserved_bit ≡ ipv4_with_options }
{}

/// The checksum of an IPv4 header, and ffff in the field where it is 0.
#[tactic(auto, unfolding(ep_base::specs::Sum::total, ep_base::specs::Sum::fold))]
pub fn ipv4_checksums()
    ensures value { right_checksum (v4.ipv4_header_of ipv4_with_options) ≡ 17311 }
    ensures zero { right_checksum (v4.ipv4_header_of ipv4_of_all_ones) ≡ 0 }
    ensures other_zero { HasRightChecksum
        (record (v4.ipv4_header_of ipv4_of_all_ones) { header_checksum = 65535 }) }
{}

/// A packet is one of several fragments where more follow or its offset isn't 0.
pub fn fragments()
    ensures whole { v4.is_fragmenting false 0 ≡ false }
    ensures last { v4.is_fragmenting false 1 ≡ true }
    ensures first { v4.is_fragmenting true 0 ≡ true }
    ensures middle { v4.is_fragmenting true 8191 ≡ true }
{}

/// The length of a payload is what the total length leaves after the header, if only 0; a total
/// length below the header's is refused with both.
pub fn ipv4_payload_lengths()
    ensures some { v4_fault.IsPayloadLen 24 30 (Ok 6) }
    ensures none { v4_fault.IsPayloadLen 20 20 (Ok 0) }
    ensures refused { v4_fault.IsPayloadLen 20 19 (Err (record {
      required_len = 20;
      len = 19;
      len_source = source.Ipv4HeaderTotalLen;
      layer = layer.Ipv4Packet;
      layer_start_offset = 0;
    })) }
{}

/// Options are whole words, from none to ten.
pub fn ipv4_options()
    ensures none { IsIpv4Options [] }
    ensures ten_words { IsIpv4Options (replicate 40 1) }
    ensures half_a_word { ¬ (IsIpv4Options (replicate 6 1)) }
    ensures eleven_words { ¬ (IsIpv4Options (replicate 44 1)) }
{}

/// An IPv6 header is found whatever follows it, and the length is tested before the version.
pub fn ipv6_headers_found()
    ensures found { v6_fault.header_at (ipv6_example ++ 170 ∷ 187 ∷ []) ≡ Ok ipv6_example }
    ensures short { v6_fault.header_at (replicate 39 64) ≡ Err (slice_error.Len (record {
      required_len = 40;
      len = 39;
      len_source = source.Slice;
      layer = layer.Ipv6Header;
      layer_start_offset = 0;
    })) }
    ensures version { v6_fault.header_at (replicate 40 64)
        ≡ Err (slice_error.Content (fault_6.UnexpectedVersion 4)) }
{}

/// The fields of an IPv6 header, and its bytes again. Traffic class ab is the code point 42 and the
/// notification 3.
pub fn ipv6_fields()
    ensures fields { v6.ipv6_header_of ipv6_example ≡ record {
      traffic_class = 171;
      flow_label = 843505;
      payload_length = 4660;
      next_header = record { 0 = 17 };
      hop_limit = 64;
      source = 253 ∷ (replicate 14 0 ++ 1 ∷ []);
      destination = 253 ∷ (replicate 14 0 ++ 2 ∷ []);
    } }
    ensures bytes { v6.encoding (v6.ipv6_header_of ipv6_example) ≡ ipv6_example }
    ensures code_point { v6.dscp_in 171 ≡ 42 }
    ensures notification { v6.ecn_in 171 ≡ notification.CongestionExperienced }
    ensures other_notification { v6.ecn_in 169 ≡ notification.Ect1 }
{}

/// The layout of pseudo headers: over IPv4 (RFC 768) a zero byte, the number and a length of 2
/// bytes after the addresses, over IPv6 (RFC 8200, section 8.1) a length of 4 bytes, three zero
/// bytes and the number.
pub fn pseudo_headers()
    ensures v4 { pseudo_v4 (10 ∷ 0 ∷ 0 ∷ 1 ∷ []) (10 ∷ 0 ∷ 0 ∷ 2 ∷ []) 17 4660
        ≡ 10 ∷ 0 ∷ 0 ∷ 1 ∷ 10 ∷ 0 ∷ 0 ∷ 2 ∷ 0 ∷ 17 ∷ 18 ∷ 52 ∷ [] }
    ensures v6 { pseudo_v6 (253 ∷ (replicate 14 0 ++ 1 ∷ []))
        (253 ∷ (replicate 14 0 ++ 2 ∷ [])) 58 305419896
        ≡ 253 ∷ (replicate 14 0 ++ 1 ∷ 253 ∷
        (replicate 14 0 ++ 2 ∷ 18 ∷ 52 ∷ 86 ∷ 120 ∷ 0 ∷ 0 ∷ 0 ∷ 58 ∷ [])) }
{}

/// How long the header of a number is: a fragment header has 8 bytes whatever its second one, an
/// authentication header words of 4 after the first 8 bytes, every other words of 8. Without a
/// second byte two are needed.
pub fn lengths_of_skipped_headers()
    ensures fragment { walk.skipped_len 44 (17 ∷ 255 ∷ []) ≡ 8 }
    ensures authentication { walk.skipped_len 51 (17 ∷ 4 ∷ []) ≡ 24 }
    ensures options { walk.skipped_len 0 (17 ∷ 1 ∷ []) ≡ 16 }
    ensures greatest { walk.skipped_len 60 (17 ∷ 255 ∷ []) ≡ 2048 }
    ensures unknown { walk.required_len 44 (17 ∷ []) ≡ 2 }
    ensures known { walk.required_len 44 (17 ∷ 0 ∷ []) ≡ 8 }
{}

/// Whole headers by their lengths: options of 8 bytes and of 16 (RFC 8200, section 4.3), a fragment
/// header, whose second byte is reserved (section 4.5), and an authentication header with an integrity
/// check value of 96 bits, whose length field is 4 (RFC 4302, section 2.2). None is whole a byte too
/// short or too long, or without a second byte.
pub fn whole_headers()
    ensures options { walk.IsWhole 0 (60 ∷ replicate 7 0) }
    ensures longer_options { walk.IsWhole 60 (17 ∷ 1 ∷ replicate 14 0) }
    ensures fragment { walk.IsWhole 44 (17 ∷ 255 ∷ replicate 6 0) }
    ensures authentication { walk.IsWhole 51 (17 ∷ 4 ∷ replicate 22 0) }
    ensures cut_off { ¬ (walk.IsWhole 51 (17 ∷ 4 ∷ replicate 21 0)) }
    ensures too_long { ¬ (walk.IsWhole 44 (17 ∷ 0 ∷ replicate 7 0)) }
    ensures one_byte { ¬ (walk.IsWhole 44 (17 ∷ [])) }
{}

/// The walk over two headers: its end, where the second is cut off, where a header has no second
/// byte, and at a number of an extension header that isn't skipped.
#[tactic(auto, unfolding(crate::specs::Skip::headers_within, crate::specs::Skip::next_number_after))]
pub fn walks()
    ensures headers { walk.skipped_headers 0
        (60 ∷ (replicate 7 0 ++ 17 ∷ (replicate 7 0 ++ 170 ∷ 187 ∷ []))) ≡ two_headers }
    ensures ended { walk.skip 0 (60 ∷ (replicate 7 0 ++ 17 ∷ (replicate 7 0 ++ 170 ∷ 187 ∷ [])))
        ≡ Ok (17, 170 ∷ 187 ∷ []) }
    ensures cut_off { walk.skip 0 (60 ∷ (replicate 7 0 ++ 6 ∷ 1 ∷ 0 ∷ [])) ≡ Err (record {
      required_len = 16;
      len = 3;
      len_source = source.Slice;
      layer = layer.Ipv6ExtHeader;
      layer_start_offset = 8;
    }) }
    ensures one_byte { walk.skip 43 (6 ∷ []) ≡ Err (record {
      required_len = 2;
      len = 1;
      len_source = source.Slice;
      layer = layer.Ipv6ExtHeader;
      layer_start_offset = 0;
    }) }
    ensures payload { walk.skip 50 (replicate 8 0) ≡ Ok (50, replicate 8 0) }
    ensures none { walk.skip 59 [] ≡ Ok (59, []) }
{}

/// [`same_fields_from_same_bytes`] at two headers that differ in the reserved bit alone.
pub fn fields_without_the_reserved_bit()
    ensures { v4.ipv4_header_of ipv4_with_reserved_bit ≡ v4.ipv4_header_of ipv4_with_options }
{
    same_fields_from_same_bytes();
}

/// [`skip_follows_every_walk`] at a row of two headers.
pub fn walk_over_two_headers()
    ensures row { walk.Walk 0 (60 ∷ (replicate 7 0 ++ 17 ∷ (replicate 7 0 ++ 170 ∷ 187 ∷ [])))
        two_headers 17 (170 ∷ 187 ∷ []) }
    ensures answer { walk.skip 0 (60 ∷ (replicate 7 0 ++ 17 ∷ (replicate 7 0 ++ 170 ∷ 187 ∷ [])))
        ≡ walk.outcome 16 17 (170 ∷ 187 ∷ []) }
{
    skip_follows_every_walk();
}
