//! The definitions and laws at values from outside: each clause states a value of a standard or one
//! that was calculated by hand, so that a definition can't change with the code.

ghost use Rattle.std.specs.Prelude.{◌≡◌, ◌==◌, ◌%◌, ℕ, ⊤, [], ◌∷◌, true, false, Ok, Err, Some, None, codes, map, pos, replicate};
ghost use Rattle.std.specs.Hash as fed;
ghost use Rattle.std.specs.List.{flat_map};
ghost use Rattle.std.specs.Ordering.{nat_cmp};
ghost use Rattle.ep_base.specs.Bounded.{IsBounded};
ghost use Rattle.ep_base.specs.Bytes.{num, IsBytes};
ghost use Rattle.ep_base.specs.declared.err.layer.Layer.TheVariants as layer;
ghost use Rattle.ep_base.specs.declared.err.len_error.LenError.{LenError};
ghost use Rattle.ep_base.specs.declared.err.slice_error.SliceError.TheVariants as error;
ghost use Rattle.ep_base.specs.declared.err.value_type.ValueType.TheVariants as kind;
ghost use Rattle.ep_base.specs.declared.len_source.LenSource.TheVariants as source;
ghost use Rattle.ep_base.specs.declared.net.ip_dscp_known.IpDscpKnown.TheVariants as name;
ghost use Rattle.ep_base.specs.declared.net.ip_ecn.IpEcn.TheVariants as notification;
ghost use Rattle.ep_base.specs.IpDscpKnown.{IsKnown};
ghost use Rattle.ep_base.specs.IpEcn.{IsEcn};
ghost use Rattle.ep_base.specs.IpRegistry.{keyword_of, protocol_of};
ghost use Rattle.ep_base.specs.LenError.{CanMove, offset_by, too_few_bytes};
ghost use Rattle.ep_base.specs.SliceError as slice_error;
ghost use Rattle.ep_base.specs.Traits.{CopyIsValue, CopyNeverFails, DefaultIs, EqualIsSame, HashIsOf, OrderIsOf};
ghost use Rattle.ep_base.specs.Traits.{VariantFeeds};
ghost use Rattle.ep_base.specs.Sum.{IsCutAtWords, accumulator_sum, all_ones, checksum, fold, no_zero, total};
ghost use Rattle.ep_base.specs.Sum.{whole_words};

use super::{fold_of_pieces, one_changed_byte};
use crate::LenSource;
use crate::err::{Layer, ValueType};
use std::hash::Hash;

/// Numbers are encoded high byte first, and bytes past the end are read as 0. Bytes are 0 to 255.
pub fn numbers_by_offset()
    ensures one { num (1 ∷ 2 ∷ 3 ∷ 4 ∷ []) 3 1 ≡ 4 }
    ensures two { num (1 ∷ 2 ∷ 3 ∷ 4 ∷ []) 1 2 ≡ 515 }
    ensures four { num (1 ∷ 2 ∷ 3 ∷ 4 ∷ []) 0 4 ≡ 16909060 }
    ensures past { num (1 ∷ 2 ∷ []) 1 2 ≡ 512 }
    ensures bytes { IsBytes (0 ∷ 255 ∷ []) }
    ensures no_bytes { ¬ (IsBytes (256 ∷ [])) }
{}

/// A number is taken up to the greatest one, and refused above it with all three fields.
pub fn bounded_numbers()
    ensures greatest { IsBounded kind.IpDscp 63 63 (Ok 63) }
    ensures refused { IsBounded kind.IpDscp 63 64
        (Err (record { actual = 64; max_allowed = 63; value_type = kind.IpDscp })) }
    ensures not_refused { ¬
        (IsBounded kind.IpDscp 63 63
        (Err (record { actual = 63; max_allowed = 63; value_type = kind.IpDscp }))) }
    ensures ecn { IsEcn 3 (Ok notification.CongestionExperienced) }
    ensures ect_0 { IsEcn 2 (Ok notification.Ect0) }
    ensures ecn_refused { IsEcn 4
        (Err (record { actual = 4; max_allowed = 3; value_type = kind.IpEcn })) }
    ensures known { IsKnown 44 (Ok name.VoiceAdmit) }
{}

/// Too few bytes at the start, and further on: from byte 14 up to the greatest offset that a
/// `usize` holds. An error in the content has no offset.
pub fn offsets_further_on()
    ensures prefix { too_few_bytes layer.Ipv4Header 20 19
        ≡ record {
          required_len = 20;
          len = 19;
          len_source = source.Slice;
          layer = layer.Ipv4Header;
          layer_start_offset = 0;
        } }
    ensures moved { offset_by
        (record {
          required_len = 20;
          len = 19;
          len_source = source.Slice;
          layer = layer.Ipv4Header;
          layer_start_offset = 14;
        }) 4
        ≡ record {
          required_len = 20;
          len = 19;
          len_source = source.Slice;
          layer = layer.Ipv4Header;
          layer_start_offset = 18;
        } }
    ensures greatest { CanMove
        (record {
          required_len = 20;
          len = 19;
          len_source = source.Slice;
          layer = layer.Ipv4Header;
          layer_start_offset = 14;
        }) 18446744073709551601 }
    ensures too_great { ¬
        (CanMove (record {
          required_len = 20;
          len = 19;
          len_source = source.Slice;
          layer = layer.Ipv4Header;
          layer_start_offset = 14;
        }) 18446744073709551602) }
    ensures len { (e : LenError) → slice_error.offset_by {C = ℕ} (error.Len e) 4
        ≡ error.Len (offset_by e 4) }
    ensures content { slice_error.offset_by {C = ℕ} (error.Content 7) 4 ≡ error.Content 7 }
    ensures offset_of_len { slice_error.content_offset {C = ℕ}
        (error.Len (offset_by (too_few_bytes layer.Ipv4Header 20 19) 14)) ≡ 14 }
    ensures offset_of_content { slice_error.content_offset {C = ℕ} (error.Content 7) ≡ 0 }
{}

/// What the definitions of traits rule out: a copy of every value, equality modulo 2, the order
/// reversed, copies of 0 alone, a hasher that is fed nothing, and a default that may be anything.
pub fn traits_ruled_out()
    ensures copies { ¬ (CopyIsValue (λ (value copy : ℕ). ⊤)) }
    ensures equals { ¬ (EqualIsSame (λ (a b : ℕ). a % 2 == b % 2)) }
    ensures order { ¬ (OrderIsOf (λ (n : ℕ). n) (λ a b. nat_cmp b a)) }
    ensures fails { ¬ (CopyNeverFails (λ (n : ℕ). n ≡ 0)) }
    ensures hash { ¬ (HashIsOf (λ (n : ℕ). (n ∷ []) ∷ []) (λ n. [])) }
    ensures variant { ¬ (VariantFeeds (λ (n : ℕ). []) 0 (λ (n : ℕ). n) (λ n. [])) }
    ensures default { ¬ (DefaultIs 0 (λ (n : ℕ). ⊤)) }
{}

/// What a hasher is fed of a layer, a kind of number and the source of a length, as Rust's derive
/// does: the index of the variant among those that are declared, from 0 on.
pub fn hashes_of_variants()
    ensures first { ⟦<Layer as Hash>⟧.hash_input layer.LinuxSllHeader ≡ fed.isize (pos 0) }
    ensures last { ⟦<Layer as Hash>⟧.hash_input layer.Arp ≡ fed.isize (pos 24) }
    ensures kind { ⟦<ValueType as Hash>⟧.hash_input kind.IpDscp ≡ fed.isize (pos 5) }
    ensures source { ⟦<LenSource as Hash>⟧.hash_input source.UdpHeaderLen ≡ fed.isize (pos 4) }
{}

/// The eight bytes of RFC 1071, section 3, sum to 2ddf0, and so to ddf2. An odd last byte is the
/// high one of its word. An IPv4 header without its checksum has the checksum b861.
#[tactic(auto, unfolding(crate::specs::Sum::total, crate::specs::Sum::fold))]
pub fn sums_of_words()
    ensures rfc_1071 { total (0 ∷ 1 ∷ 242 ∷ 3 ∷ 244 ∷ 245 ∷ 246 ∷ 247 ∷ []) ≡ 187888 }
    ensures rfc_1071_checksum { checksum (0 ∷ 1 ∷ 242 ∷ 3 ∷ 244 ∷ 245 ∷ 246 ∷ 247 ∷ []) ≡ 8717 }
    ensures odd { total (1 ∷ 2 ∷ 3 ∷ []) ≡ 1026 }
    ensures header { checksum (69 ∷ 0 ∷ 0 ∷ 115 ∷ 0 ∷ 0 ∷ 64 ∷ 0 ∷ 64 ∷ 17 ∷ 0 ∷ 0 ∷ 192 ∷ 168 ∷ 0 ∷
        1 ∷ 192 ∷ 168 ∷ 0 ∷ 199 ∷ []) ≡ 47201 }
    ensures none { checksum [] ≡ 65535 }
    ensures all { checksum (255 ∷ 255 ∷ []) ≡ 0 }
{}

/// What a ones-complement sum keeps of a total: 0 only of 0, else 1 to 65535.
#[tactic(auto, unfolding(crate::specs::Sum::fold))]
pub fn folds()
    ensures zero { fold 0 ≡ 0 }
    ensures small { fold 65534 ≡ 65534 }
    ensures all_ones { fold 65535 ≡ 65535 }
    ensures around { fold 65536 ≡ 1 }
    ensures twice { fold 131070 ≡ 65535 }
    // The bytes 00 01 and f2 03, read low byte first.
    ensures low_byte_first { accumulator_sum 256 ≡ 1 }
    ensures word { accumulator_sum 1010 ≡ 61955 }
{}

/// A text sums to all ones with the right checksum in it, and a text of zeros doesn't.
#[tactic(auto, unfolding(crate::specs::Sum::total))]
pub fn texts_of_all_ones()
    ensures right { all_ones (69 ∷ 0 ∷ 0 ∷ 115 ∷ 0 ∷ 0 ∷ 64 ∷ 0 ∷ 64 ∷ 17 ∷ 184 ∷ 97 ∷ 192 ∷ 168 ∷
        0 ∷ 1 ∷ 192 ∷ 168 ∷ 0 ∷ 199 ∷ []) ≡ true }
    ensures wrong { all_ones (69 ∷ 0 ∷ 0 ∷ 115 ∷ 0 ∷ 0 ∷ 64 ∷ 0 ∷ 64 ∷ 17 ∷ 184 ∷ 96 ∷ 192 ∷ 168 ∷
        0 ∷ 1 ∷ 192 ∷ 168 ∷ 0 ∷ 199 ∷ []) ≡ false }
    ensures zeros { all_ones (0 ∷ 0 ∷ []) ≡ false }
    ensures none { all_ones [] ≡ false }
{}

/// 0 becomes ffff, and every other checksum stays (RFC 768).
pub fn checksums_with_no_zero()
    ensures zero { no_zero 0 ≡ 65535 }
    ensures one { no_zero 1 ≡ 1 }
    ensures middle { no_zero 47201 ≡ 47201 }
    ensures greatest { no_zero 65535 ≡ 65535 }
{}

/// A zero byte fills an odd chunk up to whole words, and a text may be cut between words alone.
pub fn chunks_of_words()
    ensures odd { whole_words (1 ∷ 2 ∷ 3 ∷ []) ≡ 1 ∷ 2 ∷ 3 ∷ 0 ∷ [] }
    ensures even { whole_words (1 ∷ 2 ∷ []) ≡ 1 ∷ 2 ∷ [] }
    ensures cut { IsCutAtWords ((1 ∷ 2 ∷ []) ∷ (3 ∷ 4 ∷ 5 ∷ []) ∷ []) }
    ensures no_cut { ¬ (IsCutAtWords ((1 ∷ []) ∷ (2 ∷ []) ∷ [])) }
{}

/// [`fold_of_pieces`] where the last chunk is odd and comes first.
pub fn odd_last_chunk_comes_first()
    ensures { fold (total (flat_map whole_words ((3 ∷ 4 ∷ 5 ∷ []) ∷ (1 ∷ 2 ∷ []) ∷ [])))
        ≡ fold (total (1 ∷ 2 ∷ 3 ∷ 4 ∷ 5 ∷ [])) }
{
    fold_of_pieces();
}

/// [`one_changed_byte`] where 00 becomes ff, and ff 00.
#[tactic(auto, unfolding(crate::specs::Sum::total))]
pub fn bytes_changed_to_the_other_end()
    ensures up { all_ones (69 ∷ 255 ∷ 0 ∷ 115 ∷ 0 ∷ 0 ∷ 64 ∷ 0 ∷ 64 ∷ 17 ∷ 184 ∷ 97 ∷ 192 ∷ 168 ∷
        0 ∷ 1 ∷ 192 ∷ 168 ∷ 0 ∷ 199 ∷ []) ≡ false }
    ensures down { all_ones (255 ∷ 0 ∷ []) ≡ false }
{
    one_changed_byte();
}

/// Keywords and protocols of IANA's registry: those that are there and those that are not, the last
/// number before the unassigned ones and those after them.
pub fn registered_texts()
    ensures keywords { map keyword_of (0 ∷ 6 ∷ 17 ∷ 34 ∷ 39 ∷ 41 ∷ 58 ∷ 107 ∷ 132 ∷ 138 ∷ 142 ∷ 143 ∷ 144 ∷
        255 ∷ []) ≡ map (λ text. Some text)
        (codes "HOPOPT" ∷ codes "TCP" ∷ codes "UDP" ∷ codes "3PC" ∷ codes "TP++" ∷ codes "IPv6" ∷
        codes "IPv6-ICMP" ∷ codes "A/N" ∷ codes "SCTP" ∷ codes "manet" ∷ codes "ROHC" ∷
        codes "Ethernet" ∷ codes "AGGFRAG" ∷ codes "Reserved" ∷ []) }
    ensures no_keywords { map keyword_of (61 ∷ 63 ∷ 68 ∷ 99 ∷ 114 ∷ 145 ∷ 252 ∷ 253 ∷ 254 ∷ 256 ∷ []) ≡
        replicate 10 None }
    ensures protocols { map protocol_of (0 ∷ 6 ∷ 17 ∷ 34 ∷ 39 ∷ 41 ∷ 58 ∷ 99 ∷ 114 ∷ 132 ∷ 142 ∷ 143 ∷ 144 ∷
        253 ∷ 254 ∷ []) ≡ map (λ text. Some text)
        (codes "IPv6 Hop-by-Hop Option" ∷ codes "Transmission Control" ∷ codes "User Datagram" ∷
        codes "Third Party Connect Protocol" ∷ codes "TP++ Transport Protocol" ∷
        codes "IPv6 encapsulation" ∷ codes "ICMP for IPv6" ∷ codes "any private encryption scheme" ∷
        codes "any 0-hop protocol" ∷ codes "Stream Control Transmission Protocol" ∷
        codes "Robust Header Compression" ∷ codes "Ethernet" ∷
        codes "AGGFRAG encapsulation payload for ESP" ∷
        codes "Use for experimentation and testing" ∷
        codes "Use for experimentation and testing" ∷ []) }
    ensures no_protocols { map protocol_of (124 ∷ 125 ∷ 137 ∷ 145 ∷ 252 ∷ 255 ∷ []) ≡ replicate 6 None }
{}
