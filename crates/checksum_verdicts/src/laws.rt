//! Laws of verdicts: the contract of each function is the law.
ghost use Rattle.std.specs.Prelude.{◌≡◌, ◌++◌, ℕ, List, [], ◌∷◌, length, pos, replicate};
ghost use Rattle.std.specs.Hash as fed;
ghost use Rattle.ep_base.specs.Traits.{HashIsOfIndex, IsPlainData};
ghost use Rattle.ep_packet.specs.Readable.ReadMessage.{Icmpv4, Icmpv6, Raw, Tcp, Udp};
ghost use Rattle.ep_packet.specs.declared.addresses.Addresses.TheVariants.{V4, V6};
ghost use Rattle.checksum_verdicts.specs.Verdict.{summed_text, verdict_of, verdict_index};
ghost use Rattle.checksum_verdicts.specs.declared.verdict.Verdict.TheVariants as verdict;

use crate::Verdict;
use ep_base::laws::traits::Value;
use std::hash::Hash;

/// A copy of a verdict is the verdict and takes no memory. Two verdicts are equal exactly if they are
/// the same variant.
pub fn verdicts_are_plain_data()
    ensures { IsPlainData ⟦<Verdict as Value>⟧ }
{}

/// A verdict feeds a hasher its index, in the order of declaration.
pub fn verdicts_hash_their_index()
    ensures index { HashIsOfIndex verdict_index ⟦<Verdict as Hash>⟧.hash_input }
    ensures bad { ⟦<Verdict as Hash>⟧.hash_input verdict.Bad ≡ fed.isize (pos 1) }
    ensures no_checksum { ⟦<Verdict as Hash>⟧.hash_input verdict.None ≡ fed.isize (pos 2) }
{}

/// What the checksums of these literal messages say, worked out independently of the code after RFC
/// 768, 792, 4443 and 9293: over IPv4 from 10.0.0.1 to 10.0.0.2, over IPv6 from fd00::1 to fd00::2.
/// ICMPv4 has no pseudo header.
pub fn verdicts_at_literal_values()
    ensures udp { verdict_of (V4 (10 ∷ 0 ∷ 0 ∷ 1 ∷ []) (10 ∷ 0 ∷ 0 ∷ 2 ∷ []))
        (Udp (0 ∷ 1 ∷ 0 ∷ 2 ∷ 0 ∷ 16 ∷ 0xdb ∷ 0xb4 ∷ 1 ∷ 2 ∷ 3 ∷ 4 ∷ 5 ∷ 6 ∷ 7 ∷ 8 ∷ []))
        ≡ verdict.Good }
    ensures tcp { verdict_of (V4 (10 ∷ 0 ∷ 0 ∷ 1 ∷ []) (10 ∷ 0 ∷ 0 ∷ 2 ∷ []))
        (Tcp (0 ∷ 1 ∷ 0 ∷ 2 ∷ 0 ∷ 0 ∷ 0 ∷ 3 ∷ 0 ∷ 0 ∷ 0 ∷ 0 ∷ 0x50 ∷ 2 ∷ 4 ∷ 0
        ∷ 0x97 ∷ 0xda ∷ 0 ∷ 0 ∷ [])) ≡ verdict.Good }
    ensures icmpv6 { verdict_of
        (V6 (253 ∷ (replicate 14 0 ++ 1 ∷ [])) (253 ∷ (replicate 14 0 ++ 2 ∷ [])))
        (Icmpv6 (0x80 ∷ 0 ∷ 0x24 ∷ 0x51 ∷ 0 ∷ 1 ∷ 0 ∷ 2 ∷ 0x61 ∷ 0x62 ∷ [])) ≡ verdict.Good }
    ensures icmpv4 { verdict_of (V4 (10 ∷ 0 ∷ 0 ∷ 1 ∷ []) (10 ∷ 0 ∷ 0 ∷ 2 ∷ []))
        (Icmpv4 (255 ∷ 255 ∷ replicate 6 0)) ≡ verdict.Good }
    ensures zeros { verdict_of (V4 (10 ∷ 0 ∷ 0 ∷ 1 ∷ []) (10 ∷ 0 ∷ 0 ∷ 2 ∷ []))
        (Icmpv4 (replicate 8 0)) ≡ verdict.Bad }
    ensures icmpv4_over_ipv6 { verdict_of
        (V6 (253 ∷ (replicate 14 0 ++ 1 ∷ [])) (253 ∷ (replicate 14 0 ++ 2 ∷ [])))
        (Icmpv4 (255 ∷ 255 ∷ replicate 6 0)) ≡ verdict.None }
    ensures icmpv6_over_ipv4 { verdict_of (V4 (10 ∷ 0 ∷ 0 ∷ 1 ∷ []) (10 ∷ 0 ∷ 0 ∷ 2 ∷ []))
        (Icmpv6 (0x80 ∷ replicate 7 0)) ≡ verdict.None }
    ensures no_checksum { verdict_of
        (V6 (253 ∷ (replicate 14 0 ++ 1 ∷ [])) (253 ∷ (replicate 14 0 ++ 2 ∷ [])))
        (Udp (0 ∷ 1 ∷ 0 ∷ 2 ∷ 0 ∷ 8 ∷ 0 ∷ 0 ∷ [])) ≡ verdict.None }
    ensures no_checksum_over_ipv4 { verdict_of
        (V4 (10 ∷ 0 ∷ 0 ∷ 1 ∷ []) (10 ∷ 0 ∷ 0 ∷ 2 ∷ []))
        (Udp (0 ∷ 1 ∷ 0 ∷ 2 ∷ 0 ∷ 16 ∷ 0 ∷ 0 ∷ 1 ∷ 2 ∷ 3 ∷ 4 ∷ 5 ∷ 6 ∷ 7 ∷ 8 ∷ []))
        ≡ verdict.None }
    ensures raw { verdict_of (V4 (10 ∷ 0 ∷ 0 ∷ 1 ∷ []) (10 ∷ 0 ∷ 0 ∷ 2 ∷ [])) (Raw [])
        ≡ verdict.None }
    ensures raw_bytes { verdict_of (V4 (10 ∷ 0 ∷ 0 ∷ 1 ∷ []) (10 ∷ 0 ∷ 0 ∷ 2 ∷ []))
        (Raw (0 ∷ 1 ∷ 0 ∷ 2 ∷ [])) ≡ verdict.None }
    ensures raw_all_ones { verdict_of
        (V6 (253 ∷ (replicate 14 0 ++ 1 ∷ [])) (253 ∷ (replicate 14 0 ++ 2 ∷ [])))
        (Raw (255 ∷ 255 ∷ [])) ≡ verdict.None }
{}

/// The pseudo header of messages of 70,000 bytes over IPv6, from fd00::1 to fd00::2, has the whole
/// length in 32 bits, 00011170 (RFC 8200, section 8.1; RFC 2675), also for UDP, and the protocol
/// number. Over IPv4 it has the length in 16 bits, here of 40,000 bytes, 9c40 (RFC 768).
pub fn pseudo_headers_at_literal_values()
    ensures udp { (bytes : List ℕ) → length bytes ≡ 70000
        → summed_text (V6 (253 ∷ (replicate 14 0 ++ 1 ∷ [])) (253 ∷ (replicate 14 0 ++ 2 ∷ [])))
        (Udp bytes) ≡ 253 ∷ (replicate 14 0 ++ (1 ∷ 253 ∷ (replicate 14 0
        ++ (2 ∷ 0 ∷ 1 ∷ 0x11 ∷ 0x70 ∷ 0 ∷ 0 ∷ 0 ∷ 17 ∷ bytes)))) }
    ensures tcp { (bytes : List ℕ) → length bytes ≡ 70000
        → summed_text (V6 (253 ∷ (replicate 14 0 ++ 1 ∷ [])) (253 ∷ (replicate 14 0 ++ 2 ∷ [])))
        (Tcp bytes) ≡ 253 ∷ (replicate 14 0 ++ (1 ∷ 253 ∷ (replicate 14 0
        ++ (2 ∷ 0 ∷ 1 ∷ 0x11 ∷ 0x70 ∷ 0 ∷ 0 ∷ 0 ∷ 6 ∷ bytes)))) }
    ensures icmpv6 { (bytes : List ℕ) → length bytes ≡ 70000
        → summed_text (V6 (253 ∷ (replicate 14 0 ++ 1 ∷ [])) (253 ∷ (replicate 14 0 ++ 2 ∷ [])))
        (Icmpv6 bytes) ≡ 253 ∷ (replicate 14 0 ++ (1 ∷ 253 ∷ (replicate 14 0
        ++ (2 ∷ 0 ∷ 1 ∷ 0x11 ∷ 0x70 ∷ 0 ∷ 0 ∷ 0 ∷ 58 ∷ bytes)))) }
    ensures udp_over_ipv4 { (bytes : List ℕ) → length bytes ≡ 40000
        → summed_text (V4 (10 ∷ 0 ∷ 0 ∷ 1 ∷ []) (10 ∷ 0 ∷ 0 ∷ 2 ∷ [])) (Udp bytes)
        ≡ 10 ∷ 0 ∷ 0 ∷ 1 ∷ 10 ∷ 0 ∷ 0 ∷ 2 ∷ 0 ∷ 17 ∷ 0x9c ∷ 0x40 ∷ bytes }
{}
