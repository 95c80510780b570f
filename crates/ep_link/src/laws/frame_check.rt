//! Laws of frame check sequences (IEEE 802.3, section 3.2.9).
ghost use Rattle.std.specs.Prelude.{◌≡◌, List, ℕ, [], ◌∷◌, ◌++◌, ◌==◌, true, false, codes, map, None, Some, unwrap_or};
ghost use Rattle.ep_link.specs.Crc32.{DivisionLeavesRemainder, crc32, polynomial, remainder};
ghost use Rattle.ep_link.specs.Ethernet.{payload_of};
ghost use Rattle.ep_link.specs.Frame.{before_fcs, fcs_is_right, fcs_of, with_fcs, without_fcs};

use crate::Ethernet2Slice;

/// A frame's bytes are header, payload and, where it has one, the sequence.
pub fn frames_are_their_parts(frame: &Ethernet2Slice<'_>)
    ensures { frame.now.bytes ≡ before_fcs frame.now ++ unwrap_or (fcs_of frame.now) [] }
{
    let _slice = frame.slice();
}

/// The long division is one: the dividend is a multiple of the divisor and the remainder, which is of
/// a lower degree.
pub fn division_leaves_remainder()
    ensures { DivisionLeavesRemainder }
{}

/// 11010011101100 times x^3, divided by x^3 + x + 1, leaves x^2.
pub fn division_at_literals()
    ensures divisor { polynomial 3 (3 ∷ 1 ∷ 0 ∷ []) ≡ true ∷ false ∷ true ∷ true ∷ [] }
    ensures left { remainder (polynomial 3 (3 ∷ 1 ∷ 0 ∷ [])) (map (λ bit. bit == 1)
        (1 ∷ 1 ∷ 0 ∷ 1 ∷ 0 ∷ 0 ∷ 1 ∷ 1 ∷ 1 ∷ 0 ∷ 1 ∷ 1 ∷ 0 ∷ 0 ∷ 0 ∷ 0 ∷ 0 ∷ [])) ≡
        true ∷ false ∷ false ∷ [] }
    ensures none { remainder (polynomial 3 (3 ∷ 1 ∷ 0 ∷ [])) (true ∷ false ∷ []) ≡ true ∷ false ∷ [] }
{}

/// The check value of CRC-32, that of the digits 1 to 9, and those of a letter, a sentence and no
/// bytes.
#[tactic(auto, unfolding(crate::specs::Crc32::crc32))]
pub fn check_values()
    ensures digits { crc32 (codes "123456789") ≡ 0xcbf43926 }
    ensures letter { crc32 (codes "a") ≡ 0xe8b7be43 }
    ensures sentence { crc32 (codes "The quick brown fox jumps over the lazy dog") ≡ 0x414fa339 }
    ensures nothing { crc32 [] ≡ 0 }
{}

/// A frame of two bytes of payload with its sequence, and another sequence; the same bytes without
/// one.
#[tactic(auto, unfolding(crate::specs::Crc32::crc32))]
pub fn frames_at_literals()
    ensures sequence { fcs_of (with_fcs (1 ∷ 2 ∷ 3 ∷ 4 ∷ 5 ∷ 6 ∷ 7 ∷ 8 ∷ 9 ∷ 10 ∷ 11 ∷ 12 ∷ 8 ∷ 0 ∷ 21 ∷ 22 ∷
        0x27 ∷ 2 ∷ 0x42 ∷ 0x6d ∷ [])) ≡ Some (0x27 ∷ 2 ∷ 0x42 ∷ 0x6d ∷ []) }
    ensures right { fcs_is_right (1 ∷ 2 ∷ 3 ∷ 4 ∷ 5 ∷ 6 ∷ 7 ∷ 8 ∷ 9 ∷ 10 ∷ 11 ∷ 12 ∷ 8 ∷ 0 ∷ 21 ∷ 22 ∷ [])
        (0x27 ∷ 2 ∷ 0x42 ∷ 0x6d ∷ []) ≡ true }
    ensures turned { fcs_is_right (1 ∷ 2 ∷ 3 ∷ 4 ∷ 5 ∷ 6 ∷ 7 ∷ 8 ∷ 9 ∷ 10 ∷ 11 ∷ 12 ∷ 8 ∷ 0 ∷ 21 ∷ 22 ∷ [])
        (0x6d ∷ 0x42 ∷ 2 ∷ 0x27 ∷ []) ≡ false }
    ensures payload { (payload_of (before_fcs (with_fcs (1 ∷ 2 ∷ 3 ∷ 4 ∷ 5 ∷ 6 ∷ 7 ∷ 8 ∷ 9 ∷ 10 ∷ 11 ∷ 12 ∷ 8
        ∷ 0 ∷ 21 ∷ 22 ∷ 0x27 ∷ 2 ∷ 0x42 ∷ 0x6d ∷ [])))).payload ≡ 21 ∷ 22 ∷ [] }
    ensures none { fcs_of (without_fcs (1 ∷ 2 ∷ 3 ∷ [])) ≡ None }
    ensures all { before_fcs (without_fcs (1 ∷ 2 ∷ 3 ∷ [])) ≡ 1 ∷ 2 ∷ 3 ∷ [] }
{}
