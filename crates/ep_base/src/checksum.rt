//! The Internet checksum (RFC 1071).

ghost use Rattle.std.specs.Prelude.{◌≡◌, ◌+◌, ◌-◌, ◌==◌, ℕ, List, []};
ghost use Rattle.std.specs.Int.{swap_bytes, w16};
ghost use Rattle.std.proofs.Common.{rules};
ghost use Rattle.std.specs.Cmp.Rules.{comparing};
ghost use Rattle.std.specs.List.{flat_map};
ghost use Rattle.ep_base.specs.Sum.{AddsText, accumulator_sum, all_ones, checksum, fold, no_zero, total, whole_words};

mod lanes;
mod message;
pub mod u32_16bit_word;
pub mod u64_16bit_word;

pub use message::message_sum;
use std::marker::Model;

/// A ones-complement sum of 16-bit words. It reads words low byte first, so that a checksum field
/// of a header is its result with the two bytes swapped.
///
/// In a contract it is the fold of the words added so far, high byte first: 0 where all are zero,
/// else a number of 1 to 65535 with their residue by 65535. Two sums are equal where these are.
///
/// Started with [`Sum16BitWords::new`], chunks of even length (the last aside) may be added one by
/// one: the sum is that of the joined text.
#[derive(Clone, Debug, Drop)]
pub struct Sum16BitWords {
    sum: u64,
}

impl Model for Sum16BitWords {
    ghost Value = { ℕ };

    ghost view = { λ s. accumulator_sum s.sum };
}

impl Sum16BitWords {
    /// The sum of no words.
    pub fn new() -> Self
        ensures value { result ≡ 0 }
        ensures text { result ≡ fold (total []) }
    {
        Sum16BitWords { sum: 0 }
    }

    /// The sum with a word of 2 bytes added.
    #[must_use]
    pub fn add_2bytes(&self, value: [u8; 2]) -> Self
        ensures sum { result ≡ fold (self.now + total value) }
        ensures text { AddsText self.now value result }
    {
        Sum16BitWords {
            sum: u64_16bit_word::add_2bytes(self.sum, value),
        }
    }

    /// The sum with two words added.
    #[must_use]
    pub fn add_4bytes(&self, value: [u8; 4]) -> Self
        ensures sum { result ≡ fold (self.now + total value) }
        ensures text { AddsText self.now value result }
    {
        Sum16BitWords {
            sum: u64_16bit_word::add_4bytes(self.sum, value),
        }
    }

    /// The sum with four words added.
    #[must_use]
    pub fn add_8bytes(&self, value: [u8; 8]) -> Self
        ensures sum { result ≡ fold (self.now + total value) }
        ensures text { AddsText self.now value result }
    {
        Sum16BitWords {
            sum: u64_16bit_word::add_8bytes(self.sum, value),
        }
    }

    /// The sum with eight words added.
    #[must_use]
    pub fn add_16bytes(&self, value: [u8; 16]) -> Self
        ensures sum { result ≡ fold (self.now + total value) }
        ensures text { AddsText self.now value result }
    {
        Sum16BitWords {
            sum: u64_16bit_word::add_slice(self.sum, &value),
        }
    }

    /// The sum with the words of a slice added. An odd last byte is followed by a zero byte, also
    /// where more is added after it.
    #[must_use]
    pub fn add_slice(self, slice: &[u8]) -> Self
        ensures sum { result ≡ fold (self + total slice.now) }
        ensures text { AddsText self slice.now result }
        ensures whole_words { AddsText self (whole_words slice.now) result }
    {
        Sum16BitWords {
            sum: u64_16bit_word::add_slice(self.sum, slice),
        }
    }

    /// The complement of the sum, low byte first: the checksum with its two bytes swapped. It is 0
    /// exactly where the words sum to all ones, as those of a text with a right checksum do.
    #[must_use]
    pub fn ones_complement(&self) -> u16
        ensures value { result ≡ swap_bytes w16 (65535 - self.now) }
        ensures text { (text : List ℕ) → self.now ≡ fold (total text)
            → result ≡ swap_bytes w16 (checksum text) }
        ensures all_ones { (text : List ℕ) → self.now ≡ fold (total text)
            → (result == 0) ≡ all_ones text }
    {
        u64_16bit_word::ones_complement(self.sum)
    }

    /// The same with ffff instead of 0, for UDP (RFC 768), where 0 says that there is no
    /// checksum.
    #[must_use]
    pub fn to_ones_complement_with_no_zero(&self) -> u16
        ensures value { result ≡ swap_bytes w16 (no_zero (65535 - self.now)) }
        ensures text { (text : List ℕ) → self.now ≡ fold (total text)
            → result ≡ swap_bytes w16 (no_zero (checksum text)) }
    {
        u64_16bit_word::ones_complement_with_no_zero(self.sum)
    }

    // The sum itself, high byte first.
    fn word(&self) -> u16
        ensures { result ≡ self.now }
    {
        u64_16bit_word::to_word(self.sum).swap_bytes()
    }
}

impl PartialEq for Sum16BitWords {
    ghost eq = { λ a b. a == b };

    ghost laws = { Prim.search (comparing, rules) };

    fn eq(&self, other: &Self) -> bool {
        self.word() == other.word()
    }
}

impl Eq for Sum16BitWords {
    ghost laws = { Prim.search (comparing, rules) };
}

impl Default for Sum16BitWords {
    ghost is_default = { λ s. s ≡ 0 };

    fn default() -> Self {
        Self::new()
    }
}

/// The complement of the sum of all chunks, each with a zero byte after it where its length is odd:
/// what [`Sum16BitWords::ones_complement`] returns where they are added one by one.
pub fn sum_pieces(chunks: &[&[u8]]) -> u16
    ensures { result ≡ swap_bytes w16
        (checksum (flat_map (λ chunk. whole_words chunk.now) chunks.now)) }
{
    let mut sum = Sum16BitWords::new();
    for chunk in chunks {
        sum = sum.add_slice(chunk);
    }
    sum.ones_complement()
}
