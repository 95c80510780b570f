//! The sum of a message: what every transport checksum covers.

ghost use Rattle.std.specs.Prelude.{◌≡◌, ◌%◌, ◌++◌, ℕ, List, length};
ghost use Rattle.ep_base.specs.MessageSum.{SumsWords, with_word};
ghost use Rattle.ep_base.specs.Sum.{fold, total};

use super::Sum16BitWords;

/// The sum of a message: of a pseudo header, whose sum is given, then a header, then its payload.
///
/// The header has an even number of bytes, so that the payload starts a new word. Where the
/// header's checksum is 0, the complement of the result is the checksum that belongs there. The
/// same holds where `header` ends before the checksum field and `payload` starts after it.
pub fn message_sum(pseudo: Sum16BitWords, header: &[u8], payload: &[u8]) -> Sum16BitWords
    requires { length header.now % 2 ≡ 0 }
    ensures text { (prefix : List ℕ) → SumsWords pseudo prefix
        → result ≡ fold (total (prefix ++ header.now ++ payload.now)) }
    ensures around { (prefix : List ℕ) → SumsWords pseudo prefix
        → result ≡ fold (total (with_word (prefix ++ header.now) 0 payload.now)) }
{
    pseudo.add_slice(header).add_slice(payload)
}
