//! The Internet checksum (RFC 1071).
ghost use Rattle.std.specs.Prelude.{◌≡◌};
ghost use Rattle.etherparse.specs.base.Sum.{all_ones, checksum};

use etherparse::checksum::Sum16BitWords;

/// The checksum of the bytes, as a header has it, high byte first.
#[unsafe(no_mangle)]
pub extern "C" fn ep_checksum(bytes: &[u8]) -> u16
    ensures { result ≡ checksum bytes.now }
{
    let sum = Sum16BitWords::new().add_slice(bytes);
    sum.ones_complement().swap_bytes()
}

/// Whether the words of the bytes sum to all ones, as those of bytes with a right checksum do.
#[unsafe(no_mangle)]
pub extern "C" fn ep_checksum_is_right(bytes: &[u8]) -> bool
    ensures { result ≡ all_ones bytes.now }
{
    Sum16BitWords::new().add_slice(bytes).ones_complement() == 0
}
