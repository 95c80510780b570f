//! The Internet checksum (RFC 1071) of `ep_base`, and the sums of pseudo headers of `ep_ip`, at which
//! the checksums of UDP, TCP and ICMPv6 start.

pub use ep_base::checksum::{
    Sum16BitWords, message_sum, sum_pieces, u32_16bit_word, u64_16bit_word,
};
pub use ep_ip::checksum::{pseudo_sum_v4, pseudo_sum_v6};
