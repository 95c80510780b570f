//! Hex digits to bytes and back, by vectors of 32 digits, with the meaning of the crate `hex`.
#![tactic(auto)]

mod decoding;
mod encoding;
mod lanes;
pub mod laws;

pub use decoding::{decode, decode_at, decode_to_slice};
pub use encoding::encode;
