//! Laws of the reassembly of fragmented IP packets: the contract of each function is the law.

pub mod joined;
pub mod memory;
pub mod names;
pub mod open_reassemblies;
pub mod packets;
pub mod reassemblies;
pub mod timestamps;
pub mod traits;

pub use crate::laws::fragments::{
    accepted_are_disjoint, clashes_are_tested, complete_is_tested, cover,
    every_buffer_shows_its_fragments, examples, fragments_agree, greatest_lengths,
    last_byte_counts, no_overlap,
};
