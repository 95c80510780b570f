//! Whether the checksum of a message is right.
#![tactic(auto)]

pub mod laws;
mod verdict;

pub use verdict::{Verdict, judge};
