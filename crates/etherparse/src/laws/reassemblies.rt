//! Laws of a pool's reassemblies and spare buffers at literal counts and times, and of `Clone` and
//! `PartialEq` of sliced fragments: the contract of each function is the law.

pub mod examples;
pub mod traits;
