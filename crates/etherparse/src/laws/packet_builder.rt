//! Laws of the packet builder: the contract of each function is the law.

pub mod builder;
pub mod frames;
pub mod traits;
