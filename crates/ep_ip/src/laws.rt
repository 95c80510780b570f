//! Laws of the base headers that no single call's contract states: the contract of each function is
//! the law. What holds for both versions has one name.

pub mod examples;
pub mod ipv4;
pub mod ipv6;
pub mod traits;
