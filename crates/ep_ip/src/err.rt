//! Why bytes are no base header.

pub mod ipv4;
pub mod ipv6;
