//! Why bytes are no IP packet.

pub mod ip;
pub mod ipv4;
pub mod ipv6;
