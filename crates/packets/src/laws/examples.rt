//! The definitions at literal values: what the standards and docs/PACKETS.md say of packets that
//! were written down byte by byte, so that a definition can't change with the code.

pub mod conditions;
pub mod counts;
pub mod header_verdicts;
pub mod headers;
pub mod icmpv6_types;
pub mod lax_layers;
pub mod layers;
pub mod memory;
pub mod original_datagrams;
pub mod outlines;
pub mod reasons;
pub mod source_routes;
