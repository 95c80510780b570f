//! IP base headers, as borrowed bytes and as values that are read and written; sums of pseudo
//! headers; and the walk over IPv6 extension headers.
#![tactic(auto)]

pub mod checksum;
pub mod err;
pub mod laws;
mod net;

pub use net::{Ipv4Header, Ipv4HeaderSlice, Ipv4Options, Ipv6Header, Ipv6HeaderSlice};
