//! The base headers and what they are made of.

mod ipv4_header;
mod ipv4_header_slice;
mod ipv4_options;
mod ipv6_header;
mod ipv6_header_slice;
mod payload_len;

pub use ipv4_header::Ipv4Header;
pub use ipv4_header_slice::Ipv4HeaderSlice;
pub use ipv4_options::Ipv4Options;
pub use ipv6_header::Ipv6Header;
pub use ipv6_header_slice::Ipv6HeaderSlice;
