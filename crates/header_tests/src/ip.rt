//! IPv4 and IPv6 headers, and sums of pseudo headers.

mod checksum;
mod errors;
mod ipv4;
mod ipv6;
