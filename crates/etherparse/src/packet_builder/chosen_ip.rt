//! The IP headers that were chosen.

use ep_ip::{Ipv4Header, Ipv6Header};
use ep_packet::IpHeaders;

/// IP headers, with extension headers only where they were given: those of IPv6 take 9 kilobytes,
/// which nothing touches elsewhere.
#[derive(Drop)]
pub enum ChosenIp {
    /// A header with no extension headers.
    Alone(IpHeader),
    /// Headers that were given.
    Given(IpHeaders),
}

/// An IP header of either version.
#[derive(Drop)]
pub enum IpHeader {
    /// Of IPv4.
    Ipv4(Ipv4Header),
    /// Of IPv6.
    Ipv6(Ipv6Header),
}
