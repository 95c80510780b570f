//! ICMP messages over IPv4 and IPv6, with their kinds and checksums, read and written both ways;
//! neighbor discovery; and messages of multicast groups (IGMP, multicast listener discovery).
#![tactic(auto)]

pub mod laws;
mod transport;

pub use transport::{
    IcmpEchoHeader, Icmpv4Header, Icmpv4Slice, Icmpv4Type, Icmpv6Header, Icmpv6Slice, Icmpv6Type,
    icmpv4, icmpv6, igmp, multicast,
};
