//! ICMP messages of both versions.

mod icmpv4;
mod icmpv4_messages;
mod icmpv6;
mod icmpv6_messages;
mod laws;
mod long_payloads;
mod multicast;
mod ndp;
