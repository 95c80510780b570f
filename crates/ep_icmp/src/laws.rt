//! Laws of ICMP messages that no single call's contract states.

pub mod constants;
pub mod examples;
pub mod icmpv4;
pub mod icmpv6;
pub mod multicast;
pub mod ndp;
pub mod neighbors;
pub mod traits;
