//! Views of IP packets: an IPv4 or IPv6 header, the extension headers after it and the payload,
//! borrowed from the bytes of the packet.
#![tactic(auto)]

pub mod err;
pub mod laws;
mod net;

pub use net::{
    IpPayloadSlice, IpSlice, Ipv4ExtensionsSlice, Ipv4Slice, Ipv6ExtensionSlice,
    Ipv6ExtensionSliceIter, Ipv6ExtensionsSlice, Ipv6Slice, LaxIpPayloadSlice, LaxIpSlice,
    LaxIpv4Slice, LaxIpv6Slice,
};
