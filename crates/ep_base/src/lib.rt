//! What every layer of a packet shares: bounded numbers, protocol numbers, ether types, errors and
//! the Internet checksum.
#![tactic(auto)]

pub mod checksum;
pub mod err;
pub mod laws;
mod len_source;
mod link;
mod net;

pub use len_source::LenSource;
pub use link::{EtherType, ether_types as ether_type};
pub use net::{
    IpDscp, IpDscpKnown, IpDscpUnknownValueError, IpEcn, IpFragOffset, IpNumber, IpTrafficClass,
    Ipv4Dscp, Ipv4Ecn, Ipv6FlowLabel, ip_numbers as ip_number,
};
