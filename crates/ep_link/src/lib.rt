//! Link headers: Ethernet II (RFC 894) and those of Linux cooked captures; the frame check sequence
//! (IEEE 802.3, section 3.2.9); and ARP packets (RFC 826).
#![tactic(auto)]

pub mod err;
pub mod laws;
mod link;

pub use link::{
    ArpEthIpv4Packet, ArpHardwareId, ArpOperation, ArpPacket, ArpPacketSlice, Ethernet2Header,
    Ethernet2HeaderSlice, Ethernet2Slice, LinkHeader, LinkSlice, LinuxSllHeader,
    LinuxSllHeaderSlice, LinuxSllPacketType, LinuxSllPayloadSlice, LinuxSllProtocolType,
    LinuxSllSlice,
};
