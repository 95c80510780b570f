//! ARP packets of other addresses than Ethernet's and IPv4's.

use crate::ArpHardwareId;
use ep_base::EtherType;
use thiserror::Error;

/// Why an ARP packet (RFC 826) isn't one between Ethernet and IPv4 addresses.
#[derive(Clone, Copy, Debug, PartialEq, Eq, Hash, Error)]
pub enum ArpEthIpv4FromError {
    /// The hardware addresses have this type, which isn't Ethernet.
    #[error("ARP hardware type {0} is not Ethernet (1)")]
    NonMatchingHwType(ArpHardwareId),
    /// The protocol addresses have this type, which isn't IPv4.
    #[error("ARP protocol type {0:?} is not IPv4 (2048)")]
    NonMatchingProtocolType(EtherType),
    /// The hardware addresses have this length, which isn't 6.
    #[error("ARP hardware addresses of {0} bytes are not of Ethernet (6 bytes)")]
    NonMatchingHwAddrSize(u8),
    /// The protocol addresses have this length, which isn't 4.
    #[error("ARP protocol addresses of {0} bytes are not of IPv4 (4 bytes)")]
    NonMatchingProtoAddrSize(u8),
}
