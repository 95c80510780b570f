//! Faults in the bytes of the header of a Linux cooked capture.

use crate::ArpHardwareId;
use thiserror::Error;

/// What is wrong with the bytes of the header of a Linux cooked capture.
#[derive(Clone, Copy, Debug, PartialEq, Eq, Hash, Error)]
pub enum HeaderError {
    /// The packet type, the first two bytes, is above 4.
    #[error("Linux cooked capture header error: unsupported packet type {packet_type}")]
    UnsupportedPacketTypeField { packet_type: u16 },
    /// The protocol number can't be read under the hardware type. Never returned: under each
    /// hardware type a number is read as one of the kinds of protocol.
    #[error("Linux cooked capture header error: unsupported hardware type {arp_hardware_type}")]
    UnsupportedArpHardwareId { arp_hardware_type: ArpHardwareId },
}
