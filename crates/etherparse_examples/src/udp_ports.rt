//! The shortest example.

use etherparse::err::packet::SliceError;
use etherparse::{SlicedPacket, TransportSlice};

/// Source and destination port of the UDP datagram in a frame, or `None` where there is none.
/// It has no contract: what the program prints is compared with what is stored.
pub fn udp_ports(frame: &[u8]) -> Result<Option<(u16, u16)>, SliceError> {
    let packet = SlicedPacket::from_ethernet(frame)?;
    match &packet.transport {
        Some(TransportSlice::Udp(udp)) => Ok(Some((udp.source_port(), udp.destination_port()))),
        _ => Ok(None),
    }
}
