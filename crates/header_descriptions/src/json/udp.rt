//! UDP datagrams (RFC 768).

use crate::json::fields::{begin, numbers};
use ep_tcpudp::UdpSlice;
use serde::Serializer;

/// The header of a datagram. It has no contract: tests compare the texts.
pub fn udp<S: Serializer>(out: &mut S, datagram: &UdpSlice<'_>) -> Result<(), S::Error> {
    begin(out, "Udp")?;
    let members = [
        ("source_port", datagram.source_port().into()),
        ("destination_port", datagram.destination_port().into()),
        ("length", datagram.length().into()),
        ("checksum", datagram.checksum().into()),
    ];
    numbers(out, &members)?;
    out.end_map()
}
