//! Checksums of UDP over IPv4.

use etherparse::{Ipv4Header, Ipv4Slice, UdpHeader, UdpSlice, ip_number};
use std::alloc::Global;

/// Whether the UDP datagram in an IPv4 packet has the checksum that belongs to it.
/// It has no contract: what the program prints is compared with what is stored.
pub fn has_its_checksum(packet: &[u8]) -> anyhow::Result<bool> {
    let ip = Ipv4Slice::from_slice(packet)?;
    let udp = UdpSlice::from_slice(ip.payload().payload)?;
    let (source, destination) = (ip.header().source(), ip.header().destination());
    let checksum = udp
        .to_header()
        .calc_checksum_ipv4_raw(source, destination, udp.payload())?;
    Ok(udp.checksum() == checksum)
}

/// An IPv4 packet with a UDP datagram from port 1 to port 2, in which both checksums are filled in.
/// It has no contract: what the program prints is compared with what is stored.
pub fn datagram(
    alloc: Global,
    source: [u8; 4],
    destination: [u8; 4],
    payload: &[u8],
) -> anyhow::Result<Vec<u8>> {
    let mut ip = Ipv4Header::new(0, 64, ip_number::UDP, source, destination)?;
    let udp = UdpHeader::with_ipv4_checksum(1, 2, &ip, payload)?;
    ip.set_payload_len(usize::from(udp.length))?;
    let mut packet = Vec::new(alloc);
    ip.write(&mut packet)?;
    udp.write(&mut packet)?;
    packet.extend_from_slice(payload)?;
    Ok(packet)
}
