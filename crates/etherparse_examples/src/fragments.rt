//! A datagram in fragments, reassembled.

use etherparse::defrag::{IpDefragPayloadVec, IpDefragPool};
use etherparse::{SlicedPacket, UdpSlice, ip_number};
use std::alloc::Global;

/// Prints each UDP message that fragments in these frames complete, in whatever order they come, up to the first
/// frame or fragment that is refused. Each frame is listed beside the second at which it came: with each of them
/// every datagram of which no fragment came for a minute is dropped. It has no contract: what the program prints is
/// compared with what is stored.
pub fn print_datagrams(
    rt: &impl Print,
    alloc: Global,
    frames: &[(u64, &[u8])],
) -> anyhow::Result<()> {
    let mut pool: IpDefragPool<u64> = IpDefragPool::new(alloc);
    for &(second, frame) in frames {
        let packet = SlicedPacket::from_ethernet(frame)?;
        if let Some(message) = pool.process_sliced_packet(&packet, second, ())? {
            print_datagram(rt, &message)?;
        }
        pool.retain(|last: &u64| second.saturating_sub(*last) < 60)?;
    }
    Ok(())
}

fn print_datagram(rt: &impl Print, message: &IpDefragPayloadVec) -> anyhow::Result<()> {
    if message.ip_number == ip_number::UDP {
        let udp = UdpSlice::from_slice(message.payload.as_slice())?;
        let (from, to) = (udp.source_port(), udp.destination_port());
        println!(rt; "UDP from port {from} to port {to}: {:?}", udp.payload())?;
    }
    Ok(())
}
