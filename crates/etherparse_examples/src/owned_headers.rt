//! Reads headers as values, changes one and writes them again.

use etherparse::{IpHeaders, NetHeaders, PacketHeaders};
use std::alloc::Global;

/// What a router forwards of an IP packet: the same with one hop less, and of IPv4 with the checksum of the
/// new header. `None`, where no hop is left. It has no contract: what the program prints is compared with
/// what is stored.
pub fn forwarded(alloc: Global, packet: &[u8]) -> anyhow::Result<Option<Vec<u8>>> {
    let PacketHeaders {
        net,
        transport,
        payload,
        ..
    } = PacketHeaders::from_ip_slice(packet)?;
    let Some(ip) = net.and_then(with_a_hop_less) else {
        return Ok(None);
    };
    let mut bytes = Vec::new(alloc);
    ip.write(&mut bytes)?;
    if let Some(header) = &transport {
        header.write(&mut bytes)?;
    }
    bytes.extend_from_slice(payload.slice())?;
    Ok(Some(bytes))
}

fn with_a_hop_less(net: NetHeaders) -> Option<IpHeaders> {
    match net {
        NetHeaders::Ipv4(mut header, extensions) => {
            if header.time_to_live < 2 {
                return None;
            }
            header.time_to_live -= 1;
            Some(IpHeaders::Ipv4(header, extensions))
        }
        NetHeaders::Ipv6(mut header, extensions) => {
            if header.hop_limit < 2 {
                return None;
            }
            header.hop_limit -= 1;
            Some(IpHeaders::Ipv6(header, extensions))
        }
        NetHeaders::Arp(_) => None,
    }
}
