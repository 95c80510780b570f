//! Packets of the network layer.

use crate::source_route::summed_addresses;
use ep_packet::{Addresses, LaxNetSlice, LaxSlicedPacket, NetSlice, SlicedPacket};
use header_descriptions::json::arp::arp;
use header_descriptions::json::fields::{begin, ipv4_address, printed, text};
use header_descriptions::json::ip::{ipv4, ipv6};
use serde::Serializer;
use std::net::Ipv6Addr;

/// The packet of the network layer, if there is one. It has no contract: tests compare the texts.
pub(crate) fn member<S: Serializer>(
    out: &mut S,
    layers: &SlicedPacket<'_>,
) -> Result<(), S::Error> {
    let Some(net) = &layers.net else {
        return Ok(());
    };
    begin(out, "net")?;
    match net {
        NetSlice::Ipv4(packet) => ipv4(out, packet.header(), packet.extensions())?,
        NetSlice::Ipv6(packet) => ipv6(out, packet.header(), packet.extensions())?,
        NetSlice::Arp(packet) => arp(out, packet)?,
    }
    out.end_map()
}

/// What is there of it in a packet that is refused. It has no contract: tests compare the texts.
pub(crate) fn lax_net<S: Serializer>(
    out: &mut S,
    layers: &LaxSlicedPacket<'_>,
) -> Result<(), S::Error> {
    let Some(net) = &layers.net else {
        return Ok(());
    };
    begin(out, "net")?;
    match net {
        LaxNetSlice::Ipv4(packet) => ipv4(out, packet.header(), packet.extensions())?,
        LaxNetSlice::Ipv6(packet) => ipv6(out, packet.header(), packet.extensions())?,
        LaxNetSlice::Arp(packet) => arp(out, packet)?,
    }
    out.end_map()
}

/// The final destination of an IP packet that is another than in its IP header, or isn't known. It
/// has no contract: tests compare the texts.
pub(crate) fn final_destination<S: Serializer>(
    out: &mut S,
    layers: &SlicedPacket<'_>,
) -> Result<(), S::Error> {
    let name = "final_destination";
    let end = summed_addresses(&layers.net);
    match (&layers.net, end) {
        (Some(NetSlice::Ipv4(packet)), Some(Addresses::V4 { destination, .. }))
            if destination != packet.header().destination() => {
            ipv4_address(out, name, destination)
        }
        (Some(NetSlice::Ipv6(packet)), Some(Addresses::V6 { destination, .. }))
            if destination != packet.header().destination() => {
            printed(out, name, &Ipv6Addr::from(destination))
        }
        (Some(NetSlice::Ipv4(_)) | Some(NetSlice::Ipv6(_)), None) => text(out, name, "unknown"),
        _ => Ok(()),
    }
}
