//! Slices a frame.

use etherparse::{NetSlice, SlicedPacket, TransportSlice};
use std::io;
use std::net::{Ipv4Addr, Ipv6Addr};

/// Prints what a frame brings. The parts of the packet are views of its bytes: nothing is copied.
/// It has no contract: what the program prints is compared with what is stored.
pub fn print_layers(rt: &impl Print, frame: &[u8]) -> anyhow::Result<()> {
    let packet = SlicedPacket::from_ethernet(frame)?;
    if let Some(net) = &packet.net {
        print_net(rt, net)?;
    }
    if let Some(transport) = &packet.transport {
        print_transport(rt, transport)?;
    }
    Ok(())
}

fn print_net(rt: &impl Print, net: &NetSlice<'_>) -> io::Result<()> {
    match net {
        NetSlice::Ipv4(ip) => {
            let from = Ipv4Addr::from(ip.header().source());
            let to = Ipv4Addr::from(ip.header().destination());
            println!(rt; "IPv4 from {from} to {to}")
        }
        NetSlice::Ipv6(ip) => {
            let from = Ipv6Addr::from(ip.header().source());
            let to = Ipv6Addr::from(ip.header().destination());
            println!(rt; "IPv6 from {from} to {to}")
        }
        NetSlice::Arp(_) => println!(rt; "ARP"),
    }
}

fn print_transport(rt: &impl Print, transport: &TransportSlice<'_>) -> io::Result<()> {
    match transport {
        TransportSlice::Udp(udp) => {
            let (from, to) = (udp.source_port(), udp.destination_port());
            println!(rt; "UDP from port {from} to port {to}: {:?}", udp.payload())
        }
        TransportSlice::Tcp(tcp) => {
            let (from, to) = (tcp.source_port(), tcp.destination_port());
            println!(rt; "TCP from port {from} to port {to}: {:?}", tcp.payload())
        }
        TransportSlice::Icmpv4(message) => println!(rt; "ICMPv4 of type {}", message.type_u8()),
        TransportSlice::Icmpv6(message) => println!(rt; "ICMPv6 of type {}", message.type_u8()),
    }
}
