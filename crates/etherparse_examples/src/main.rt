//! The examples of README.md and docs/EXAMPLES.md, each a module of its own, and what they make of some packets.
#![tactic(auto)]

mod bounded_pool;
mod built_segment;
mod checksums;
mod echo_request;
mod extensions_and_options;
mod fragments;
mod frames;
mod owned_headers;
mod sliced_frame;
mod tags_and_arp;
mod udp_ports;

use etherparse::SlicedPacket;
use etherparse::defrag::IpDefragPool;

/// It has no contract: what it prints is compared with what the packets hold.
fn main(rt: HostRuntime) -> anyhow::Result<()> {
    print_frames(&rt)?;
    print_values(&rt)?;
    print_checksums(&rt)?;
    print_built(&rt)?;
    println!(rt; "A message in fragments:")?;
    let frames = [(0, frames::LAST_FRAGMENT), (1, frames::FIRST_FRAGMENT)];
    fragments::print_datagrams(&rt, rt.alloc(), &frames)?;
    print_bounded(&rt)
}

// How many bytes a pool holds of a datagram whose last fragment came, and which has 16.
fn print_bounded(rt: &HostRuntime) -> anyhow::Result<()> {
    println!(rt; "A pool below a bound:")?;
    let mut pool: IpDefragPool<u64> = IpDefragPool::new(rt.alloc());
    let packet = SlicedPacket::from_ethernet(frames::LAST_FRAGMENT)?;
    let waits = bounded_pool::process_bounded(&mut pool, &packet, 0)?.is_none();
    println!(rt; "{waits}, {} bytes", pool.open_bytes())?;
    Ok(())
}

// What frames hold.
fn print_frames(rt: &HostRuntime) -> anyhow::Result<()> {
    println!(rt; "The ports of UDP:")?;
    println!(rt; "{:?}", udp_ports::udp_ports(frames::UDP_OVER_IPV4)?)?;
    println!(rt; "{:?}", udp_ports::udp_ports(frames::TCP_OVER_IPV6)?)?;
    println!(rt; "A frame, sliced:")?;
    for frame in [
        frames::UDP_OVER_IPV4,
        frames::TCP_OVER_IPV6,
        frames::TAGGED_ARP,
    ] {
        sliced_frame::print_layers(rt, frame)?;
    }
    Ok(())
}

// Headers as values, and what is written of them.
fn print_values(rt: &HostRuntime) -> anyhow::Result<()> {
    println!(rt; "Headers as values:")?;
    if let Some(bytes) = owned_headers::forwarded(rt.alloc(), &frames::UDP_OVER_IPV4[14..])? {
        print_hex(rt, bytes.as_slice())?;
    }
    println!(rt; "VLAN tags and ARP:")?;
    tags_and_arp::print_tags(rt, frames::TAGGED_ARP)?;
    if let Some(bytes) = tags_and_arp::reply(rt.alloc(), frames::TAGGED_ARP, [2, 0, 0, 0, 0, 2])? {
        print_hex(rt, bytes.as_slice())?;
    }
    Ok(())
}

fn print_checksums(rt: &HostRuntime) -> anyhow::Result<()> {
    println!(rt; "Checksums:")?;
    println!(rt;
        "{}",
        checksums::has_its_checksum(&frames::UDP_OVER_IPV4[14..])?
    )?;
    let bytes = checksums::datagram(
        rt.alloc(),
        [10, 0, 0, 1],
        [10, 0, 0, 2],
        &[1, 2, 3, 4, 5, 6, 7, 8],
    )?;
    print_hex(rt, bytes.as_slice())?;
    Ok(())
}

// Extension headers and options, and packets that are built.
fn print_built(rt: &HostRuntime) -> anyhow::Result<()> {
    println!(rt; "Extension headers and options:")?;
    extensions_and_options::print_all(rt, frames::SYN_WITH_EXTENSIONS)?;
    println!(rt; "An echo request:")?;
    let bytes = echo_request::echo_request(rt.alloc(), 1, 2, b"ping")?;
    print_hex(rt, bytes.as_slice())?;
    println!(rt; "{:?}", echo_request::echoed(frames::ECHO_REPLY))?;
    println!(rt; "A TCP segment, built:")?;
    let bytes = built_segment::first_segment(rt.alloc(), 7)?;
    print_hex(rt, bytes.as_slice())?;
    Ok(())
}

fn print_hex(rt: &impl Print, bytes: &[u8]) -> anyhow::Result<()> {
    for byte in bytes {
        print!(rt; "{byte:02x}")?;
    }
    println!(rt; "")?;
    Ok(())
}
