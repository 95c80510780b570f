//! IPv6 extension headers and TCP options.

use etherparse::{Ipv6ExtensionSlice, Ipv6Slice, TcpSlice};
use std::io;

/// Prints the extension headers of an IPv6 packet in their order, and the options of its TCP segment.
/// It has no contract: what the program prints is compared with what is stored.
pub fn print_all(rt: &impl Print, packet: &[u8]) -> anyhow::Result<()> {
    let ip = Ipv6Slice::from_slice(packet)?;
    for extension in ip.extensions().iter() {
        print_extension(rt, &extension)?;
    }
    let tcp = TcpSlice::from_slice(ip.payload().payload)?;
    for option in tcp.options_iterator() {
        match option {
            Ok(element) => println!(rt; "{element:?}")?,
            Err(error) => println!(rt; "{error}")?,
        }
    }
    Ok(())
}

fn print_extension(rt: &impl Print, extension: &Ipv6ExtensionSlice<'_>) -> io::Result<()> {
    match extension {
        Ipv6ExtensionSlice::HopByHop(header) => {
            println!(rt; "hop-by-hop options: {:?}", header.payload())
        }
        Ipv6ExtensionSlice::DestinationOptions(header) => {
            println!(rt; "destination options: {:?}", header.payload())
        }
        Ipv6ExtensionSlice::Fragment(header) => {
            println!(rt; "fragment of the message {}", header.identification())
        }
        Ipv6ExtensionSlice::Routing(_) => println!(rt; "routing header"),
        Ipv6ExtensionSlice::Authentication(_) => println!(rt; "authentication header"),
    }
}
