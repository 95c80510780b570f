//! Packets that are refused.

use crate::Dissection;
use crate::lax_layers::promised_len;
use crate::show::fragment_headers::{FragmentHeaders, two_fragment_headers};
use crate::show::{link, message, refusal};
use ep_base::IpNumber;
use ep_ipslice::{LaxIpv4Slice, LaxIpv6Slice};
use ep_packet::err::packet::SliceError;
use ep_packet::{Addresses, LaxNetSlice, LaxSlicedPacket, Message, TransportSlice};
use header_descriptions::show::Line;
use header_descriptions::show::arp::arp;
use header_descriptions::show::tags::lax_tags;
use header_descriptions::show::tcp::InitialNumbers;
use std::alloc::AllocError;

/// The headers that are there of a packet that is refused, and the fault that is shown of it, if one
/// is; the addresses of the link too, or only where there are no others. It returns what separates them
/// from what follows. It has no contract: tests compare the texts.
#[inline(never)]
pub(crate) fn refused(
    line: &mut Line<'_>,
    packet: &Dissection<'_>,
    error: SliceError,
    shows_link: bool,
    initial_numbers: InitialNumbers,
) -> Result<&'static str, AllocError> {
    let layers = packet.lax_layers();
    let fault = packet.shown_fault(error, &layers);
    let gap = match layers {
        Some(layers) => {
            headers(line, packet, layers, shows_link, initial_numbers)?;
            "  "
        }
        None => "",
    };
    match fault {
        Some(fault) => {
            line.text(gap)?;
            refusal::packet(line, &fault)?;
            Ok(", ")
        }
        None => Ok(gap),
    }
}

fn headers(
    line: &mut Line<'_>,
    packet: &Dissection<'_>,
    layers: LaxSlicedPacket<'_>,
    shows_link: bool,
    initial_numbers: InitialNumbers,
) -> Result<(), AllocError> {
    lax_tags(line, layers.link_exts.as_slice())?;
    if layers.net.is_none() {
        return link::lax_other(line, &layers, packet.header.as_ref());
    }
    if shows_link {
        link::link_addresses(line, layers.link.as_ref(), packet.header.as_ref())?;
    }
    let len = promised_len(&layers.net);
    let LaxSlicedPacket {
        net,
        transport,
        stop_err,
        ..
    } = layers;
    match &net {
        Some(LaxNetSlice::Arp(packet)) => arp(line, packet),
        Some(LaxNetSlice::Ipv4(packet)) => {
            let read = read_in(transport, stop_err.is_some(), packet.payload().payload);
            over_ipv4(line, &net, packet, read.as_ref(), len, initial_numbers)
        }
        Some(LaxNetSlice::Ipv6(packet)) => {
            let read = read_in(transport, stop_err.is_some(), packet.payload().payload);
            over_ipv6(line, &net, packet, read.as_ref(), len, initial_numbers)
        }
        None => Ok(()),
    }
}

// An IPv4 packet, its message if its header is there, and the length of its payload.
fn over_ipv4(
    line: &mut Line<'_>,
    net: &Option<LaxNetSlice<'_>>,
    packet: &LaxIpv4Slice<'_>,
    read: Option<&Message<'_>>,
    len: usize,
    initial_numbers: InitialNumbers,
) -> Result<(), AllocError> {
    if packet.is_payload_fragmented() {
        FragmentHeaders::over_ipv4(packet, len).show(line)?;
        return line.text(")");
    }
    let header = packet.header();
    let addresses = Addresses::V4 {
        source: header.source(),
        destination: header.destination(),
    };
    let number = packet.payload_ip_number();
    message::lax_message(line, net, &addresses, number, read, len, initial_numbers)
}

fn over_ipv6(
    line: &mut Line<'_>,
    net: &Option<LaxNetSlice<'_>>,
    packet: &LaxIpv6Slice<'_>,
    read: Option<&Message<'_>>,
    len: usize,
    initial_numbers: InitialNumbers,
) -> Result<(), AllocError> {
    let header = packet.header();
    let addresses = Addresses::V6 {
        source: header.source(),
        destination: header.destination(),
    };
    let number = packet.payload_ip_number();
    if packet.is_payload_fragmented() {
        let fragment = FragmentHeaders::over_ipv6(packet, len);
        return fragment_over_ipv6(line, fragment, addresses, number);
    }
    message::lax_message(line, net, &addresses, number, read, len, initial_numbers)
}

fn fragment_over_ipv6(
    line: &mut Line<'_>,
    fragment: Option<FragmentHeaders>,
    addresses: Addresses,
    number: IpNumber,
) -> Result<(), AllocError> {
    match fragment {
        Some(fragment) => {
            fragment.show(line)?;
            line.text(")")
        }
        None => two_fragment_headers(line, Some(addresses), Some(number)),
    }
}

// The message whose header is there, of a packet whose reading stopped at a fault or didn't, and
// whose payload has these bytes.
fn read_in<'a>(
    transport: Option<TransportSlice<'a>>,
    is_stopped: bool,
    payload: &'a [u8],
) -> Option<Message<'a>> {
    match transport {
        Some(TransportSlice::Icmpv4(message)) => Some(Message::Icmpv4(message)),
        Some(TransportSlice::Icmpv6(message)) => Some(Message::Icmpv6(message)),
        Some(TransportSlice::Udp(datagram)) => Some(Message::Udp(datagram)),
        Some(TransportSlice::Tcp(segment)) => Some(Message::Tcp(segment)),
        None if is_stopped => None,
        None => Some(Message::Raw(payload)),
    }
}
