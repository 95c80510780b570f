//! Messages of the transport layer.

use crate::show::endpoints::{Ports, endpoints};
use crate::show::net_headers::{lax_net_headers, net_headers};
use crate::show::{icmp, refusal};
use crate::unread_message::sctp_ports;
use checksum_verdicts::{Verdict, judge};
use ep_base::IpNumber;
use ep_packet::{Addresses, LaxNetSlice, Message, NetSlice, WholeMessage, read_message};
use ep_tcpudp::{UdpHeader, UdpSlice};
use header_descriptions::show::tcp::InitialNumbers;
use header_descriptions::show::{Line, Tone, groups, names, tcp};
use std::alloc::AllocError;

/// A message that is whole in a packet: where it came from and went to, what else its IP header
/// has, its protocol, what its header says, and the verdict on its checksum. It has no contract: tests
/// compare the texts.
pub(crate) fn whole(
    line: &mut Line<'_>,
    net: &Option<NetSlice<'_>>,
    whole: &WholeMessage<'_>,
    checked: Option<Verdict>,
    initial_numbers: InitialNumbers,
) -> Result<(), AllocError> {
    endpoints(
        line,
        &whole.addresses,
        ports_of(whole.ip_number, &whole.message),
    )?;
    net_headers(line, net)?;
    line.text(" ")?;
    message(
        line,
        whole.ip_number,
        &whole.message,
        whole.bytes.len(),
        initial_numbers,
    )?;
    verdict(line, checked, &whole.addresses, &whole.message)
}

/// What is there of a message in so many bytes: the same without a verdict, and of a header that
/// isn't there as a whole only the protocol. It has no contract: tests compare the texts.
pub(crate) fn lax_message(
    line: &mut Line<'_>,
    net: &Option<LaxNetSlice<'_>>,
    addresses: &Addresses,
    ip_number: IpNumber,
    read: Option<&Message<'_>>,
    len: usize,
    initial_numbers: InitialNumbers,
) -> Result<(), AllocError> {
    let ports = match read {
        Some(read) => ports_of(ip_number, read),
        None => None,
    };
    endpoints(line, addresses, ports)?;
    lax_net_headers(line, net)?;
    line.text(" ")?;
    match read {
        Some(read) => message(line, ip_number, read, len, initial_numbers),
        None => names::protocol(line, ip_number),
    }
}

/// A reassembled message between these addresses: its ports, its protocol, what its header says and
/// the verdict on its checksum, or why it is refused. It has no contract: tests compare the texts.
pub(crate) fn completed(
    line: &mut Line<'_>,
    addresses: &Addresses,
    ip_number: IpNumber,
    bytes: &[u8],
    checked: Option<Verdict>,
    initial_numbers: InitialNumbers,
) -> Result<(), AllocError> {
    match read_message(ip_number, bytes) {
        Ok(read) => {
            if let Some(ports) = ports_of(ip_number, &read) {
                line.number(ports.source.into())?;
                line.counted(" > ", ports.destination.into())?;
                line.text(" ")?;
            }
            message(line, ip_number, &read, bytes.len(), initial_numbers)?;
            verdict(line, checked, addresses, &read)
        }
        Err(error) => refusal::message(line, &error),
    }
}

// The ports between which a message goes.
fn ports_of(number: IpNumber, message: &Message<'_>) -> Option<Ports> {
    match message {
        Message::Tcp(segment) => Some(Ports {
            source: segment.source_port(),
            destination: segment.destination_port(),
        }),
        Message::Udp(datagram) => Some(Ports {
            source: datagram.source_port(),
            destination: datagram.destination_port(),
        }),
        Message::Raw(bytes) if number == IpNumber::SCTP => sctp_ports(bytes),
        _ => None,
    }
}

// The protocol of a message in so many bytes, what its header says, and the length of its payload; or
// of an ICMP error the datagram that it is about.
fn message(
    line: &mut Line<'_>,
    number: IpNumber,
    message: &Message<'_>,
    len: usize,
    initial_numbers: InitialNumbers,
) -> Result<(), AllocError> {
    names::protocol(line, number)?;
    match message {
        Message::Tcp(segment) => {
            let payload_len = len.saturating_sub(segment.header_len());
            tcp::segment(line, segment, payload_len, initial_numbers)
        }
        Message::Udp(datagram) => match payload_len(datagram, len) {
            Some(len) => line.counted(" len ", len as u64),
            None => Ok(()),
        },
        Message::Icmpv4(message) => {
            icmp::over_ipv4(line, message, len.saturating_sub(message.header_len()))
        }
        Message::Icmpv6(message) => {
            icmp::over_ipv6(line, message, len.saturating_sub(message.header_len()))
        }
        Message::Raw(bytes) => other(line, number, bytes, len),
    }
}

// What an IGMP message says, or the length of another one.
fn other(
    line: &mut Line<'_>,
    number: IpNumber,
    bytes: &[u8],
    len: usize,
) -> Result<(), AllocError> {
    if number == IpNumber::IGMP {
        if groups::igmp(line, bytes)? {
            return Ok(());
        }
    }
    line.counted(" len ", len as u64)
}

// The length of the payload of a datagram by its length field, or where that is 0 (RFC 2675) by how
// many bytes it is in. One from 1 to 7 says nothing of it.
fn payload_len(datagram: &UdpSlice<'_>, len: usize) -> Option<usize> {
    let stated = usize::from(datagram.length());
    if stated == 0 {
        Some(len.saturating_sub(UdpHeader::LEN))
    } else {
        stated.checked_sub(UdpHeader::LEN)
    }
}

// The verdict on the checksum of a message between these addresses in the IP header. One that has a
// checksum and no verdict goes on by a source route whose end isn't known. Of others only UDP is sent
// without a checksum: that of ICMP over the other IP version is not read.
fn verdict(
    line: &mut Line<'_>,
    verdict: Option<Verdict>,
    addresses: &Addresses,
    message: &Message<'_>,
) -> Result<(), AllocError> {
    match verdict {
        Some(Verdict::Good) => {
            line.text("  ")?;
            line.toned(Tone::Good, "good")
        }
        Some(Verdict::Bad) => {
            line.text("  ")?;
            line.toned(Tone::Bad, "bad checksum")
        }
        Some(Verdict::None) if judge(addresses, message) != Verdict::None => {
            line.text("  none (source routed)")
        }
        Some(Verdict::None) => match message {
            Message::Udp(_) => line.text("  no checksum"),
            _ => Ok(()),
        },
        None => Ok(()),
    }
}
