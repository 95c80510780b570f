//! Messages of the transport layer.

use crate::json::{errors, icmp, other};
use ep_base::IpNumber;
use ep_packet::{Message, TransportSlice, read_message};
use header_descriptions::json::fields::{begin, number};
use header_descriptions::json::icmp as icmp_header;
use header_descriptions::json::tcp::tcp;
use header_descriptions::json::udp::udp;
use serde::Serializer;

/// The message of a packet. It has no contract: tests compare the texts.
pub(crate) fn member<S: Serializer>(
    out: &mut S,
    transport: &TransportSlice<'_>,
) -> Result<(), S::Error> {
    begin(out, "transport")?;
    slice(out, transport)?;
    out.end_map()
}

fn slice<S: Serializer>(out: &mut S, transport: &TransportSlice<'_>) -> Result<(), S::Error> {
    match transport {
        TransportSlice::Icmpv4(message) => icmp::over_ipv4(out, message),
        TransportSlice::Icmpv6(message) => icmp::over_ipv6(out, message),
        TransportSlice::Udp(datagram) => udp(out, datagram),
        TransportSlice::Tcp(segment) => tcp(out, segment),
    }
}

/// The message of an original datagram: of an ICMP error only its header. It has no contract: tests
/// compare the texts.
pub(crate) fn header<S: Serializer>(
    out: &mut S,
    transport: &TransportSlice<'_>,
) -> Result<(), S::Error> {
    begin(out, "transport")?;
    match transport {
        TransportSlice::Icmpv4(message) => icmp_header::over_ipv4(out, message)?,
        TransportSlice::Icmpv6(message) => icmp_header::over_ipv6(out, message)?,
        TransportSlice::Udp(datagram) => udp(out, datagram)?,
        TransportSlice::Tcp(segment) => tcp(out, segment)?,
    }
    out.end_map()
}

/// A reassembled message: its protocol, its length, and its header or why it is refused. It has no
/// contract: tests compare the texts.
pub(crate) fn completed<S: Serializer>(
    out: &mut S,
    ip_number: IpNumber,
    bytes: &[u8],
) -> Result<(), S::Error> {
    number(out, "ip_number", ip_number.0.into())?;
    number(out, "len", bytes.len() as u64)?;
    match read_message(ip_number, bytes) {
        Ok(read) => message(out, ip_number, &read),
        Err(error) => errors::member(out, "error", &error),
    }
}

// Its header, if its protocol is one that is read.
fn message<S: Serializer>(
    out: &mut S,
    ip_number: IpNumber,
    message: &Message<'_>,
) -> Result<(), S::Error> {
    if let Message::Raw(bytes) = message {
        return other::message(out, ip_number, bytes);
    }
    begin(out, "transport")?;
    message_header(out, message)?;
    out.end_map()
}

fn message_header<S: Serializer>(out: &mut S, message: &Message<'_>) -> Result<(), S::Error> {
    match message {
        Message::Icmpv4(message) => icmp::over_ipv4(out, message),
        Message::Icmpv6(message) => icmp::over_ipv6(out, message),
        Message::Udp(datagram) => udp(out, datagram),
        Message::Tcp(segment) => tcp(out, segment),
        Message::Raw(_) => Ok(()),
    }
}
