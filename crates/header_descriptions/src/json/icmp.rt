//! ICMP messages.

use crate::json::fields::{Hex, begin, ipv4_address, number, numbers, printed};
use crate::json::{groups, ndp};
use ep_icmp::icmpv4::{DestUnreachableHeader, ParameterProblemHeader, TimestampMessage};
use ep_icmp::icmpv6::mld::MldMessage;
use ep_icmp::icmpv6::ndp::NdpSlice;
use ep_icmp::{IcmpEchoHeader, Icmpv4Slice, Icmpv4Type, Icmpv6Slice, Icmpv6Type};
use serde::Serializer;

/// The header of a message over IPv4, with the fields that its kind has. It has no contract: tests
/// compare the texts.
pub fn over_ipv4<S: Serializer>(out: &mut S, message: &Icmpv4Slice<'_>) -> Result<(), S::Error> {
    begin_over_ipv4(out, message)?;
    out.end_map()
}

/// The same, up to where other members may follow. It has no contract: tests compare the texts.
pub fn begin_over_ipv4<S: Serializer>(
    out: &mut S,
    message: &Icmpv4Slice<'_>,
) -> Result<(), S::Error> {
    begin(out, "Icmpv4")?;
    let members = [
        ("type_u8", message.type_u8().into()),
        ("code_u8", message.code_u8().into()),
        ("checksum", message.checksum().into()),
    ];
    numbers(out, &members)?;
    printed(out, "bytes5to8", &Hex(&message.bytes5to8()))?;
    fields_of_icmpv4(out, message.icmp_type())
}

fn fields_of_icmpv4<S: Serializer>(out: &mut S, icmp_type: Icmpv4Type) -> Result<(), S::Error> {
    match icmp_type {
        Icmpv4Type::EchoReply(header) | Icmpv4Type::EchoRequest(header) => echo(out, &header),
        Icmpv4Type::DestinationUnreachable(
            DestUnreachableHeader::FragmentationNeeded { next_hop_mtu },
        ) => number(out, "next_hop_mtu", next_hop_mtu.into()),
        Icmpv4Type::Redirect(header) => ipv4_address(
            out,
            "gateway_internet_address",
            header.gateway_internet_address,
        ),
        Icmpv4Type::ParameterProblem(ParameterProblemHeader::PointerIndicatesError(pointer)) => {
            number(out, "pointer", pointer.into())
        }
        Icmpv4Type::TimestampRequest(header) | Icmpv4Type::TimestampReply(header) => {
            timestamp(out, &header)
        }
        _ => Ok(()),
    }
}

/// The header of a message over IPv6, with the fields that its kind has. It has no contract: tests
/// compare the texts.
pub fn over_ipv6<S: Serializer>(out: &mut S, message: &Icmpv6Slice<'_>) -> Result<(), S::Error> {
    begin_over_ipv6(out, message)?;
    out.end_map()
}

/// The same, up to where other members may follow. It has no contract: tests compare the texts.
pub fn begin_over_ipv6<S: Serializer>(
    out: &mut S,
    message: &Icmpv6Slice<'_>,
) -> Result<(), S::Error> {
    begin(out, "Icmpv6")?;
    let members = [
        ("type_u8", message.type_u8().into()),
        ("code_u8", message.code_u8().into()),
        ("checksum", message.checksum().into()),
    ];
    numbers(out, &members)?;
    printed(out, "bytes5to8", &Hex(&message.bytes5to8()))?;
    fields_of_icmpv6(out, message.icmp_type())?;
    neighbors_or_groups(out, message)
}

// What a message of neighbor discovery or multicast listener discovery has.
#[inline(never)]
fn neighbors_or_groups<S: Serializer>(
    out: &mut S,
    message: &Icmpv6Slice<'_>,
) -> Result<(), S::Error> {
    if let Some(read) = NdpSlice::from_icmpv6(message) {
        return ndp::member(out, &read);
    }
    match MldMessage::from_icmpv6(message) {
        Some(read) => groups::mld(out, read),
        None => Ok(()),
    }
}

fn fields_of_icmpv6<S: Serializer>(out: &mut S, icmp_type: Icmpv6Type) -> Result<(), S::Error> {
    match icmp_type {
        Icmpv6Type::EchoReply(header) | Icmpv6Type::EchoRequest(header) => echo(out, &header),
        Icmpv6Type::PacketTooBig { mtu } => number(out, "mtu", mtu.into()),
        Icmpv6Type::ParameterProblem(header) => number(out, "pointer", header.pointer.into()),
        _ => Ok(()),
    }
}

fn echo<S: Serializer>(out: &mut S, header: &IcmpEchoHeader) -> Result<(), S::Error> {
    number(out, "id", header.id.into())?;
    number(out, "seq", header.seq.into())
}

fn timestamp<S: Serializer>(out: &mut S, header: &TimestampMessage) -> Result<(), S::Error> {
    let members = [
        ("id", header.id.into()),
        ("seq", header.seq.into()),
        ("originate_timestamp", header.originate_timestamp.into()),
        ("receive_timestamp", header.receive_timestamp.into()),
        ("transmit_timestamp", header.transmit_timestamp.into()),
    ];
    numbers(out, &members)
}
