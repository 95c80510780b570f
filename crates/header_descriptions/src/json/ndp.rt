//! Messages of neighbor discovery (RFC 4861).

use crate::json::fields::{
    Hex, begin, flag, flags, hardware, ipv6_address, number, numbers, printed,
};
use crate::json::groups;
use ep_icmp::icmpv6::ndp::{
    NdpError, NdpMessage, NdpOption, NdpOptionError, NdpOptionsIterator, NdpSlice,
    PrefixInformation,
};
use serde::Serializer;

/// The message, or how many bytes are missing. It has no contract: tests compare the texts.
pub(crate) fn member<S: Serializer>(
    out: &mut S,
    read: &Result<NdpSlice<'_>, NdpError>,
) -> Result<(), S::Error> {
    begin(out, "ndp")?;
    match read {
        Ok(message) => whole(out, message)?,
        Err(error) => too_short(out, error)?,
    }
    out.end_map()
}

fn too_short<S: Serializer>(out: &mut S, error: &NdpError) -> Result<(), S::Error> {
    begin(out, "Len")?;
    number(out, "required_len", error.required_len as u64)?;
    number(out, "len", error.len as u64)?;
    out.end_map()
}

fn whole<S: Serializer>(out: &mut S, message: &NdpSlice<'_>) -> Result<(), S::Error> {
    begin_variant(out, message.message())?;
    out.key("options")?;
    out.begin_seq(None)?;
    let mut options = message.options();
    // Each has 8 bytes at least, but for one that is cut off.
    for _ in 0..=message.options_slice().len() / 8 {
        next_option(out, &mut options)?;
    }
    out.end_seq()?;
    out.end_map()
}

// The first option that is left, if there is one.
fn next_option<S: Serializer>(
    out: &mut S,
    options: &mut NdpOptionsIterator<'_>,
) -> Result<(), S::Error> {
    let Some(item) = options.next() else {
        return Ok(());
    };
    out.begin_map(None)?;
    option_or_error(out, &item)?;
    out.end_map()
}

// Begins the object of a message, up to its options.
fn begin_variant<S: Serializer>(out: &mut S, message: NdpMessage) -> Result<(), S::Error> {
    match message {
        NdpMessage::RouterSolicitation => begin(out, "RouterSolicitation"),
        NdpMessage::RouterAdvertisement {
            cur_hop_limit,
            managed,
            other,
            router_lifetime,
            reachable_time,
            retrans_timer,
        } => {
            begin(out, "RouterAdvertisement")?;
            number(out, "cur_hop_limit", cur_hop_limit.into())?;
            flags(out, &[("managed", managed), ("other", other)])?;
            let times = [
                ("router_lifetime", router_lifetime.into()),
                ("reachable_time", reachable_time.into()),
                ("retrans_timer", retrans_timer.into()),
            ];
            numbers(out, &times)
        }
        NdpMessage::NeighborSolicitation { target } => {
            begin(out, "NeighborSolicitation")?;
            ipv6_address(out, "target", target)
        }
        NdpMessage::NeighborAdvertisement {
            router,
            solicited,
            overrides,
            target,
        } => {
            begin(out, "NeighborAdvertisement")?;
            let members = [
                ("router", router),
                ("solicited", solicited),
                ("overrides", overrides),
            ];
            flags(out, &members)?;
            ipv6_address(out, "target", target)
        }
        NdpMessage::Redirect {
            target,
            destination,
        } => {
            begin(out, "Redirect")?;
            ipv6_address(out, "target", target)?;
            ipv6_address(out, "destination", destination)
        }
    }
}

fn option_or_error<S: Serializer>(
    out: &mut S,
    item: &Result<NdpOption<'_>, NdpOptionError>,
) -> Result<(), S::Error> {
    match item {
        Ok(item) => option(out, item),
        Err(error) => unread(out, error),
    }
}

fn option<S: Serializer>(out: &mut S, option: &NdpOption<'_>) -> Result<(), S::Error> {
    match option {
        NdpOption::SourceLinkLayerAddress(address) => {
            hardware(out, "SourceLinkLayerAddress", address.slice())
        }
        NdpOption::TargetLinkLayerAddress(address) => {
            hardware(out, "TargetLinkLayerAddress", address.slice())
        }
        NdpOption::PrefixInformation(information) => prefix(out, information),
        NdpOption::RedirectedHeader(packet) => {
            printed(out, "RedirectedHeader", &Hex(packet.slice()))
        }
        NdpOption::Mtu(mtu) => number(out, "Mtu", u64::from(*mtu)),
        NdpOption::RecursiveDnsServer {
            lifetime,
            addresses,
        } => {
            begin(out, "RecursiveDnsServer")?;
            number(out, "lifetime", u64::from(*lifetime))?;
            groups::addresses(out, "addresses", 16, addresses.slice())?;
            out.end_map()
        }
        NdpOption::DnsSearchList { lifetime, names } => {
            begin(out, "DnsSearchList")?;
            number(out, "lifetime", u64::from(*lifetime))?;
            printed(out, "names", &Hex(names.slice()))?;
            out.end_map()
        }
        NdpOption::Unknown { kind, bytes } => {
            begin(out, "Unknown")?;
            number(out, "kind", u64::from(*kind))?;
            printed(out, "bytes", &Hex(bytes.slice()))?;
            out.end_map()
        }
    }
}

fn prefix<S: Serializer>(out: &mut S, prefix: &PrefixInformation) -> Result<(), S::Error> {
    begin(out, "PrefixInformation")?;
    number(out, "prefix_length", prefix.prefix_length.into())?;
    flag(out, "on_link", prefix.on_link)?;
    flag(out, "autonomous", prefix.autonomous)?;
    number(out, "valid_lifetime", prefix.valid_lifetime.into())?;
    number(out, "preferred_lifetime", prefix.preferred_lifetime.into())?;
    ipv6_address(out, "prefix", prefix.prefix)?;
    out.end_map()
}

fn unread<S: Serializer>(out: &mut S, error: &NdpOptionError) -> Result<(), S::Error> {
    match error {
        NdpOptionError::UnexpectedEnd {
            offset,
            needed_len,
            actual_len,
        } => {
            begin(out, "UnexpectedEnd")?;
            number(out, "offset", *offset as u64)?;
            number(out, "needed_len", *needed_len as u64)?;
            number(out, "actual_len", *actual_len as u64)?;
        }
        NdpOptionError::ZeroLength { offset } => {
            begin(out, "ZeroLength")?;
            number(out, "offset", *offset as u64)?;
        }
    }
    out.end_map()
}
