//! IP headers.

use crate::json::extensions::{auth, list};
use crate::json::fields::{Hex, begin, flag, ipv4_address, ipv6_address, numbers, printed};
use ep_ip::{Ipv4HeaderSlice, Ipv6HeaderSlice};
use ep_ipslice::{Ipv4ExtensionsSlice, Ipv6ExtensionsSlice};
use serde::Serializer;

/// An IPv4 header (RFC 791), and an authentication header after it. It has no contract: tests
/// compare the texts.
pub fn ipv4<S: Serializer>(
    out: &mut S,
    header: &Ipv4HeaderSlice<'_>,
    extensions: &Ipv4ExtensionsSlice<'_>,
) -> Result<(), S::Error> {
    begin(out, "Ipv4")?;
    ipv4_header(out, header)?;
    if let Some(header) = &extensions.auth {
        begin(out, "auth")?;
        auth(out, header)?;
        out.end_map()?;
    }
    out.end_map()
}

fn ipv4_header<S: Serializer>(out: &mut S, header: &Ipv4HeaderSlice<'_>) -> Result<(), S::Error> {
    let leading = [
        ("dscp", header.dcp().value().into()),
        ("ecn", header.ecn().value().into()),
        ("total_len", header.total_len().into()),
        ("identification", header.identification().into()),
    ];
    numbers(out, &leading)?;
    flag(out, "dont_fragment", header.dont_fragment())?;
    flag(out, "more_fragments", header.more_fragments())?;
    let rest = [
        ("fragment_offset", header.fragments_offset().value().into()),
        ("time_to_live", header.ttl().into()),
        ("protocol", header.protocol().0.into()),
        ("header_checksum", header.header_checksum().into()),
    ];
    numbers(out, &rest)?;
    ipv4_address(out, "source", header.source())?;
    ipv4_address(out, "destination", header.destination())?;
    printed(out, "options", &Hex(header.options()))
}

/// An IPv6 header (RFC 8200), and the extension headers after it. It has no contract: tests compare
/// the texts.
pub fn ipv6<S: Serializer>(
    out: &mut S,
    header: &Ipv6HeaderSlice<'_>,
    extensions: &Ipv6ExtensionsSlice<'_>,
) -> Result<(), S::Error> {
    begin(out, "Ipv6")?;
    ipv6_header(out, header)?;
    list(out, extensions)?;
    out.end_map()
}

fn ipv6_header<S: Serializer>(out: &mut S, header: &Ipv6HeaderSlice<'_>) -> Result<(), S::Error> {
    let members = [
        ("traffic_class", header.traffic_class().into()),
        ("flow_label", header.flow_label().value().into()),
        ("payload_length", header.payload_length().into()),
        ("next_header", header.next_header().0.into()),
        ("hop_limit", header.hop_limit().into()),
    ];
    numbers(out, &members)?;
    ipv6_address(out, "source", header.source())?;
    ipv6_address(out, "destination", header.destination())
}
