//! Extension headers of IP.

use crate::json::fields::{Hex, begin, flag, number, printed};
use ep_ext::{IpAuthHeaderSlice, Ipv6FragmentHeaderSlice, Ipv6RawExtHeaderSlice};
use ep_ipslice::{Ipv6ExtensionSlice, Ipv6ExtensionsSlice};
use serde::Serializer;

/// The extension headers of an IPv6 packet, in their order. It has no contract: tests compare the
/// texts.
pub fn list<S: Serializer>(
    out: &mut S,
    extensions: &Ipv6ExtensionsSlice<'_>,
) -> Result<(), S::Error> {
    out.key("extensions")?;
    out.begin_seq(None)?;
    for extension in extensions.iter() {
        out.begin_map(None)?;
        header(out, &extension)?;
        out.end_map()?;
    }
    out.end_seq()
}

fn header<S: Serializer>(out: &mut S, extension: &Ipv6ExtensionSlice<'_>) -> Result<(), S::Error> {
    match extension {
        Ipv6ExtensionSlice::HopByHop(header) => raw(out, "HopByHop", header),
        Ipv6ExtensionSlice::Routing(header) => raw(out, "Routing", header),
        Ipv6ExtensionSlice::Fragment(header) => fragment(out, header),
        Ipv6ExtensionSlice::DestinationOptions(header) => raw(out, "DestinationOptions", header),
        Ipv6ExtensionSlice::Authentication(header) => {
            begin(out, "Authentication")?;
            auth(out, header)?;
            out.end_map()
        }
    }
}

fn raw<S: Serializer>(
    out: &mut S,
    name: &str,
    header: &Ipv6RawExtHeaderSlice<'_>,
) -> Result<(), S::Error> {
    begin(out, name)?;
    number(out, "next_header", header.next_header().0.into())?;
    printed(out, "payload", &Hex(header.payload()))?;
    out.end_map()
}

fn fragment<S: Serializer>(
    out: &mut S,
    header: &Ipv6FragmentHeaderSlice<'_>,
) -> Result<(), S::Error> {
    begin(out, "Fragment")?;
    number(out, "next_header", header.next_header().0.into())?;
    number(
        out,
        "fragment_offset",
        header.fragment_offset().value().into(),
    )?;
    flag(out, "more_fragments", header.more_fragments())?;
    number(out, "identification", header.identification().into())?;
    out.end_map()
}

/// The members of an authentication header. It has no contract: tests compare the texts.
pub fn auth<S: Serializer>(out: &mut S, header: &IpAuthHeaderSlice<'_>) -> Result<(), S::Error> {
    number(out, "next_header", header.next_header().0.into())?;
    number(out, "spi", header.spi().into())?;
    number(out, "sequence_number", header.sequence_number().into())?;
    printed(out, "raw_icv", &Hex(header.raw_icv()))
}
