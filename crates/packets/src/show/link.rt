//! The link of a packet, and what isn't IP.

use crate::payload::payload_of;
use captures::Header;
use ep_base::EtherType;
use ep_link::LinkSlice;
use ep_packet::{LaxSlicedPacket, SlicedPacket};
use ep_tag::{
    LaxLinkExtSlice, LaxMacsecPayloadSlice, LinkExtSlice, MacsecHeaderSlice, MacsecPayloadSlice,
};
use header_descriptions::show::{Line, addresses, names};
use std::alloc::AllocError;

/// The addresses of the link of a packet, by its own header or by that which was made, whose address
/// isn't shown where it is all zeros. It has no contract: tests compare the texts.
pub(crate) fn link_addresses(
    line: &mut Line<'_>,
    link: Option<&LinkSlice<'_>>,
    made: Option<&Header>,
) -> Result<(), AllocError> {
    ethernet(line, link)?;
    match made {
        Some(header) if header.source != [0; 6] => source_of(line, made),
        _ => Ok(()),
    }
}

/// A packet that has nothing of the network layer that is looked into: its addresses and what it
/// is. It has no contract: tests compare the texts.
pub(crate) fn other(
    line: &mut Line<'_>,
    layers: &SlicedPacket<'_>,
    made: Option<&Header>,
) -> Result<(), AllocError> {
    ethernet(line, layers.link.as_ref())?;
    source_of(line, made)?;
    content(line, layers.payload_ether_type(), hidden(layers))?;
    line.counted(" len ", payload_of(layers).len() as u64)
}

/// The same of one that is refused, by the headers that are there, without its length, and with
/// [`link_addresses`]. It has no contract: tests compare the texts.
pub(crate) fn lax_other(
    line: &mut Line<'_>,
    layers: &LaxSlicedPacket<'_>,
    made: Option<&Header>,
) -> Result<(), AllocError> {
    link_addresses(line, layers.link.as_ref(), made)?;
    content(line, layers.payload_ether_type(), lax_hidden(layers))
}

// The addresses of an Ethernet frame, if it is one.
fn ethernet(line: &mut Line<'_>, link: Option<&LinkSlice<'_>>) -> Result<(), AllocError> {
    let Some(LinkSlice::Ethernet2(frame)) = link else {
        return Ok(());
    };
    addresses::hardware(line, &frame.source())?;
    line.text(" > ")?;
    addresses::hardware(line, &frame.destination())?;
    line.text(" ")
}

fn source_of(line: &mut Line<'_>, made: Option<&Header>) -> Result<(), AllocError> {
    let Some(header) = made else {
        return Ok(());
    };
    addresses::hardware(line, &header.source)?;
    line.text(" ")
}

// What an ether type names, or what follows tags that hide it.
fn content(
    line: &mut Line<'_>,
    ether_type: Option<EtherType>,
    hidden: &str,
) -> Result<(), AllocError> {
    match ether_type {
        Some(ether_type) => names::ether_type(line, ether_type),
        None => line.text(hidden),
    }
}

fn hidden(layers: &SlicedPacket<'_>) -> &'static str {
    match layers.link_exts.as_slice().last() {
        Some(LinkExtSlice::Macsec(tag)) => match &tag.payload {
            MacsecPayloadSlice::Modified(_) => modified(&tag.header),
            MacsecPayloadSlice::Unmodified(_) => "unknown",
        },
        _ => "unknown",
    }
}

fn lax_hidden(layers: &LaxSlicedPacket<'_>) -> &'static str {
    match layers.link_exts.as_slice().last() {
        Some(LaxLinkExtSlice::Macsec(tag)) => match &tag.payload {
            LaxMacsecPayloadSlice::Modified { .. } => modified(&tag.header),
            LaxMacsecPayloadSlice::Unmodified(_) => "unknown",
        },
        _ => "unknown",
    }
}

fn modified(header: &MacsecHeaderSlice<'_>) -> &'static str {
    if header.encrypted() {
        "encrypted"
    } else {
        "changed"
    }
}
