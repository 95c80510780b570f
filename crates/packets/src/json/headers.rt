//! The members of an object for the headers of a packet.

use crate::json::{link, net, other, transport};
use captures::Header;
use ep_packet::{LaxSlicedPacket, SlicedPacket};
use header_descriptions::json::link::{lax_tags, tags};
use serde::Serializer;

/// The headers of a packet, the outer one first. One may have been made in place of the link's own.
/// It has no contract: tests compare the texts.
pub(crate) fn members<S: Serializer>(
    out: &mut S,
    layers: &SlicedPacket<'_>,
    made: Option<&Header>,
) -> Result<(), S::Error> {
    link::header(out, layers.link.as_ref(), made)?;
    tags(out, layers.link_exts.as_slice())?;
    net::member(out, layers)?;
    net::final_destination(out, layers)?;
    match &layers.transport {
        Some(transport) => transport::member(out, transport),
        None => other::payload(out, &layers.net),
    }
}

/// The headers that are there of a packet that is refused. It has no contract: tests compare the
/// texts.
pub(crate) fn lax_headers<S: Serializer>(
    out: &mut S,
    layers: &LaxSlicedPacket<'_>,
    made: Option<&Header>,
) -> Result<(), S::Error> {
    link::header(out, layers.link.as_ref(), made)?;
    lax_tags(out, layers.link_exts.as_slice())?;
    net::lax_net(out, layers)?;
    match &layers.transport {
        Some(transport) => transport::member(out, transport),
        None => other::lax_payload(out, &layers.net),
    }
}
