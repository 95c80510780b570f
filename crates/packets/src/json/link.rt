//! Link headers.

use captures::Header;
use ep_link::LinkSlice;
use header_descriptions::json::fields::{begin, hardware, number};
use header_descriptions::json::link::ethernet2;
use serde::Serializer;

/// The link header of a packet, or that which was made in its place. It has no contract: tests
/// compare the texts.
pub(crate) fn header<S: Serializer>(
    out: &mut S,
    link: Option<&LinkSlice<'_>>,
    made: Option<&Header>,
) -> Result<(), S::Error> {
    begin(out, "link")?;
    if let Some(LinkSlice::Ethernet2(frame)) = link {
        ethernet2(out, frame)?;
    }
    if let Some(header) = made {
        begin(out, "Made")?;
        hardware(out, "source", &header.source)?;
        number(out, "ether_type", header.ether_type.into())?;
        out.end_map()?;
    }
    out.end_map()
}
