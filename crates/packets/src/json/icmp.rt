//! ICMP messages, with the datagrams that errors are about.

use crate::json::{net, transport};
use crate::original_datagram::{original_in_icmpv4, original_in_icmpv6, ports_of};
use ep_icmp::{Icmpv4Slice, Icmpv6Slice};
use ep_packet::{LaxNetSlice, LaxSlicedPacket};
use header_descriptions::json::fields::{begin, number};
use header_descriptions::json::icmp;
use serde::Serializer;

/// A message over IPv4: its header, and what is there of the datagram that it is about. It has no
/// contract: tests compare the texts.
#[inline(never)]
pub(crate) fn over_ipv4<S: Serializer>(
    out: &mut S,
    message: &Icmpv4Slice<'_>,
) -> Result<(), S::Error> {
    icmp::begin_over_ipv4(out, message)?;
    original_datagram(out, original_in_icmpv4(message))?;
    out.end_map()
}

/// The same of one over IPv6. It has no contract: tests compare the texts.
#[inline(never)]
pub(crate) fn over_ipv6<S: Serializer>(
    out: &mut S,
    message: &Icmpv6Slice<'_>,
) -> Result<(), S::Error> {
    icmp::begin_over_ipv6(out, message)?;
    original_datagram(out, original_in_icmpv6(message))?;
    out.end_map()
}

fn original_datagram<S: Serializer>(
    out: &mut S,
    original: Option<LaxSlicedPacket<'_>>,
) -> Result<(), S::Error> {
    let Some(layers) = original else {
        return Ok(());
    };
    begin(out, "original_datagram")?;
    net::lax_net(out, &layers)?;
    match &layers.transport {
        Some(transport) => transport::header(out, transport)?,
        None => ports(out, &layers.net)?,
    }
    out.end_map()
}

// Of a header that isn't there as a whole.
fn ports<S: Serializer>(out: &mut S, net: &Option<LaxNetSlice<'_>>) -> Result<(), S::Error> {
    match ports_of(net) {
        Some(ports) => {
            number(out, "source_port", ports.source.into())?;
            number(out, "destination_port", ports.destination.into())
        }
        None => Ok(()),
    }
}
