//! ICMP messages, with the datagrams that errors are about.

use crate::Net;
use crate::original_datagram::{original_in_icmpv4, original_in_icmpv6, ports_of};
use crate::outline::lax_net_of;
use crate::show::endpoints::endpoints;
use crate::show::fragment_headers::{fragment_at, lax_fragment_offset};
use ep_icmp::{Icmpv4Slice, Icmpv6Slice};
use ep_packet::{LaxNetSlice, LaxSlicedPacket};
use header_descriptions::show::{Line, icmp, names};
use std::alloc::AllocError;

/// The kind of a message over IPv4; then the datagram that it is about, or the length of its payload.
/// It has no contract: tests compare the texts.
#[inline(never)]
pub(crate) fn over_ipv4(
    line: &mut Line<'_>,
    message: &Icmpv4Slice<'_>,
    payload_len: usize,
) -> Result<(), AllocError> {
    icmp::over_ipv4(line, message)?;
    original_or_len(line, original_in_icmpv4(message), payload_len)
}

/// The same of one over IPv6; of neighbor discovery and multicast listener discovery what it says. It
/// has no contract: tests compare the texts.
#[inline(never)]
pub(crate) fn over_ipv6(
    line: &mut Line<'_>,
    message: &Icmpv6Slice<'_>,
    payload_len: usize,
) -> Result<(), AllocError> {
    icmp::over_ipv6(line, message)?;
    if icmp::neighbors_or_groups(line, message)? {
        return Ok(());
    }
    original_or_len(line, original_in_icmpv6(message), payload_len)
}

fn original_or_len(
    line: &mut Line<'_>,
    original: Option<LaxSlicedPacket<'_>>,
    payload_len: usize,
) -> Result<(), AllocError> {
    match original {
        Some(layers) => {
            line.text(" (")?;
            original_datagram(line, &layers.net)?;
            line.text(")")
        }
        None => line.counted(" len ", payload_len as u64),
    }
}

// Where it came from and went to, with its ports, its protocol, and of a fragment the offset.
fn original_datagram(line: &mut Line<'_>, net: &Option<LaxNetSlice<'_>>) -> Result<(), AllocError> {
    let Some(Net::Ip(addresses, number)) = lax_net_of(net) else {
        return Ok(());
    };
    endpoints(line, &addresses, ports_of(net))?;
    line.text(" ")?;
    names::protocol(line, number)?;
    match lax_fragment_offset(net) {
        Some(offset) => {
            line.text(" ")?;
            fragment_at(line, offset)
        }
        None => Ok(()),
    }
}
