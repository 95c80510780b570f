//! What IP headers have besides addresses: options and extension headers.

use ep_ip::Ipv4HeaderSlice;
use ep_ipslice::{Ipv4ExtensionsSlice, Ipv6ExtensionsSlice};
use ep_packet::{LaxNetSlice, NetSlice};
use header_descriptions::show::{Line, ip};
use std::alloc::AllocError;

/// The options and the extension headers of an IP packet by name, if it has some. It has no contract:
/// tests compare the texts.
pub(crate) fn net_headers(
    line: &mut Line<'_>,
    net: &Option<NetSlice<'_>>,
) -> Result<(), AllocError> {
    match net {
        Some(NetSlice::Ipv4(packet)) => over_ipv4(line, packet.header(), packet.extensions()),
        Some(NetSlice::Ipv6(packet)) => over_ipv6(line, packet.extensions()),
        _ => Ok(()),
    }
}

/// The same of what is there of a packet that is refused. It has no contract: tests compare the texts.
pub(crate) fn lax_net_headers(
    line: &mut Line<'_>,
    net: &Option<LaxNetSlice<'_>>,
) -> Result<(), AllocError> {
    match net {
        Some(LaxNetSlice::Ipv4(packet)) => over_ipv4(line, packet.header(), packet.extensions()),
        Some(LaxNetSlice::Ipv6(packet)) => over_ipv6(line, packet.extensions()),
        _ => Ok(()),
    }
}

fn over_ipv4(
    line: &mut Line<'_>,
    header: &Ipv4HeaderSlice<'_>,
    extensions: &Ipv4ExtensionsSlice<'_>,
) -> Result<(), AllocError> {
    let has_auth = extensions.auth.is_some();
    if header.ihl() == 5 && !has_auth {
        return Ok(());
    }
    ip::over_ipv4(line, header.options(), has_auth)
}

fn over_ipv6(line: &mut Line<'_>, extensions: &Ipv6ExtensionsSlice<'_>) -> Result<(), AllocError> {
    if extensions.is_empty() {
        return Ok(());
    }
    ip::over_ipv6(line, extensions)
}
