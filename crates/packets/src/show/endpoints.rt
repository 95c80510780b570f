//! Where packets come from and go to.

use ep_packet::Addresses;
use header_descriptions::show::Line;
use header_descriptions::show::addresses::{ipv4, ipv6};
use std::alloc::AllocError;

/// The ports of a message.
#[derive(Clone, Copy, Debug, PartialEq, Eq, Hash)]
pub struct Ports {
    /// The source port.
    pub source: u16,
    /// The destination port.
    pub destination: u16,
}

/// Where a packet came from and went to, with ports if there are any. It has no contract: tests
/// compare the texts.
pub(crate) fn endpoints(
    line: &mut Line<'_>,
    addresses: &Addresses,
    ports: Option<Ports>,
) -> Result<(), AllocError> {
    source(line, addresses)?;
    port(line, ports.map(|ports| ports.source))?;
    line.text(" > ")?;
    destination(line, addresses)?;
    port(line, ports.map(|ports| ports.destination))
}

fn source(line: &mut Line<'_>, addresses: &Addresses) -> Result<(), AllocError> {
    match addresses {
        Addresses::V4 { source, .. } => ipv4(line, source),
        Addresses::V6 { source, .. } => ipv6(line, source),
    }
}

fn destination(line: &mut Line<'_>, addresses: &Addresses) -> Result<(), AllocError> {
    match addresses {
        Addresses::V4 { destination, .. } => ipv4(line, destination),
        Addresses::V6 { destination, .. } => ipv6(line, destination),
    }
}

fn port(line: &mut Line<'_>, port: Option<u16>) -> Result<(), AllocError> {
    match port {
        Some(port) => line.counted(".", port.into()),
        None => Ok(()),
    }
}
