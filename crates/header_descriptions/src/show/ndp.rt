//! Messages of neighbor discovery (RFC 4861) in words.

use crate::show::addresses::{hardware, ipv6};
use crate::show::line::Line;
use ep_icmp::icmpv6::ndp::{
    NdpMessage, NdpOption, NdpOptionError, NdpOptionsIterator, NdpSlice, PrefixInformation,
};
use std::alloc::AllocError;

/// What a message says after its name: its fields, then its options up to one that can't be read,
/// then its flags. It has no contract: tests compare the texts.
pub(crate) fn ndp(line: &mut Line<'_>, message: &NdpSlice<'_>) -> Result<(), AllocError> {
    match message.message() {
        NdpMessage::RouterSolicitation => options(line, message, ""),
        NdpMessage::RouterAdvertisement {
            managed,
            other,
            router_lifetime,
            ..
        } => {
            line.counted(" lifetime ", router_lifetime.into())?;
            options(line, message, "")?;
            flags(line, &[(managed, "managed"), (other, "other")])
        }
        NdpMessage::NeighborSolicitation { target } => {
            line.text(", who has ")?;
            ipv6(line, &target)?;
            options(line, message, "")
        }
        NdpMessage::NeighborAdvertisement {
            router,
            solicited,
            overrides,
            target,
        } => {
            line.text(" ")?;
            ipv6(line, &target)?;
            options(line, message, " is")?;
            let flags_of = [
                (router, "router"),
                (solicited, "solicited"),
                (overrides, "override"),
            ];
            flags(line, &flags_of)
        }
        NdpMessage::Redirect {
            target,
            destination,
        } => {
            line.text(" of ")?;
            ipv6(line, &destination)?;
            line.text(" to ")?;
            ipv6(line, &target)?;
            options(line, message, "")
        }
    }
}

// The words of flags that are set, in brackets.
fn flags(line: &mut Line<'_>, flags: &[(bool, &str)]) -> Result<(), AllocError> {
    let mut before = " (";
    for &(is_set, word) in flags {
        if is_set {
            line.text(before)?;
            line.text(word)?;
            before = ", ";
        }
    }
    if before == ", " {
        line.text(")")
    } else {
        Ok(())
    }
}

// The options in their order. The first that can't be read ends them.
fn options(line: &mut Line<'_>, message: &NdpSlice<'_>, before_at: &str) -> Result<(), AllocError> {
    let mut options = message.options();
    // Each has 8 bytes at least, but for one that is cut off.
    for _ in 0..=message.options_slice().len() / 8 {
        next_option(line, &mut options, before_at, message.header_len())?;
    }
    Ok(())
}

// The first option that is left, if there is one.
fn next_option(
    line: &mut Line<'_>,
    options: &mut NdpOptionsIterator<'_>,
    before_at: &str,
    header_len: usize,
) -> Result<(), AllocError> {
    match options.next() {
        Some(Ok(item)) => option(line, &item, before_at),
        Some(Err(error)) => unread(line, &error, header_len),
        None => Ok(()),
    }
}

fn option(line: &mut Line<'_>, option: &NdpOption<'_>, before_at: &str) -> Result<(), AllocError> {
    match option {
        NdpOption::SourceLinkLayerAddress(address) => {
            line.text(" from ")?;
            hardware(line, address.slice())
        }
        NdpOption::TargetLinkLayerAddress(address) => {
            line.text(before_at)?;
            line.text(" at ")?;
            hardware(line, address.slice())
        }
        NdpOption::PrefixInformation(information) => prefix(line, information),
        NdpOption::RedirectedHeader(packet) => {
            line.counted(" packet of ", packet.slice().len() as u64)
        }
        NdpOption::Mtu(mtu) => line.counted(" mtu ", u64::from(*mtu)),
        NdpOption::RecursiveDnsServer { addresses, .. } => {
            line.text(" dns")?;
            servers(line, addresses.slice())
        }
        NdpOption::DnsSearchList { .. } => line.text(" search list"),
        NdpOption::Unknown { kind, .. } => line.counted(" option ", u64::from(*kind)),
    }
}

fn prefix(line: &mut Line<'_>, information: &PrefixInformation) -> Result<(), AllocError> {
    line.text(" prefix ")?;
    ipv6(line, &information.prefix)?;
    line.counted("/", information.prefix_length.into())
}

fn servers(line: &mut Line<'_>, addresses: &[u8]) -> Result<(), AllocError> {
    let (addresses, _) = addresses.as_chunks::<16>();
    for address in addresses {
        line.text(" ")?;
        ipv6(line, address)?;
    }
    Ok(())
}

// Why an option can't be read, by its offset in the message.
fn unread(
    line: &mut Line<'_>,
    error: &NdpOptionError,
    header_len: usize,
) -> Result<(), AllocError> {
    match error {
        NdpOptionError::ZeroLength { offset } => {
            at_byte(line, header_len, *offset)?;
            line.text(" of length 0")
        }
        NdpOptionError::UnexpectedEnd { offset, .. } => {
            at_byte(line, header_len, *offset)?;
            line.text(" cut off")
        }
    }
}

fn at_byte(line: &mut Line<'_>, header_len: usize, offset: usize) -> Result<(), AllocError> {
    line.counted(
        ", option at byte ",
        header_len.saturating_add(offset) as u64,
    )
}
