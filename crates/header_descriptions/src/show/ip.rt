//! IP headers: the options of IPv4 (RFC 791), and the extension headers of both versions.

use crate::show::line::Line;
use ep_ipslice::{Ipv6ExtensionSlice, Ipv6ExtensionsSlice};
use std::alloc::AllocError;

// The most options that an IPv4 header has: each has a byte at least.
const MOST_OPTIONS: usize = 40;

/// The options of an IPv4 header by name, up to one that can't be read, and whether an authentication
/// header follows. It has no contract: tests compare the texts.
#[inline(never)]
pub fn over_ipv4(line: &mut Line<'_>, options: &[u8], has_auth: bool) -> Result<(), AllocError> {
    let mut left = options;
    let mut before = " options [";
    'options: for _ in 0..MOST_OPTIONS {
        let Some(rest) = option_at(line, before, left)? else {
            break 'options;
        };
        left = rest;
        before = ",";
    }
    if before == "," {
        line.text("]")?;
    }
    if has_auth {
        line.text(" headers [authentication]")?;
    }
    Ok(())
}

// The first of these options, after this text. It returns those that follow, and `None` at the end.
fn option_at<'a>(
    line: &mut Line<'_>,
    before: &str,
    bytes: &'a [u8],
) -> Result<Option<&'a [u8]>, AllocError> {
    let kind = bytes.first().copied().unwrap_or(0);
    if kind == 0 {
        return Ok(None);
    }
    line.text(before)?;
    match option_name(kind) {
        Some(name) => line.text(name)?,
        None => line.counted("option ", kind.into())?,
    }
    if kind == 1 {
        return Ok(bytes.get(1..));
    }
    Ok(Some(after_sized(line, bytes)?))
}

/// What follows an option by its length, which is its second byte; nothing where that is no length, or
/// more than there is: then the line says it. It has no contract: tests compare the texts.
pub(crate) fn after_sized<'a>(
    line: &mut Line<'_>,
    bytes: &'a [u8],
) -> Result<&'a [u8], AllocError> {
    let rest = match bytes.get(1).copied() {
        Some(len) if len < 2 => {
            line.counted(" of length ", len.into())?;
            return Ok(&[]);
        }
        Some(len) => bytes.get(usize::from(len)..),
        None => None,
    };
    match rest {
        Some(rest) => Ok(rest),
        None => {
            line.text(" cut off")?;
            Ok(&[])
        }
    }
}

// The names of IANA's registry "IP Option Numbers".
fn option_name(kind: u8) -> Option<&'static str> {
    match kind {
        1 => Some("nop"),
        7 => Some("record route"),
        68 => Some("timestamp"),
        82 => Some("traceroute"),
        130 => Some("security"),
        131 => Some("loose source route"),
        133 => Some("extended security"),
        134 => Some("commercial security"),
        136 => Some("stream id"),
        137 => Some("strict source route"),
        148 => Some("router alert"),
        _ => None,
    }
}

/// The extension headers of an IPv6 packet by name, in their order. It has no contract: tests compare
/// the texts.
#[inline(never)]
pub fn over_ipv6(
    line: &mut Line<'_>,
    extensions: &Ipv6ExtensionsSlice<'_>,
) -> Result<(), AllocError> {
    let mut is_first = true;
    for extension in extensions.iter() {
        line.text(if is_first { " headers [" } else { "," })?;
        line.text(header_name(&extension))?;
        is_first = false;
    }
    if is_first { Ok(()) } else { line.text("]") }
}

fn header_name(extension: &Ipv6ExtensionSlice<'_>) -> &'static str {
    match extension {
        Ipv6ExtensionSlice::HopByHop(_) => "hop-by-hop",
        Ipv6ExtensionSlice::Routing(_) => "routing",
        Ipv6ExtensionSlice::Fragment(_) => "fragment",
        Ipv6ExtensionSlice::DestinationOptions(_) => "destination options",
        Ipv6ExtensionSlice::Authentication(_) => "authentication",
    }
}
