//! The note after an error: what its input is, or the name of its link type and the option for it.
use crate::looks::Look;
use captures::{CaptureError, RunError};
use std::fmt;

/// An error as it is reported, with the note after it.
#[derive(Debug, Drop)]
pub struct ReportedError<N> {
    /// The error.
    pub error: RunError,
    /// Nothing, or a remark, after a colon or a semicolon.
    pub note: N,
}

/// It has no contract: tests compare the texts.
impl<N: fmt::Display> fmt::Display for ReportedError<N> {
    fn fmt<W: fmt::Write>(&self, f: &mut fmt::Formatter<W>) -> fmt::Result {
        let (error, note) = (self.error, &self.note);
        match error {
            // An input that is no capture has no position in it.
            RunError::Capture(CaptureError::NotCapture, _) => write!(f, "no capture file{note}"),
            _ => write!(f, "{error}{note}"),
        }
    }
}

/// The note after an error that ends a reader of captures, where the input looks like this:
/// nothing, or a colon and what the input is, or what link the error is about and the option that
/// passes over its packets. It has no contract: tests compare the texts.
pub fn note(error: RunError, look: Look) -> &'static str {
    match error {
        RunError::Capture(CaptureError::NotCapture, _) => match look {
            Look::Empty => ": the input is empty",
            Look::Text => ": the input is text",
            _ => compression_note(look),
        },
        RunError::Capture(CaptureError::LinkType(number), _) => link_note(number),
        RunError::Read => match look {
            Look::Directory => ": it is a directory",
            _ => "",
        },
        _ => "",
    }
}

/// The note after an error where the input is compressed; it has no contract, as `note`.
pub fn compression_note(look: Look) -> &'static str {
    match look {
        Look::Gzip => ": the input is compressed, `gzip -dc` opens it",
        Look::Zstd => ": the input is compressed, `zstd -dc` opens it",
        Look::Xz => ": the input is compressed, `xz -dc` opens it",
        Look::Bzip2 => ": the input is compressed, `bzip2 -dc` opens it",
        _ => "",
    }
}

/// The program that writes what a compressed input holds, where this is one. It has no contract, as
/// `note`.
pub fn opener(look: Look) -> Option<&'static str> {
    match look {
        Look::Gzip => Some("zcat"),
        Look::Zstd => Some("zstdcat"),
        Look::Xz => Some("xzcat"),
        Look::Bzip2 => Some("bzcat"),
        _ => None,
    }
}

// The names of the registry of link types, without their prefix, and the option.
fn link_note(number: u16) -> &'static str {
    match number {
        9 => ": it is PPP; --skip passes over its packets",
        105 => ": it is IEEE802_11, of wireless networks; --skip passes over its packets",
        127 => {
            ": it is IEEE802_11_RADIOTAP, of wireless networks; --skip passes over its packets"
        }
        189 => ": it is USB_LINUX; --skip passes over its packets",
        220 => ": it is USB_LINUX_MMAPPED; --skip passes over its packets",
        251 => ": it is BLUETOOTH_LE_LL; --skip passes over its packets",
        252 => ": it is WIRESHARK_UPPER_PDU, of exported packets; --skip passes over its packets",
        253 => ": it is NETLINK; --skip passes over its packets",
        _ => "; --skip passes over its packets",
    }
}
