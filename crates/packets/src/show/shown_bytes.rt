//! The bytes that are shown of packets.
ghost use Rattle.std.specs.Prelude.{◌≡◌, ◌++◌, OnOk, drop};
ghost use Rattle.packets.specs.ShownBytes.{bytes_after_link, details_of};

use crate::{Dissection, ShowOptions};
use ep_link::Ethernet2Header;
use header_descriptions::show::byte_lines::append_byte_lines;
use std::alloc::AllocError;

/// Which bytes of a packet are shown.
#[derive(Clone, Copy, Debug, PartialEq, Eq)]
pub enum ShownBytes {
    /// None.
    Nothing,
    /// Those after the header of its link.
    AfterLink,
    /// Those of its Ethernet II frame; where it was captured with another link, those after its header.
    Frame,
}

impl ShowOptions {
    /// Appends the lines with the bytes of a packet, if they are shown, as
    /// [`append_byte_lines`](header_descriptions::show::byte_lines::append_byte_lines) writes them.
    pub fn write_bytes(&self, packet: &Dissection<'_>, out: &mut Vec<u8>) -> Result<(), AllocError>
        ensures { OnOk result
            (out.new.items ≡ out.old.items ++ details_of self.now.bytes packet.now) }
    {
        match self.bytes {
            ShownBytes::Nothing => Ok(()),
            ShownBytes::AfterLink => append_byte_lines(bytes_after_link(packet), out),
            ShownBytes::Frame => append_byte_lines(packet.bytes.bytes(), out),
        }
    }
}

fn bytes_after_link<'p>(packet: &'p Dissection<'_>) -> &'p [u8]
    ensures { result.now ≡ bytes_after_link packet.now.header packet.now.bytes }
{
    let bytes = packet.bytes.bytes();
    match &packet.header {
        Some(_) => bytes,
        None => after_ethernet(bytes),
    }
}

fn after_ethernet(bytes: &[u8]) -> &[u8]
    ensures { result.now ≡ drop 14 bytes.now }
{
    match bytes.get(Ethernet2Header::LEN..) {
        Some(rest) => rest,
        None => &[],
    }
}
