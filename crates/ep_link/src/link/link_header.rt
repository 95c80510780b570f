//! The link header of a packet as a value: of Ethernet II, or of a Linux cooked capture.
ghost use Rattle.std.specs.Prelude.{◌≡◌, ◌+◌, ◌≤◌, ◌++◌, OnOk, OnErr, IsOk, vec_len, vec_capacity};
ghost use Rattle.std.specs.Option.{option_copied_mut};
ghost use Rattle.std.specs.Borrow.{sem};
ghost use Rattle.ep_link.specs.LinkLends.{lends_ethernet2, lends_linux_sll};
ghost use Rattle.ep_link.specs.Link.{ethernet2_in, linux_sll_in, link_len, link_encoding};

use super::{Ethernet2Header, LinuxSllHeader};
use std::alloc::AllocError;

/// A link header.
#[derive(Clone, Debug, PartialEq, Eq, Drop)]
pub enum LinkHeader {
    /// An Ethernet II header.
    Ethernet2(Ethernet2Header),
    /// The header of a Linux cooked capture.
    LinuxSll(LinuxSllHeader),
}

impl LinkHeader {
    /// The Ethernet II header, where it is one.
    pub fn ethernet2(self) -> Option<Ethernet2Header>
        ensures { result ≡ ethernet2_in self }
    {
        match self {
            LinkHeader::Ethernet2(header) => Some(header),
            LinkHeader::LinuxSll(_) => None,
        }
    }

    /// The header of a Linux cooked capture, where it is one.
    pub fn linux_sll(self) -> Option<LinuxSllHeader>
        ensures { result ≡ linux_sll_in self }
    {
        match self {
            LinkHeader::Ethernet2(_) => None,
            LinkHeader::LinuxSll(header) => Some(header),
        }
    }

    /// The Ethernet II header for writing, where it is one.
    pub fn mut_ethernet2(&mut self) -> Option<&mut Ethernet2Header>
        ensures* writes_back { sem 𝓛 (lends_ethernet2 self.entry result) }
        ensures value { option_copied_mut result ≡ ethernet2_in self.old }
    {
        match self {
            LinkHeader::Ethernet2(header) => Some(header),
            LinkHeader::LinuxSll(_) => None,
        }
    }

    /// The header of a Linux cooked capture for writing, where it is one.
    pub fn mut_linux_sll(&mut self) -> Option<&mut LinuxSllHeader>
        ensures* writes_back { sem 𝓛 (lends_linux_sll self.entry result) }
        ensures value { option_copied_mut result ≡ linux_sll_in self.old }
    {
        match self {
            LinkHeader::Ethernet2(_) => None,
            LinkHeader::LinuxSll(header) => Some(header),
        }
    }

    /// The length of the header in bytes: 14 or 16.
    pub fn header_len(&self) -> usize
        ensures { result ≡ link_len self.now }
    {
        match self {
            LinkHeader::Ethernet2(header) => header.header_len(),
            LinkHeader::LinuxSll(header) => header.header_len(),
        }
    }

    /// Appends the bytes of the header.
    pub fn write(&self, buffer: &mut Vec<u8>) -> Result<(), AllocError>
        ensures ok { OnOk result (buffer.new.items ≡ buffer.old.items ++ link_encoding self.now) }
        ensures len { OnOk result (vec_len buffer.new ≡ vec_len buffer.old + link_len self.now) }
        ensures err { OnErr result (buffer.new.items ≡ buffer.old.items) }
        // It fails only where capacity was missing, and capacity never shrinks.
        ensures succeeds { vec_len buffer.old + link_len self.now ≤ vec_capacity buffer.old
            → IsOk result }
        ensures capacity { vec_capacity buffer.old ≤ vec_capacity buffer.new }
    {
        match self {
            LinkHeader::Ethernet2(header) => header.write(buffer),
            LinkHeader::LinuxSll(header) => header.write(buffer),
        }
    }
}

impl From<Ethernet2Header> for LinkHeader {
    ghost use Rattle.std.specs.Prelude.{◌≡◌};
    ghost use Rattle.ep_link.specs.declared.link.link_header.LinkHeader.TheVariants as variant;

    ghost from_gives = { λ header link. link ≡ variant.Ethernet2 header };

    fn from(header: Ethernet2Header) -> Self {
        LinkHeader::Ethernet2(header)
    }
}

impl From<LinuxSllHeader> for LinkHeader {
    ghost use Rattle.std.specs.Prelude.{◌≡◌};
    ghost use Rattle.ep_link.specs.declared.link.link_header.LinkHeader.TheVariants as variant;

    ghost from_gives = { λ header link. link ≡ variant.LinuxSll header };

    fn from(header: LinuxSllHeader) -> Self {
        LinkHeader::LinuxSll(header)
    }
}
