//! A section of a pcapng file.
ghost use Rattle.std.specs.Prelude.{◌≡◌};
ghost use Rattle.captures.specs.Units.{no_section};

use crate::byte_order::ByteOrder;
use crate::link::kind::Link;
use crate::skipped::Passing;
use crate::time::clock::Clock;
use crate::unfit::Unfit;

/// The link type of Ethernet frames.
pub(crate) const ETHERNET: u16 = 1;

/// How many interfaces of a section may have any link. Those after them have Ethernet.
pub(crate) const LINKED_INTERFACES: usize = 32;

/// How many clocks are known: those of these interfaces, and one that all after them share.
pub(crate) const CLOCK_COUNT: usize = LINKED_INTERFACES + 1;

/// What is known of a section after some of its blocks.
#[derive(Clone, Copy)]
pub(crate) struct Section {
    pub order: ByteOrder,
    /// The number of its first interface, over the whole file.
    pub first: u32,
    /// How many interfaces it has described.
    pub interfaces: u32,
    /// The snap length of its first interface, 0 for no limit.
    pub snap_len: u32,
    /// The links of its first interfaces. The values for those that aren't described yet have no
    /// meaning.
    pub links: [Link; LINKED_INTERFACES],
    /// Their clocks, and that of the last one after them.
    pub clocks: [Clock; CLOCK_COUNT],
    /// What happens to its packets that can't be reported.
    pub passing: Passing,
}

/// Before the first block of a file: no interface is described, and the byte order has no effect.
pub(crate) fn no_section(unfit: Unfit) -> Section
    ensures { result ≡ no_section unfit }
{
    Section {
        order: ByteOrder::Big,
        first: 0,
        interfaces: 0,
        snap_len: 0,
        links: [Link::Ethernet; LINKED_INTERFACES],
        clocks: [Clock::USUAL; CLOCK_COUNT],
        passing: Passing::from(unfit),
    }
}
