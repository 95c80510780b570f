//! The refusal of a next header number by an ARP packet.

use thiserror::Error;

/// Why no next header number was set in headers of the network layer.
#[derive(Clone, Copy, Debug, PartialEq, Eq, Hash, Error)]
pub enum NetSetNextHeaderError {
    /// They are an ARP packet, which nothing follows.
    #[error("an ARP packet names nothing that follows")]
    ArpHeader,
}
