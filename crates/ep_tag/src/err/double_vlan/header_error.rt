//! Faults in the bytes of two VLAN tags.

use ep_base::EtherType;
use thiserror::Error;

/// What is wrong with the bytes of two VLAN tags.
#[derive(Clone, Copy, Debug, PartialEq, Eq, Hash, Error)]
pub enum HeaderError {
    /// The ether type of the outer tag names no VLAN tag (IEEE 802.1Q, section 9.6).
    #[error("double VLAN header error: no VLAN tag follows the outer one, but ether type {unexpected_ether_type:?}")]
    NonVlanEtherType { unexpected_ether_type: EtherType },
}
