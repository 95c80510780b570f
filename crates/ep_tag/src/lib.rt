//! The tags between a link header and the packet: VLAN tags (IEEE 802.1Q) and MACsec headers
//! (IEEE 802.1AE), and what their ether types name.
#![tactic(auto)]

pub mod err;
pub mod laws;
mod link;

pub use link::{
    DoubleVlanHeader, DoubleVlanHeaderSlice, DoubleVlanSlice, EtherPayloadSlice,
    LaxEtherPayloadSlice, LaxLinkExtSlice, LaxMacsecPayloadSlice, LaxMacsecSlice, LinkExtHeader,
    LinkExtSlice, MacsecAn, MacsecHeader, MacsecHeaderSlice, MacsecPType, MacsecPayloadSlice,
    MacsecShortLen, MacsecSlice, SingleVlanHeader, SingleVlanHeaderSlice, SingleVlanSlice,
    VlanHeader, VlanId, VlanPcp, VlanSlice,
};
