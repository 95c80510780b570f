//! Packets as slices and as headers, over all layers, and the class of a packet: a whole message, a
//! fragment, something else, or refused.
#![tactic(auto)]

mod addresses;
mod class;
pub mod err;
mod found_tags;
pub mod laws;
mod lax_layer_headers;
mod lax_layer_slices;
mod lax_packet_headers;
mod lax_payload_slice;
mod lax_sliced_packet;
mod lax_tagged_slice;
mod layer_headers;
mod layer_slices;
mod message;
mod net;
mod packet_headers;
mod payload_slice;
mod slice_fault;
mod sliced_fragment;
mod sliced_packet;
mod tagged_slice;
mod transport;

pub use addresses::Addresses;
pub use class::{Class, IpFragment, WholeMessage};
pub use lax_packet_headers::LaxPacketHeaders;
pub use lax_payload_slice::LaxPayloadSlice;
pub use lax_sliced_packet::LaxSlicedPacket;
pub use message::{Message, read_message};
pub use net::{
    IpHeader, IpHeaders, IpHeadersIpv6LaxFromSliceResult, IpHeadersLaxFromSliceResult, LaxNetSlice,
    NetHeaders, NetSlice,
};
pub use packet_headers::PacketHeaders;
pub use payload_slice::PayloadSlice;
pub use sliced_fragment::SlicedFragment;
pub use sliced_packet::SlicedPacket;
pub use transport::{TransportHeader, TransportSlice};
