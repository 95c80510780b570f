//! Numbers of the link layer.

mod ether_type;
pub mod ether_types;

pub use ether_type::EtherType;
