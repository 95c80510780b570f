//! Laws of fragments, their reassembly and the packet builder. Those of a crate below are in the
//! module of its name without `ep_`. The contract of each function is the law.

pub mod defrag;
pub mod fragments;
pub mod packet_builder;
pub mod reassemblies;

pub use ep_base::laws as base;
pub use ep_ext::laws as ext;
pub use ep_icmp::laws as icmp;
pub use ep_ip::laws as ip;
pub use ep_ipslice::laws as ipslice;
pub use ep_link::laws as link;
pub use ep_packet::laws as packet;
pub use ep_tag::laws as tag;
pub use ep_tcpudp::laws as tcpudp;
