//! Errors, by the format that refuses.

pub mod ip;
pub mod ipv4;
pub mod ipv6;
pub mod packet;

pub use ep_base::err::{
    Layer, LenError, SliceError, SliceWriteSpaceError, ValueTooBigError, ValueType,
};
pub use ep_ext::err::{io, ip_auth, ip_exts, ipv4_exts, ipv6_exts};
pub use ep_link::err::{arp, linux_sll};
pub use ep_packet::err::net;
pub use ep_tag::err::{double_vlan, macsec};
pub use ep_tcpudp::err::tcp;
