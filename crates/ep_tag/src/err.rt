//! Why bytes are no tag.

pub mod double_vlan;
pub mod macsec;
