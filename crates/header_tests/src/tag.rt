//! VLAN tags and MACsec headers.

mod double_vlan;
mod link_ext;
mod macsec;
mod macsec_by_flags;
mod macsec_lax;
mod macsec_len;
mod numbers;
mod vlan;
