//! Laws of tags that no single call's contract states: the contract of each function is the law.

pub mod cut;
pub mod double_vlan;
pub mod macsec;
pub mod macsec_lax;
pub mod macsec_len;
pub mod numbers;
pub mod prefix;
pub mod traits;
pub mod vlan;
