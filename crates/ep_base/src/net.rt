//! Numbers of the IP headers.

mod ip_dscp;
mod ip_dscp_known;
mod ip_dscp_unknown_value_error;
mod ip_ecn;
mod ip_frag_offset;
mod ip_number;
mod ip_number_texts;
pub mod ip_numbers;
mod ipv6_flow_label;

pub use ip_dscp::IpDscp;
pub use ip_dscp_known::IpDscpKnown;
pub use ip_dscp_unknown_value_error::IpDscpUnknownValueError;
pub use ip_ecn::IpEcn;
pub use ip_frag_offset::IpFragOffset;
pub use ip_number::IpNumber;
pub use ipv6_flow_label::Ipv6FlowLabel;

/// An older name of [`IpDscp`].
pub type Ipv4Dscp = IpDscp;

/// An older name of [`IpEcn`].
pub type Ipv4Ecn = IpEcn;

/// An older name of [`IpNumber`].
pub type IpTrafficClass = IpNumber;
