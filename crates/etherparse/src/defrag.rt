//! Reassembly of fragmented IP packets (RFC 791, section 3.2; RFC 8200, section 4.5).

mod datagram_bytes;
mod deferred_bytes;
mod fragment;
pub(crate) mod ip_defrag_buf;
mod ip_defrag_error;
mod ip_defrag_payload_vec;
mod ip_defrag_pool;
mod ip_frag_id;
mod ip_frag_range;
mod ip_frag_version_spec_id;
mod overlap_rule;
mod pool_calls;
mod reassembly;
mod reassembly_buf;
mod reassembly_table;
mod renewed_timestamps;
mod retain_reassemblies;
mod sections;
mod spare_buffers;
mod start_order;
mod stored_fragment;

pub use ip_defrag_buf::{IpDefragBuf, checked_end};
pub use ip_defrag_error::IpDefragError;
pub use ip_defrag_payload_vec::IpDefragPayloadVec;
pub use ip_defrag_pool::IpDefragPool;
pub use ip_frag_id::IpFragId;
pub use ip_frag_range::IpFragRange;
pub use ip_frag_version_spec_id::IpFragVersionSpecId;
pub use overlap_rule::OverlapRule;
pub use pool_calls::{PoolAnswer, PoolCall, run_calls};
pub use reassembly::Reassembly;
pub use reassembly_table::ReassemblyTable;

/// The greatest length of a datagram's payload, in bytes.
pub const MAX_IP_DEFRAG_LEN: usize = 65535;

/// The same as a number of 16 bits.
pub const MAX_IP_DEFRAG_LEN_U16: u16 = 65535;
