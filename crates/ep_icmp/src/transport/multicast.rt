//! What reports and queries of multicast groups share over IPv4 (IGMP) and IPv6 (multicast listener
//! discovery): sources, and the records of groups.

mod group_record;
mod group_records;
mod multicast_error;
mod sources;

pub use group_record::GroupRecord;
pub use group_records::GroupRecords;
pub(crate) use multicast_error::needs;
pub use multicast_error::{GroupRecordError, MulticastError};
pub use sources::Sources;
