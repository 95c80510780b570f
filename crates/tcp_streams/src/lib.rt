//! TCP connections: their keys, states and counts, and their bytes, put together from segments.
#![tactic(auto)]

mod byte_queue;
mod conflicts;
mod connection_state;
mod direction;
mod endpoint;
mod flow;
mod flow_key;
mod flows;
mod follower;
mod gap_tree;
mod gaps;
pub mod laws;
mod packet_key;
mod refusal;
mod retain_flows;
mod segment_flags;
mod sequence_numbers;
mod sparse_bytes;
mod stream_buf;
mod stream_counter;

pub use conflicts::Conflicts;
pub use connection_state::{ConnectionState, Control};
pub use direction::Direction;
pub use endpoint::Endpoint;
pub use flow::{Flow, FlowPacket, Traffic};
pub use flow_key::FlowKey;
pub use flows::Flows;
pub use follower::{FollowedSegment, Follower};
pub use gaps::Gap;
pub use refusal::Refused;
pub use segment_flags::SegmentFlags;
pub use sequence_numbers::{Distance, distance_between};
pub use stream_buf::{Added, StreamBuf};
pub use stream_counter::{StreamCounter, StreamCounts};
