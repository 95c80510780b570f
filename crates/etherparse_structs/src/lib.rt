//! What the calls of `etherparse` for C take and give, as structs of numbers: packets, verdicts,
//! plans, pools that reassemble datagrams, TCP streams, and captures.
#![tactic(auto)]

mod added;
mod build;
mod capture;
mod capture_box;
mod captured;
mod connection;
mod extension;
mod frame_pool;
mod group_message;
mod group_record;
mod header_parts;
mod held;
mod held_capture;
mod held_stream;
mod icmp_fields;
pub mod laws;
mod lax_packet;
mod link;
mod message;
mod ndp_option;
mod net;
mod packet;
mod packet_key;
mod part;
mod part_refusal;
mod plan;
mod planned;
mod planned_arp;
mod planned_extensions;
mod planned_ip;
mod pool;
mod refusal;
mod stream;
mod stream_added;
mod stream_box;
mod stream_progress;
mod tcp_option;
mod transport;
mod verdict;
mod written_capture;

pub use added::EpAdded;
pub use build::{EpBuilt, build_arp_packet, build_extended_packet, build_packet};
pub use capture::EpCapture;
pub use captured::{EpCaptureEnding, EpCaptureError, EpCaptured, EpCapturedPacket};
pub use connection::{EpConnectionState, EpSegmentFlags};
pub use extension::{EpExtension, EpExtensions, next_extension};
pub use group_message::{EpGroupMessage, igmp_message, mld_message};
pub use group_record::{EpGroupRecord, EpGroupRecords, next_group_record};
pub use header_parts::{ip_extensions, ipv4_options, tcp_options};
pub use held::Held;
pub use held_capture::HeldCapture;
pub use held_stream::HeldStream;
pub use icmp_fields::{EpIcmpFields, EpNdp, icmpv4_fields, icmpv6_fields, ndp_message};
pub use lax_packet::{EpLaxPacket, sliced_lax_ethernet, sliced_lax_ip, sliced_lax_linux_sll};
pub use link::{EpLink, EpTag};
pub use message::EpMessage;
pub use ndp_option::{EpNdpOption, ndp_options, next_ndp_option};
pub use net::{EpArp, EpIpv4, EpIpv6};
pub use packet::{EpPacket, reported};
pub use packet_key::{EpEndpoint, EpFlowKey, EpPacketKey, key_of_packet};
pub use part::EpPart;
pub use part_refusal::EpPartRefusal;
pub use plan::EpPlan;
pub use planned_extensions::EpPlannedExtensions;
pub use pool::EpPool;
pub use refusal::EpRefusal;
pub use stream::EpStream;
pub use stream_added::{EpConflicts, EpStreamAdded};
pub use stream_progress::{EpGap, EpStreamProgress};
pub use tcp_option::{EpTcpBlock, EpTcpOption, next_tcp_option};
pub use transport::{EpIcmp, EpTcp, EpUdp};
pub use verdict::verdict_on;
pub use written_capture::{EpFileHeader, EpRecordHead, capture_header, packet_head};

/// It is done, or there was nothing to do.
pub const DONE: u32 = 0;

/// The output is too short.
pub const NO_ROOM: u32 = 1;

/// Out of memory.
pub const NO_MEMORY: u32 = 2;

/// A packet, a fragment, a segment, a field of a plan, a payload or a capture is refused.
pub const REFUSED: u32 = 3;

/// The pool, stream or capture isn't open, or is open already, or the pool keeps a message.
pub const WRONG_STATE: u32 = 4;

/// A message is complete.
pub const COMPLETED: u32 = 5;
