//! Link headers and ARP packets.

mod arp_eth_ipv4_packet;
mod arp_hardware_id;
mod arp_operation;
mod arp_packet;
mod arp_packet_slice;
mod crc32;
mod ethernet2_bytes;
mod ethernet2_header;
mod ethernet2_header_slice;
mod ethernet2_slice;
mod link_header;
mod link_slice;
mod linux_sll_bytes;
mod linux_sll_header;
mod linux_sll_header_slice;
mod linux_sll_packet_type;
mod linux_sll_payload_slice;
mod linux_sll_protocol_type;
mod linux_sll_slice;

pub use arp_eth_ipv4_packet::ArpEthIpv4Packet;
pub use arp_hardware_id::ArpHardwareId;
pub use arp_operation::ArpOperation;
pub use arp_packet::ArpPacket;
pub use arp_packet_slice::ArpPacketSlice;
pub use ethernet2_header::Ethernet2Header;
pub use ethernet2_header_slice::Ethernet2HeaderSlice;
pub use ethernet2_slice::Ethernet2Slice;
pub use link_header::LinkHeader;
pub use link_slice::LinkSlice;
pub use linux_sll_header::LinuxSllHeader;
pub use linux_sll_header_slice::LinuxSllHeaderSlice;
pub use linux_sll_packet_type::LinuxSllPacketType;
pub use linux_sll_payload_slice::LinuxSllPayloadSlice;
pub use linux_sll_protocol_type::LinuxSllProtocolType;
pub use linux_sll_slice::LinuxSllSlice;
