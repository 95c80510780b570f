//! Why bytes are no link header, and addresses no ARP packet.

pub mod arp;
pub mod linux_sll;
