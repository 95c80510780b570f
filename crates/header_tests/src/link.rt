//! Ethernet II, cooked captures and ARP.

mod arp;
mod arp_eth_ipv4;
mod ethernet;
mod frame_check;
mod layer;
mod linux_sll;
