//! Laws of link headers and ARP packets that no single call's contract states: the contract of each
//! function is the law.

pub mod arp;
pub mod arp_eth_ipv4;
pub mod ethernet;
pub mod frame_check;
pub mod linux_sll;
pub mod traits;
