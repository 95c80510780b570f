//! The source and the destination address of a packet.

/// The addresses of a packet of either IP version, with their bytes in the order of the IP header.
#[derive(Clone, Copy, Debug, PartialEq, Eq, Hash)]
pub enum Addresses {
    /// Over IPv4.
    V4 {
        /// The source address.
        source: [u8; 4],
        /// The destination address.
        destination: [u8; 4],
    },
    /// Over IPv6.
    V6 {
        /// The source address.
        source: [u8; 16],
        /// The destination address.
        destination: [u8; 16],
    },
}
