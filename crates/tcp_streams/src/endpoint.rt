//! One end of a TCP connection.

ghost use Rattle.std.specs.Cmp.Rules.{hashing};
ghost use Rattle.std.proofs.Common.{rules};
ghost use Rattle.tcp_streams.specs.FlowKeys.{hashed_as};

use std::hash::{Hash, Hasher};

/// One end of a TCP connection: its IP address and its port (RFC 9293, section 4, "socket").
///
/// Endpoints are ordered by the version of their addresses, then by the bytes of these, then by
/// ports.
#[derive(Clone, Copy, Debug, PartialEq, Eq, PartialOrd, Ord)]
pub enum Endpoint {
    /// Over IPv4.
    V4 {
        /// The address.
        address: [u8; 4],
        /// The port.
        port: u16,
    },
    /// Over IPv6.
    V6 {
        /// The address.
        address: [u8; 16],
        /// The port.
        port: u16,
    },
}

// A derived `Hash` writes an array byte by byte, and each write has its cost.
impl Hash for Endpoint {
    ghost hash_input = { hashed_as };

    ghost respects_eq = { Prim.search (hashing, rules) };

    fn hash<H: Hasher>(&self, state: &mut H) {
        match self {
            Endpoint::V4 { address, port } => {
                let address = u64::from(u32::from_be_bytes(*address));
                state.write_u64(address * (1 << 16) + u64::from(*port));
            }
            Endpoint::V6 { address, port } => {
                state.write(address);
                state.write_u16(*port);
            }
        }
    }
}
