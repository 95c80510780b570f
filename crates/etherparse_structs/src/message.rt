//! A reassembled message, as numbers.
ghost use Rattle.std.specs.Prelude.{◌≡◌, length};
ghost use Rattle.etherparse.specs.IpDefragPool.{payload_parsed};
ghost use Rattle.etherparse_structs.specs.Message.{message_of, no_message};

use etherparse::Addresses;
use etherparse::defrag::IpDefragPayloadVec;

/// A reassembled message. All fields are 0 where there is none.
#[repr(C)]
#[derive(Drop)]
pub struct EpMessage {
    /// How many bytes it has.
    pub len: usize,
    /// The IP version: 4 or 6.
    pub ip_version: u32,
    /// The number of its protocol.
    pub number: u8,
    /// The source address, where `ip_version` is 4, else 0.
    pub ipv4_source: [u8; 4],
    /// The destination address, where `ip_version` is 4, else 0.
    pub ipv4_destination: [u8; 4],
    /// The source address, where `ip_version` is 6, else 0.
    pub ipv6_source: [u8; 16],
    /// The destination address, where `ip_version` is 6, else 0.
    pub ipv6_destination: [u8; 16],
}

pub(crate) fn no_message() -> EpMessage
    ensures { result ≡ no_message }
{
    EpMessage {
        len: 0,
        ip_version: 0,
        number: 0,
        ipv4_source: [0; 4],
        ipv4_destination: [0; 4],
        ipv6_source: [0; 16],
        ipv6_destination: [0; 16],
    }
}

/// The message that goes between these addresses.
pub(crate) fn message_of(addresses: &Addresses, payload: &IpDefragPayloadVec) -> EpMessage
    ensures { result ≡ message_of addresses.now (payload_parsed payload.now) }
{
    let len = payload.payload.len();
    let number = payload.ip_number.0;
    match addresses {
        Addresses::V4 {
            source,
            destination,
        } => EpMessage {
            len,
            ip_version: 4,
            number,
            ipv4_source: *source,
            ipv4_destination: *destination,
            ..no_message()
        },
        Addresses::V6 {
            source,
            destination,
        } => EpMessage {
            len,
            ip_version: 6,
            number,
            ipv6_source: *source,
            ipv6_destination: *destination,
            ..no_message()
        },
    }
}
