//! Laws of ARP packets (RFC 826).
ghost use Rattle.std.specs.Prelude.{◌≡◌, ℕ, List, [], ◌∷◌, ◌++◌, map, Ok, Err};
ghost use Rattle.ep_base.specs.Bytes.{IsBytes};
ghost use Rattle.ep_base.specs.declared.err.layer.Layer.TheVariants as layer;
ghost use Rattle.ep_base.specs.declared.len_source.LenSource.TheVariants.{ArpAddrLengths};
ghost use Rattle.ep_link.specs.Arp.{IsArpPacket, fields_of, packet_at, encoding};
ghost use Rattle.ep_base.specs.LenError.{too_few_bytes};
ghost use Rattle.ep_base.specs.Prefixes.{TakesPrefix};

use crate::{ArpHardwareId, ArpOperation, ArpPacket};
use ep_base::err::LenError;

/// The greatest length of a packet in bytes.
pub fn packet_lengths() -> [usize; 1]
    ensures { result ≡ 1028 ∷ [] }
{
    [ArpPacket::MAX_LEN]
}

/// The constants of [`ArpHardwareId`] and [`ArpOperation`].
pub fn arp_constants()
    ensures hardware { map (λ id. id.0)
        (ArpHardwareId.ETHERNET ∷ ArpHardwareId.FRAD ∷ ArpHardwareId.IPGRE
        ∷ ArpHardwareId.IEEE80211_RADIOTAP ∷ ArpHardwareId.NETLINK ∷ []) ≡ 1 ∷
        770 ∷ 778 ∷ 803 ∷ 824 ∷ [] }
    ensures operation { map (λ operation. operation.0)
        (ArpOperation.REQUEST ∷ ArpOperation.REPLY ∷ [])
        ≡ 1 ∷ 2 ∷ [] }
{}

/// A packet encodes to bytes that are a packet with its fields; the bytes of a packet have fields
/// that encode it again.
pub fn packets_are_their_bytes(packet: &ArpPacket)
    ensures packet { IsArpPacket (encoding packet.now) }
    ensures fields { fields_of (encoding packet.now) ≡ packet.now }
    ensures again { (bytes : List ℕ) → IsArpPacket bytes → IsBytes bytes
        → encoding (fields_of bytes) ≡ bytes }
{
    let _bytes = packet.to_bytes();
}

/// A packet at the start of bytes is taken, whatever follows it, and nothing else is.
pub fn packets_are_found()
    ensures { (bytes : List ℕ) → TakesPrefix IsArpPacket bytes (packet_at bytes) }
{}

/// What `to_bytes` gives is read again, whatever follows it.
pub fn packet_is_read_again(packet: &ArpPacket, slice: &[u8]) -> Result<ArpPacket, LenError>
    ensures { (rest : List ℕ) → slice.now ≡ encoding packet.now ++ rest → result ≡ Ok packet.now }
{
    let _bytes = packet.to_bytes();
    ArpPacket::from_slice(slice)
}

/// A reply with hardware addresses of two bytes and protocol addresses of one, with a byte after
/// it; and the two errors of too few bytes.
pub fn fields_at_literals()
    ensures fields { fields_of (0 ∷ 1 ∷ 8 ∷ 0 ∷ 2 ∷ 1 ∷ 0 ∷ 2 ∷ 11 ∷ 12 ∷ 13 ∷ 14 ∷ 15 ∷
        16 ∷ 17 ∷ []) ≡ record {
          hw_addr_type = record { 0 = 1 };
          proto_addr_type = record { 0 = 0x0800 };
          operation = record { 0 = 2 };
          sender_hw_addr = 11 ∷ 12 ∷ [];
          sender_protocol_addr = 13 ∷ [];
          target_hw_addr = 14 ∷ 15 ∷ [];
          target_protocol_addr = 16 ∷ [];
        } }
    ensures short { packet_at (0 ∷ 1 ∷ 8 ∷ 0 ∷ 2 ∷ 1 ∷ 0 ∷ []) ≡ Err (too_few_bytes layer.Arp 8 7) }
    ensures cut { packet_at (0 ∷ 1 ∷ 8 ∷ 0 ∷ 2 ∷ 1 ∷ 0 ∷ 2 ∷ 11 ∷ [])
        ≡ Err (record (too_few_bytes layer.Arp 14 9) { len_source = ArpAddrLengths }) }
{}
