//! Laws of the headers of Linux cooked captures.
ghost use Rattle.std.specs.Prelude.{◌≡◌, ℕ, List, [], ◌∷◌, ◌++◌, IsOkAnd};
ghost use Rattle.ep_base.specs.Bytes.{IsBytes};
ghost use Rattle.ep_link.specs.declared.link.arp_hardware_id.ArpHardwareId.{ArpHardwareId};
ghost use Rattle.ep_link.specs.declared.link.linux_sll_protocol_type.LinuxSllProtocolType.TheVariants as protocol;
ghost use Rattle.ep_link.specs.Sll.{IsSllHeader, NamesProtocol, sll_header_of, protocol_number, protocol_of, encoding};
ghost use Rattle.ep_link.specs.Sll.{with_number};
ghost use Rattle.ep_base.specs.Prefixes.{TakesPrefix};
ghost use Rattle.ep_link.specs.SllFault.{header_at};

use crate::err::linux_sll::HeaderSliceError;
use crate::{LinuxSllHeader, LinuxSllPacketType};

/// The length of a header in bytes.
pub fn header_lengths() -> [usize; 1]
    ensures { result ≡ 16 ∷ [] }
{
    [LinuxSllHeader::LEN]
}

/// The constants of [`LinuxSllPacketType`]: to this machine, broadcast, multicast, to another
/// machine, from this one.
pub fn packet_type_constants() -> [LinuxSllPacketType; 5]
    ensures greatest { LinuxSllPacketType.MAX_VAL ≡ 4 }
    ensures constants { result ≡ 0 ∷ 1 ∷ 2 ∷ 3 ∷ 4 ∷ [] }
{
    [
        LinuxSllPacketType::HOST,
        LinuxSllPacketType::BROADCAST,
        LinuxSllPacketType::MULTICAST,
        LinuxSllPacketType::OTHERHOST,
        LinuxSllPacketType::OUTGOING,
    ]
}

/// A header encodes to bytes that are a header, with its fields where hardware type and number name
/// the protocol; the bytes of a header have fields that encode it again.
pub fn headers_are_their_bytes(header: &LinuxSllHeader)
    ensures header { IsSllHeader (encoding header.now) }
    ensures fields { NamesProtocol header.now → sll_header_of (encoding header.now) ≡ header.now }
    ensures again { (bytes : List ℕ) → IsSllHeader bytes → IsBytes bytes
        → encoding (sll_header_of bytes) ≡ bytes }
{
    let _bytes = header.to_bytes();
}

/// A header at the start of bytes is taken, whatever follows it, and nothing else is.
pub fn headers_are_found()
    ensures { (bytes : List ℕ) → TakesPrefix IsSllHeader bytes (header_at bytes) }
{}

/// What `to_bytes` gives is read again, whatever follows it, where hardware type and number name
/// the protocol.
pub fn header_is_read_again<'a>(
    header: &LinuxSllHeader,
    slice: &'a [u8],
) -> Result<(LinuxSllHeader, &'a [u8]), HeaderSliceError>
    ensures { (rest : List ℕ) → NamesProtocol header.now → slice.now ≡ encoding header.now ++ rest
        → IsOkAnd result (λ r. (r.0 ≡ header.now) × (r.1.now ≡ rest)) }
{
    let _bytes = header.to_bytes();
    LinuxSllHeader::from_slice(slice)
}

/// The number of a protocol stays, whatever the hardware type makes of it.
pub fn number_stays()
    ensures { (hardware : ArpHardwareId) (n : ℕ) → protocol_number (protocol_of hardware n) ≡ n }
{}

/// What hardware types make of a number, and the number set anew.
pub fn protocols_at_literals()
    ensures netlink { protocol_of (record { 0 = 824 }) 0x0800
        ≡ protocol.NetlinkProtocolType 0x0800 }
    ensures encapsulation { protocol_of (record { 0 = 778 }) 0x0800
        ≡ protocol.GenericRoutingEncapsulationProtocolType 0x0800 }
    ensures radiotap { protocol_of (record { 0 = 803 }) 0x0800 ≡ protocol.Ignored 0x0800 }
    ensures frame_relay { protocol_of (record { 0 = 770 }) 0x0800 ≡ protocol.Ignored 0x0800 }
    ensures least_ether_type { protocol_of (record { 0 = 1 }) 0x0600
        ≡ protocol.EtherType (record { 0 = 0x0600 }) }
    ensures below { protocol_of (record { 0 = 1 }) 0x05ff
        ≡ protocol.LinuxNonstandardEtherType 0x05ff }
    ensures set { with_number (protocol.Ignored 1) 2 ≡ protocol.Ignored 2 }
    ensures set_below { with_number (protocol.EtherType (record { 0 = 0x0800 })) 4
        ≡ protocol.LinuxNonstandardEtherType 4 }
{}
