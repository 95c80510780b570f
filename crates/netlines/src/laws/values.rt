//! Conditions of laws on addresses, headers and letters, which every value of their types meets.
ghost use Rattle.std.specs.Prelude.{◌≤◌, All};
ghost use Rattle.netlines.specs.Letter.{IdentificationFits, LetterFits};
ghost use Rattle.netlines.specs.Sealed.{AddressesFit, HeaderFits, addresses_of, version_id_of};

use crate::Letter;
use etherparse::defrag::IpFragVersionSpecId;
pub use etherparse::laws::ext::values::extensions_are_read_again;
use etherparse::{Addresses, IpHeaders, TransportHeader, VlanId};

/// Addresses have 4 bytes each over IPv4, and 16 over IPv6.
pub fn addresses_fit(addresses: &Addresses)
    ensures { AddressesFit addresses.now }
{
    match addresses {
        Addresses::V4 {
            source,
            destination,
        } => {
            let _source: &[u8] = source;
            let _destination: &[u8] = destination;
        }
        Addresses::V6 {
            source,
            destination,
        } => {
            let _source: &[u8] = source;
            let _destination: &[u8] = destination;
        }
    }
}

/// So have those of a letter or of a sealed message. The identification has 16 bits over IPv4, and
/// 32 over IPv6.
pub fn version_id_fits(version_id: &IpFragVersionSpecId)
    ensures addresses { AddressesFit (addresses_of version_id.now) }
    ensures identification { IdentificationFits version_id.now }
{
    match version_id {
        IpFragVersionSpecId::Ipv4 {
            source,
            destination,
            identification,
        } => {
            let _source: &[u8] = source;
            let _destination: &[u8] = destination;
            let _identification = *identification;
        }
        IpFragVersionSpecId::Ipv6 {
            source,
            destination,
            identification,
        } => {
            let _source: &[u8] = source;
            let _destination: &[u8] = destination;
            let _identification = *identification;
        }
    }
}

/// So have the addresses of IP headers.
pub fn ip_headers_fit(ip: &IpHeaders)
    ensures { AddressesFit (addresses_of (version_id_of ip.now)) }
{
    match ip {
        IpHeaders::Ipv4(header, _) => {
            let _source: &[u8] = &header.source;
            let _destination: &[u8] = &header.destination;
        }
        IpHeaders::Ipv6(header, _) => {
            let _source: &[u8] = &header.source;
            let _destination: &[u8] = &header.destination;
        }
    }
}

/// Options of TCP fit a header, and a header of ICMPv6 has 8 bytes.
pub fn transport_header_fits(header: &TransportHeader)
    ensures { HeaderFits header.now }
{
    match header {
        TransportHeader::Tcp(header) => {
            let _options = header.options.as_slice();
        }
        TransportHeader::Icmpv6(header) => {
            let _bytes = header.to_bytes();
        }
        _ => {}
    }
}

/// A letter has Ethernet addresses of 6 bytes, at most two identifiers of VLANs, and the addresses
/// and the identification of an IP version.
pub fn letter_fits(letter: &Letter)
    ensures { LetterFits letter.now }
{
    let _source: &[u8] = &letter.ethernet_source;
    let _destination: &[u8] = &letter.ethernet_destination;
    version_id_fits(&letter.version_id);
    ids_fit(letter.vlans.as_slice());
}

fn ids_fit(ids: &[VlanId])
    ensures { All (λ id. id ≤ 4095) ids.now }
{
    for id in ids {
        let _id = id.value();
    }
}
