//! Laws of packets that are built.
ghost use Rattle.std.specs.Prelude.{◌≡◌, length};
ghost use Rattle.etherparse.specs.BuiltLaws.{HasAddresses, HasWholeOptions, SumsToAllOnes};

use ep_packet::{IpHeaders, TransportHeader};

/// A receiver that sums the pseudo header, a transport header as the builder writes it, and its
/// payload finds all ones. (ICMPv6, which has no checksum over IPv4, isn't written there.)
pub fn built_messages_sum_to_all_ones(ip: &IpHeaders, transport: &TransportHeader, payload: &[u8])
    ensures { SumsToAllOnes ip.now transport.now payload.now }
{
    ep_tcpudp::laws::udp::sealed_sums_to_all_ones();
    ep_tcpudp::laws::tcp::sealed_sums_to_all_ones();
    ep_icmp::laws::icmpv4::checksums_sum_to_all_ones();
    ep_icmp::laws::icmpv6::checksums_sum_to_all_ones();
    addresses_are_whole(ip);
    options_are_whole(transport);
}

fn addresses_are_whole(ip: &IpHeaders)
    ensures { HasAddresses ip.now }
{
    match ip {
        IpHeaders::Ipv4(header, _) => {
            ipv4_address_is_whole(header.source);
            ipv4_address_is_whole(header.destination);
        }
        IpHeaders::Ipv6(header, _) => {
            ipv6_address_is_whole(header.source);
            ipv6_address_is_whole(header.destination);
        }
    }
}

pub(super) fn ipv4_address_is_whole(address: [u8; 4])
    ensures { length address ≡ 4 }
{
    let _byte = address[3];
}

pub(super) fn ipv6_address_is_whole(address: [u8; 16])
    ensures { length address ≡ 16 }
{
    let _byte = address[15];
}

fn options_are_whole(transport: &TransportHeader)
    ensures { HasWholeOptions transport.now }
{
    if let TransportHeader::Tcp(header) = transport {
        let _options = header.options();
    }
}
