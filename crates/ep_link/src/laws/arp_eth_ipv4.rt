//! Laws of ARP packets between Ethernet and IPv4 addresses (RFC 826).
ghost use Rattle.std.specs.Prelude.{◌≡◌, [], ◌∷◌, replicate, Ok, Err};
ghost use Rattle.ep_link.specs.Arp.{ArpFields};
ghost use Rattle.ep_link.specs.ArpEthIpv4.{arp_fields, eth_ipv4_at};
ghost use Rattle.ep_link.specs.declared.err.arp.arp_eth_ipv4_from_error.ArpEthIpv4FromError.TheVariants as fault;
ghost use Rattle.ep_link.specs.declared.link.arp_eth_ipv4_packet.ArpEthIpv4Packet.{ArpEthIpv4Packet};

use crate::ArpEthIpv4Packet;

/// The length of a packet in bytes.
pub fn packet_lengths() -> [usize; 1]
    ensures { result ≡ 28 ∷ [] }
{
    [ArpEthIpv4Packet::LEN]
}

/// A packet is that of its fields; and fields that are taken as a packet are that packet's.
pub fn packets_are_read_again(packet: &ArpEthIpv4Packet)
    ensures fields { eth_ipv4_at (arp_fields packet.now) ≡ Ok packet.now }
    ensures again { (a : ArpFields) (p : ArpEthIpv4Packet) → eth_ipv4_at a ≡ Ok p
        → a ≡ arp_fields p }
{
    let _bytes = packet.to_bytes();
}

/// Of several refusals the first is returned: of frame relay and IPv6, of IPv6, of hardware addresses
/// of 7 bytes, of protocol addresses of 3.
pub fn refusals_at_literals()
    ensures hardware { eth_ipv4_at (record {
      hw_addr_type = record { 0 = 770 };
      proto_addr_type = record { 0 = 0x86dd };
      operation = record { 0 = 1 };
      sender_hw_addr = replicate 7 0;
      sender_protocol_addr = replicate 3 0;
      target_hw_addr = replicate 7 0;
      target_protocol_addr = replicate 3 0;
    }) ≡ Err (fault.NonMatchingHwType (record { 0 = 770 })) }
    ensures protocol { eth_ipv4_at (record {
      hw_addr_type = record { 0 = 1 };
      proto_addr_type = record { 0 = 0x86dd };
      operation = record { 0 = 1 };
      sender_hw_addr = replicate 7 0;
      sender_protocol_addr = replicate 3 0;
      target_hw_addr = replicate 7 0;
      target_protocol_addr = replicate 3 0;
    }) ≡ Err (fault.NonMatchingProtocolType (record { 0 = 0x86dd })) }
    ensures hw_len { eth_ipv4_at (record {
      hw_addr_type = record { 0 = 1 };
      proto_addr_type = record { 0 = 0x0800 };
      operation = record { 0 = 1 };
      sender_hw_addr = replicate 7 0;
      sender_protocol_addr = replicate 3 0;
      target_hw_addr = replicate 7 0;
      target_protocol_addr = replicate 3 0;
    }) ≡ Err (fault.NonMatchingHwAddrSize 7) }
    ensures proto_len { eth_ipv4_at (record {
      hw_addr_type = record { 0 = 1 };
      proto_addr_type = record { 0 = 0x0800 };
      operation = record { 0 = 1 };
      sender_hw_addr = replicate 6 0;
      sender_protocol_addr = replicate 3 0;
      target_hw_addr = replicate 6 0;
      target_protocol_addr = replicate 3 0;
    }) ≡ Err (fault.NonMatchingProtoAddrSize 3) }
{}
