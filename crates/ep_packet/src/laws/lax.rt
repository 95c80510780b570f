//! Laws that tie packets that may have been cut, and their headers, to whole ones.
ghost use Rattle.std.specs.Prelude.{◌≡◌, ◌≤◌, ℕ, List, take, Ok};
ghost use Rattle.std.specs.Option.{option_map};
ghost use Rattle.ep_base.specs.declared.link.ether_type.EtherType.{EtherType};
ghost use Rattle.ep_packet.specs.LaxCut.{cut_message, message_header_len};
ghost use Rattle.ep_packet.specs.LaxPacketHeaders.{lax_ether_type_headers, lax_ethernet_headers};
ghost use Rattle.ep_packet.specs.LaxPacketHeaders.{lax_ip_packet_headers};
ghost use Rattle.ep_packet.specs.LaxSliced.{lax_message_at, lax_sliced_ether_type, lax_sliced_ethernet};
ghost use Rattle.ep_packet.specs.LaxSliced.{lax_sliced_ip, lax_sliced_linux_sll};
ghost use Rattle.ep_packet.specs.LaxView.{lax_ether_payload_in};
ghost use Rattle.ep_packet.specs.LaxWhole.{whole_packet};
ghost use Rattle.ep_packet.specs.LaxWholeHeaders.{whole_headers};
ghost use Rattle.ep_packet.specs.PacketHeaders.{Headers, ether_type_headers, ethernet_headers, ip_packet_headers};
ghost use Rattle.ep_packet.specs.PacketView.{ether_payload_in};
ghost use Rattle.ep_packet.specs.Readable.{ReadMessage, message_at};
ghost use Rattle.ep_packet.specs.Sliced.{sliced_ether_type, sliced_ethernet, sliced_ip, sliced_linux_sll};
ghost use Rattle.ep_packet.specs.declared.sliced_packet.SlicedPacket.{SlicedPacket};
ghost use Rattle.ep_tag.specs.Ether.{complete_ether};

/// A packet that is there is the packet as far as it is there: the same layers, of which nothing is
/// missing, and nothing stopped the reading. So are its headers and the payload after them, but that a
/// UDP length that counts fewer bytes than the IP payload bounds what follows the UDP header.
pub fn whole_packets_are_lax_packets()
    ensures ethernet { (bytes : List ℕ) (packet : SlicedPacket) → sliced_ethernet bytes ≡ Ok packet
        → lax_sliced_ethernet bytes ≡ Ok (whole_packet packet) }
    ensures linux_sll { (bytes : List ℕ) (packet : SlicedPacket) → sliced_linux_sll bytes ≡ Ok packet
        → lax_sliced_linux_sll bytes ≡ Ok (whole_packet packet) }
    ensures ether_type { (t : EtherType) (bytes : List ℕ) (packet : SlicedPacket)
        → sliced_ether_type t bytes ≡ Ok packet
        → lax_sliced_ether_type t bytes ≡ whole_packet packet }
    ensures ip { (bytes : List ℕ) (packet : SlicedPacket) → sliced_ip bytes ≡ Ok packet
        → lax_sliced_ip bytes ≡ Ok (whole_packet packet) }
    ensures ethernet_headers { (bytes : List ℕ) (h : Headers) → ethernet_headers bytes ≡ Ok h
        → lax_ethernet_headers bytes ≡ Ok (whole_headers h) }
    ensures ether_type_headers { (t : EtherType) (bytes : List ℕ) (h : Headers)
        → ether_type_headers t bytes ≡ Ok h → lax_ether_type_headers t bytes ≡ whole_headers h }
    ensures ip_headers { (bytes : List ℕ) (h : Headers) → ip_packet_headers bytes ≡ Ok h
        → lax_ip_packet_headers bytes ≡ Ok (whole_headers h) }
{
    ep_ipslice::laws::whole_packets_are_lax_packets();
    ep_tag::laws::macsec_lax::lax_reads_find_what_is_there();
    ep_tcpudp::laws::udp::lax_reads_find_what_is_there();
}

/// What the last ether type names in a whole packet is the same there, and none of it is missing.
pub fn payloads_of_whole_packets()
    ensures { (packet : SlicedPacket) → lax_ether_payload_in (whole_packet packet)
        ≡ option_map complete_ether (ether_payload_in packet) }
{}

/// A message that was cut off after its header is read with the bytes that are there.
pub fn cut_messages_are_found()
    ensures { (number n : ℕ) (bytes : List ℕ) (m : ReadMessage) → message_at number bytes ≡ Ok m
        → message_header_len m ≤ n → lax_message_at number (take n bytes) ≡ Ok (cut_message n m) }
{}
