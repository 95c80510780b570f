//! Laws that tie headers of packets that may have been cut to their slices.
ghost use Rattle.std.specs.Prelude.{◌≡◌, ℕ, List, Ok, Err};
ghost use Rattle.ep_base.specs.declared.err.len_error.LenError.{LenError};
ghost use Rattle.ep_base.specs.declared.err.slice_error.SliceError.{SliceError as HeaderSliceError};
ghost use Rattle.ep_base.specs.declared.link.ether_type.EtherType.{EtherType};
ghost use Rattle.ep_ipslice.specs.declared.err.ip.header_error.HeaderError.{HeaderError as IpHeaderFault};
ghost use Rattle.ep_link.specs.declared.err.linux_sll.header_error.HeaderError.{HeaderError as SllFault};
ghost use Rattle.ep_packet.specs.LaxPacketHeaders.{LaxHeaders, lax_ether_type_headers, lax_ethernet_headers};
ghost use Rattle.ep_packet.specs.LaxPacketHeaders.{lax_ip_packet_headers, lax_linux_sll_headers};
ghost use Rattle.ep_packet.specs.LaxSameHeaders.{AreLaxHeadersOf};
ghost use Rattle.ep_packet.specs.LaxSliced.{lax_sliced_ether_type, lax_sliced_ethernet, lax_sliced_ip};
ghost use Rattle.ep_packet.specs.LaxSliced.{lax_sliced_linux_sll};
ghost use Rattle.ep_packet.specs.declared.lax_sliced_packet.LaxSlicedPacket.{LaxSlicedPacket};

/// The headers of a packet as far as it is there are those of its slices, and where there are no slices
/// there are no headers, for the same fault: the link header, the tags and the headers of the network
/// layer, of IPv6 the first one; and of all other packets the transport header, the payload and what
/// stopped.
pub fn lax_headers_are_those_of_slices()
    ensures ethernet { (bytes : List ℕ) (packet : LaxSlicedPacket) → lax_sliced_ethernet bytes ≡ Ok packet
        → (h : LaxHeaders) × (lax_ethernet_headers bytes ≡ Ok h) × AreLaxHeadersOf packet h }
    ensures ethernet_refused { (bytes : List ℕ) (e : LenError) → lax_sliced_ethernet bytes ≡ Err e
        → lax_ethernet_headers bytes ≡ Err e }
    ensures linux_sll { (bytes : List ℕ) (packet : LaxSlicedPacket)
        → lax_sliced_linux_sll bytes ≡ Ok packet
        → (h : LaxHeaders) × (lax_linux_sll_headers bytes ≡ Ok h) × AreLaxHeadersOf packet h }
    ensures linux_sll_refused { (bytes : List ℕ) (e : HeaderSliceError SllFault)
        → lax_sliced_linux_sll bytes ≡ Err e → lax_linux_sll_headers bytes ≡ Err e }
    ensures ether_type { (t : EtherType) (bytes : List ℕ)
        → AreLaxHeadersOf (lax_sliced_ether_type t bytes) (lax_ether_type_headers t bytes) }
    ensures ip { (bytes : List ℕ) (packet : LaxSlicedPacket) → lax_sliced_ip bytes ≡ Ok packet
        → (h : LaxHeaders) × (lax_ip_packet_headers bytes ≡ Ok h) × AreLaxHeadersOf packet h }
    ensures ip_refused { (bytes : List ℕ) (e : HeaderSliceError IpHeaderFault)
        → lax_sliced_ip bytes ≡ Err e → lax_ip_packet_headers bytes ≡ Err e }
{}
