//! Which packets are of neighbor discovery and of multicast listener discovery, by their types in IANA's
//! registry "ICMPv6 Parameters".

ghost use Rattle.std.specs.Prelude.{◌≡◌, [], ◌∷◌, true, false, None, Some, Ok, Err};
ghost use Rattle.ep_packet.specs.Readable.{message_at};
ghost use Rattle.ep_packet.specs.declared.err.packet.slice_error.SliceError.TheVariants as fault;
ghost use Rattle.ep_packet.specs.declared.sliced_packet.SlicedPacket.{SlicedPacket};
ghost use Rattle.ep_packet.specs.declared.transport.transport_slice.TransportSlice.TheVariants as transport;
ghost use Rattle.ep_tcpudp.specs.declared.err.tcp.header_error.HeaderError.TheVariants as tcp;
ghost use Rattle.etherparse.specs.declared.defrag.ip_defrag_payload_vec.IpDefragPayloadVec.{IpDefragPayloadVec};
ghost use Rattle.packets.specs.Conditions.{holds};
ghost use Rattle.packets.specs.Examples.{in_part, segment_with};
ghost use Rattle.packets.specs.Icmpv6Types.{completed_type, icmpv6_type, is_mld, is_ndp, transport_type};
ghost use Rattle.packets.specs.declared.condition.Condition.TheVariants as condition;
ghost use Rattle.packets.specs.declared.dissection.Dissection.{Dissection};
ghost use Rattle.packets.specs.declared.dissection.Fragment.TheVariants as fragment;

/// Router solicitation (133) to redirect (137); listener query, report and done (130 to 132), and the
/// report of version 2 (143); no echo request, and nothing where there is no ICMPv6 message.
pub fn types_of_discovery()
    ensures ndp { (is_ndp (Some 133) ≡ true) × (is_ndp (Some 135) ≡ true)
        × (is_ndp (Some 137) ≡ true) × (is_ndp (Some 132) ≡ false)
        × (is_ndp (Some 138) ≡ false) × (is_ndp None ≡ false) }
    ensures mld { (is_mld (Some 130) ≡ true) × (is_mld (Some 131) ≡ true)
        × (is_mld (Some 132) ≡ true) × (is_mld (Some 143) ≡ true)
        × (is_mld (Some 129) ≡ false) × (is_mld (Some 133) ≡ false)
        × (is_mld (Some 142) ≡ false) × (is_mld (Some 144) ≡ false)
        × (is_mld None ≡ false) }
{}

/// The type is the first byte of a message over IPv6, also of what is there of a packet that is refused,
/// and of the message that a fragment completes.
pub fn types_of_messages()
    ensures whole { (transport_type (Some (transport.Icmpv6 (135 ∷ 3 ∷ 1 ∷ 2 ∷ []))) ≡ Some 135)
        × (transport_type (Some (transport.Icmpv4 (135 ∷ 3 ∷ 1 ∷ 2 ∷ []))) ≡ None)
        × (transport_type (Some (transport.Tcp (segment_with 5))) ≡ None) }
    ensures refused { (icmpv6_type (Err (fault.Tcp (tcp.DataOffsetTooSmall 4)))
        (Some (in_part None (Some (transport.Icmpv6 (143 ∷ 0 ∷ 1 ∷ 2 ∷ []))))) None ≡ Some 143)
        × (icmpv6_type (Err (fault.Tcp (tcp.DataOffsetTooSmall 4))) None None ≡ None) }
    ensures completed { (completed_type (message_at 58 (136 ∷ 0 ∷ 1 ∷ 2 ∷ 0 ∷ 0 ∷ 0 ∷ 0 ∷ [])) ≡ Some 136)
        × (completed_type (message_at 1 (136 ∷ 0 ∷ 1 ∷ 2 ∷ 0 ∷ 0 ∷ 0 ∷ 0 ∷ [])) ≡ None)
        × (completed_type (message_at 58 (136 ∷ 0 ∷ 1 ∷ 2 ∷ [])) ≡ None) }
    ensures completing { (packet : SlicedPacket) (message : IpDefragPayloadVec)
        → message.ip_number ≡ record { 0 = 58 }
        → message.payload.items ≡ 130 ∷ 0 ∷ 1 ∷ 2 ∷ 0 ∷ 0 ∷ 0 ∷ 0 ∷ []
        → icmpv6_type (Ok packet) None (Some (fragment.Completes 5 message)) ≡ Some 130 }
    ensures waiting { (packet : SlicedPacket) → packet.transport ≡ None
        → icmpv6_type (Ok packet) None (Some (fragment.Waits 5)) ≡ None }
{}

/// `ndp` and `mld` of a neighbor solicitation.
pub fn conditions_of_types()
    ensures { (packet : Dissection) (layers : SlicedPacket) → packet.layers ≡ Ok layers
        → packet.fragment ≡ None
        → layers.transport ≡ Some (transport.Icmpv6 (135 ∷ 0 ∷ 1 ∷ 2 ∷ []))
        → (holds condition.Ndp packet ≡ true) × (holds condition.Mld packet ≡ false) }
{}
