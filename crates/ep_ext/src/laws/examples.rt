//! Slots of extension headers at literal values (RFC 8200, section 4.1).
ghost use Rattle.std.specs.Prelude.{◌≡◌, [], ◌∷◌, map, true, false, Some, None};
ghost use Rattle.ep_ext.specs.Chain.{layer_of};
ghost use Rattle.ep_ext.specs.Follow.{has_slot, most_len};
ghost use Rattle.ep_ext.specs.Link.{all_slots};
ghost use Rattle.ep_ext.specs.Slot.{slot_number, slot_of};
ghost use Rattle.ep_ext.specs.ReadsExts.{read_layer};
ghost use Rattle.ep_ext.specs.declared.net.ipv6_ext_slot.Ipv6ExtSlot.TheVariants.{HopByHop, Destination, Routing};
ghost use Rattle.ep_ext.specs.declared.net.ipv6_ext_slot.Ipv6ExtSlot.TheVariants.{Fragment, Authentication};
ghost use Rattle.ep_ext.specs.declared.net.ipv6_ext_slot.Ipv6ExtSlot.TheVariants.{FinalDestination};

use ep_base::err::Layer;

/// Which slot the numbers 0, 43, 44, 51 and 60 take after headers in some slots, and that TCP, UDP,
/// mobility, host identity and shim6 take none.
pub fn worked_slots()
    ensures first { map (slot_of []) (0 ∷ 43 ∷ 44 ∷ 51 ∷ 60 ∷ [])
        ≡ Some HopByHop ∷ Some Routing ∷ Some Fragment ∷ Some Authentication ∷
        Some Destination ∷ [] }
    ensures others { map (slot_of []) (6 ∷ 17 ∷ 135 ∷ 139 ∷ 140 ∷ []) ≡ None ∷ None ∷
        None ∷ None ∷ None ∷ [] }
    ensures hop_by_hop { map (slot_of (HopByHop ∷ [])) (0 ∷ 43 ∷ 44 ∷ 51 ∷ 60 ∷ [])
        ≡ None ∷ Some Routing ∷ Some Fragment ∷ Some Authentication ∷ Some Destination ∷ [] }
    ensures destination { map (slot_of (Destination ∷ [])) (0 ∷ 43 ∷ 44 ∷ 51 ∷ 60 ∷ [])
        ≡ None ∷ Some Routing ∷ Some Fragment ∷ Some Authentication ∷ None ∷ [] }
    ensures routing { map (slot_of (Routing ∷ [])) (0 ∷ 43 ∷ 44 ∷ 51 ∷ 60 ∷ [])
        ≡ None ∷ None ∷ Some Fragment ∷ Some Authentication ∷ Some FinalDestination ∷ [] }
    ensures fragment { map (slot_of (Fragment ∷ [])) (0 ∷ 43 ∷ 44 ∷ 51 ∷ 60 ∷ [])
        ≡ None ∷ Some Routing ∷ None ∷ Some Authentication ∷ Some Destination ∷ [] }
    ensures auth { map (slot_of (Authentication ∷ [])) (0 ∷ 43 ∷ 44 ∷ 51 ∷ 60 ∷ [])
        ≡ None ∷ Some Routing ∷ Some Fragment ∷ None ∷ Some Destination ∷ [] }
    ensures both_options { map (slot_of (Destination ∷ Routing ∷ [])) (43 ∷ 60 ∷ []) ≡ None ∷
        Some FinalDestination ∷ [] }
    ensures all { map (slot_of (Routing ∷ FinalDestination ∷ Authentication ∷ []))
        (0 ∷ 43 ∷ 44 ∷ 51 ∷ 60 ∷ [])
        ≡ None ∷ None ∷ Some Fragment ∷ None ∷ None ∷ [] }
{}

/// The header of each slot, in the order of RFC 8200: its number, the layer that it is in an error
/// and the layer as which it is read with a limit, and its greatest length; and which numbers have
/// a slot at all.
pub fn worked_headers_by_slot()
    ensures numbers { map slot_number all_slots ≡ 0 ∷ 60 ∷ 43 ∷ 44 ∷ 51 ∷ 60 ∷ [] }
    ensures layers { map layer_of all_slots
        ≡ Layer.Ipv6HopByHopHeader ∷ Layer.Ipv6DestOptionsHeader ∷ Layer.Ipv6RouteHeader ∷
        Layer.Ipv6FragHeader ∷ Layer.IpAuthHeader ∷ Layer.Ipv6DestOptionsHeader ∷ [] }
    ensures read_layers { map read_layer all_slots
        ≡ Layer.Ipv6ExtHeader ∷ Layer.Ipv6ExtHeader ∷ Layer.Ipv6ExtHeader ∷ Layer.Ipv6FragHeader ∷
        Layer.IpAuthHeader ∷ Layer.Ipv6ExtHeader ∷ [] }
    ensures lengths { map most_len all_slots ≡ 2048 ∷ 2048 ∷ 2048 ∷ 8 ∷ 1028 ∷ 2048 ∷ [] }
    ensures placed { map has_slot (0 ∷ 43 ∷ 44 ∷ 51 ∷ 60 ∷ 1 ∷ 6 ∷ 17 ∷ 50 ∷ 58 ∷
        59 ∷ 135 ∷ 139 ∷ 140 ∷ [])
        ≡ true ∷ true ∷ true ∷ true ∷ true ∷ false ∷ false ∷ false ∷ false ∷ false ∷ false ∷
        false ∷ false ∷ false ∷ [] }
{}
