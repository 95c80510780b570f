//! Slots of extension headers, with the number and the layer of each.

ghost use Rattle.std.specs.Prelude.{◌≡◌};
ghost use Rattle.ep_ext.specs.Chain.{layer_of};
ghost use Rattle.ep_ext.specs.Slot.{slot_number};

use ep_base::IpNumber;
use ep_base::err::Layer;

/// One of the six slots that an `Ipv6Extensions` has for extension headers (RFC 8200, section 4.1).
#[derive(Clone, Copy, Debug, PartialEq, Eq, Hash)]
pub enum Ipv6ExtSlot {
    /// Hop-by-hop options, as the first header alone.
    HopByHop,
    /// Destination options before a routing header.
    Destination,
    /// The routing header.
    Routing,
    /// The fragment header.
    Fragment,
    /// The authentication header.
    Authentication,
    /// Destination options after a routing header.
    FinalDestination,
}

impl Ipv6ExtSlot {
    /// The number of the header in the slot.
    pub fn number(self) -> IpNumber
        ensures { result.0 ≡ slot_number self }
    {
        match self {
            Ipv6ExtSlot::HopByHop => IpNumber(0),
            Ipv6ExtSlot::Destination => IpNumber(60),
            Ipv6ExtSlot::Routing => IpNumber(43),
            Ipv6ExtSlot::Fragment => IpNumber(44),
            Ipv6ExtSlot::Authentication => IpNumber(51),
            Ipv6ExtSlot::FinalDestination => IpNumber(60),
        }
    }
    /// The layer that an error reports for the header in the slot.
    pub fn layer(self) -> Layer
        ensures { result ≡ layer_of self }
    {
        match self {
            Ipv6ExtSlot::HopByHop => Layer::Ipv6HopByHopHeader,
            Ipv6ExtSlot::Destination => Layer::Ipv6DestOptionsHeader,
            Ipv6ExtSlot::Routing => Layer::Ipv6RouteHeader,
            Ipv6ExtSlot::Fragment => Layer::Ipv6FragHeader,
            Ipv6ExtSlot::Authentication => Layer::IpAuthHeader,
            Ipv6ExtSlot::FinalDestination => Layer::Ipv6DestOptionsHeader,
        }
    }
}
