//! Slots of extension headers.

use crate::checks::shows;
use ep_base::IpNumber;
use ep_base::err::Layer;
use ep_ext::Ipv6ExtSlot;
use std::test::*;

fn observed(position: Ipv6ExtSlot) -> (IpNumber, Layer) {
    (position.number(), position.layer())
}

// RFC 8200, section 4.1, and the numbers that IANA gives these headers.
#[test]
fn numbers_and_layers_of_slots(rt: HostRuntime) {
    let hop_by_hop = observed(Ipv6ExtSlot::HopByHop);
    shows(
        rt,
        "hop by hop",
        &hop_by_hop,
        "(IpNumber(0), Ipv6HopByHopHeader)",
    );
    let options = "(IpNumber(60), Ipv6DestOptionsHeader)";
    shows(
        rt,
        "destination",
        &observed(Ipv6ExtSlot::Destination),
        options,
    );
    let routing = observed(Ipv6ExtSlot::Routing);
    shows(rt, "routing", &routing, "(IpNumber(43), Ipv6RouteHeader)");
    let fragment = observed(Ipv6ExtSlot::Fragment);
    shows(rt, "fragment", &fragment, "(IpNumber(44), Ipv6FragHeader)");
    let auth = observed(Ipv6ExtSlot::Authentication);
    shows(rt, "authentication", &auth, "(IpNumber(51), IpAuthHeader)");
    shows(
        rt,
        "final",
        &observed(Ipv6ExtSlot::FinalDestination),
        options,
    );
}
