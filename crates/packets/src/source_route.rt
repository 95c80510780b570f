//! The final destinations of packets with a source route.
ghost use Rattle.std.specs.Prelude.{◌≡◌, ◌≢◌, ◌≤◌, ◌+◌, ◌-◌, ◌*◌, nat_lt, if◌then◌else◌, length, slice_range, None, Some};
ghost use Rattle.std.specs.Prelude.{IfSome};
ghost use Rattle.std.specs.Option.{option_and_then, option_map};
ghost use Rattle.ep_base.specs.Bytes.{num};
ghost use Rattle.ep_ip.specs.Ipv4 as v4;
ghost use Rattle.ep_ip.specs.Ipv6 as v6;
ghost use Rattle.ep_packet.specs.declared.addresses.Addresses.TheVariants.{V4, V6};
ghost use Rattle.ep_ipslice.specs.Ipv6Ext.{piece_of};
ghost use Rattle.ep_ext.specs.Raw.{IsRawExt};
ghost use Rattle.packets.specs.SourceRoute.{address_if, end_of_extension, end_of_route, end_of_routing, ipv4_final};
ghost use Rattle.packets.specs.SourceRoute.{ipv6_final, is_type_0, is_type_2, is_type_4, route_after};
ghost use Rattle.packets.specs.SourceRoute.{segments_left_of, summed_addresses, units_of};

use ep_ip::Ipv4HeaderSlice;
use ep_ipslice::laws::extensions_of_a_packet;
use ep_ipslice::{Ipv6ExtensionSlice, Ipv6Slice};
use ep_packet::{Addresses, NetSlice};

// The kinds of IPv4 options (RFC 791, section 3.1) that end the list, that have no other byte, and
// that have a route.
const END_OF_OPTIONS: u8 = 0;

const NO_OPERATION: u8 = 1;

const LOOSE_SOURCE_ROUTE: u8 = 131;

const STRICT_SOURCE_ROUTE: u8 = 137;

// The types of routing headers whose last address is known.
const SOURCE_ROUTE: u8 = 0;

const HOME_ADDRESS: u8 = 2;

const SEGMENT_ROUTING: u8 = 4;

/// The source and the final destination of an IP packet: the addresses in the pseudo header of its
/// message (RFC 8200, section 8.1; RFC 1122, section 4.1.3.5 and 4.2.3.8). `None` where the final
/// destination isn't known, and for other packets.
pub(crate) fn summed_addresses(net: &Option<NetSlice<'_>>) -> Option<Addresses>
    ensures { result ≡ summed_addresses net.now }
{
    match net {
        Some(NetSlice::Ipv4(packet)) => ipv4_addresses(packet.header()),
        Some(NetSlice::Ipv6(packet)) => ipv6_addresses(packet),
        _ => None,
    }
}

fn ipv4_addresses(header: &Ipv4HeaderSlice<'_>) -> Option<Addresses>
    ensures { result ≡ option_map (λ d. V4 (v4.source_of header.now) d) (ipv4_final header.now) }
{
    match ipv4_destination(header) {
        Some(destination) => Some(Addresses::V4 {
            source: header.source(),
            destination,
        }),
        None => None,
    }
}

fn ipv6_addresses(packet: &Ipv6Slice<'_>) -> Option<Addresses>
    ensures { result ≡ option_map (λ d. V6 (v6.source_of packet.now.header) d)
        (ipv6_final packet.now) }
{
    match ipv6_destination(packet) {
        Some(destination) => Some(Addresses::V6 {
            source: packet.header().source(),
            destination,
        }),
        None => None,
    }
}

// ---- IPv4

// The final destination of a packet with this header.
fn ipv4_destination(header: &Ipv4HeaderSlice<'_>) -> Option<[u8; 4]>
    ensures { result ≡ ipv4_final header.now }
{
    match source_route(header.options()) {
        Some(route) => end_of_route(header.destination(), route),
        None => Some(header.destination()),
    }
}

// The first source route among options, from its kind on.
fn source_route(options: &[u8]) -> Option<&[u8]>
    ensures { option_map (λ route. route.now) result ≡ route_after 0 options.now }
{
    let mut rest = options;
    'options: while let Some((kind, after)) = rest.split_first() {
        match *kind {
            END_OF_OPTIONS => return None,
            NO_OPERATION => rest = after,
            LOOSE_SOURCE_ROUTE | STRICT_SOURCE_ROUTE => return Some(rest),
            _ => {
                let Some(following) = after_option(after) else {
                    return None;
                };
                rest = following;
            }
        }
    }
    None
}

// What follows an option whose bytes after its kind begin here, which is none of those kinds. There
// is no source route where it has a wrong length.
fn after_option(after: &[u8]) -> Option<&[u8]>
    ensures route { (if nat_lt (num after.now 0 1) 2 then None
        else route_after (num after.now 0 1 - 1) after.now)
        ≡ option_and_then (λ following. route_after 0 following.now) result }
    ensures shorter { IfSome result (λ following. length following.now ≤ length after.now) }
{
    if after.is_empty() {
        return None;
    }
    let len = usize::from(after[0]);
    if len < 2 {
        return None;
    }
    let others = len - 1;
    if after.len() < others {
        return None;
    }
    Some(&after[others..])
}

// The last address of a source route, unless it is used up.
fn end_of_route(destination: [u8; 4], route: &[u8]) -> Option<[u8; 4]>
    ensures { result ≡ end_of_route destination route.now }
{
    if route.len() < 3 {
        return None;
    }
    let len = usize::from(route[1]);
    let pointer = usize::from(route[2]);
    if len < 3 || route.len() < len {
        return None;
    }
    if pointer > len {
        return Some(destination);
    }
    if len % 4 != 3 || pointer % 4 != 0 || pointer < 4 {
        return None;
    }
    Some(route[len - 4..len].try_into().unwrap())
}

// ---- IPv6

// The final destination of a packet.
fn ipv6_destination(packet: &Ipv6Slice<'_>) -> Option<[u8; 16]>
    ensures { result ≡ ipv6_final packet.now }
{
    extensions_of_a_packet();
    let mut destination = packet.header().destination();
    for header in packet.extensions().iter() {
        match end_of_extension(destination, &header) {
            Some(end) => destination = end,
            None => return None,
        }
    }
    Some(destination)
}

// The final destination after an extension header.
fn end_of_extension(destination: [u8; 16], header: &Ipv6ExtensionSlice<'_>) -> Option<[u8; 16]>
    ensures { result ≡ end_of_extension destination (piece_of header.now) }
{
    match header {
        Ipv6ExtensionSlice::Routing(header) => end_of_routing(destination, header.slice()),
        _ => Some(destination),
    }
}

// The same of a routing header.
fn end_of_routing(destination: [u8; 16], header: &[u8]) -> Option<[u8; 16]>
    requires { IsRawExt header.now }
    ensures { result ≡ end_of_routing destination header.now }
{
    if header[3] == 0 {
        return Some(destination);
    }
    match header[2] {
        SOURCE_ROUTE => end_of_source_route(header),
        HOME_ADDRESS => end_at_home(header),
        SEGMENT_ROUTING => end_of_segments(header),
        _ => None,
    }
}

// The last address of a routing header of type 0 in which segments are left.
fn end_of_source_route(header: &[u8]) -> Option<[u8; 16]>
    requires header { IsRawExt header.now }
    requires left { segments_left_of header.now ≢ 0 }
    ensures { result ≡ address_if (is_type_0 header.now) header.now (8 * units_of header.now - 8) }
{
    let units = usize::from(header[1]);
    let segments_left = usize::from(header[3]);
    if units % 2 != 0 || segments_left > units / 2 {
        return None;
    }
    address_at(header, 8 * units - 8)
}

// The address of one of type 2.
fn end_at_home(header: &[u8]) -> Option<[u8; 16]>
    requires { IsRawExt header.now }
    ensures { result ≡ address_if (is_type_2 header.now) header.now 8 }
{
    if header[1] != 2 || header[3] != 1 {
        return None;
    }
    address_at(header, 8)
}

// The first segment of one of type 4, which is the last one that the packet goes to.
fn end_of_segments(header: &[u8]) -> Option<[u8; 16]>
    requires { IsRawExt header.now }
    ensures { result ≡ address_if (is_type_4 header.now) header.now 8 }
{
    let units = usize::from(header[1]);
    let segments_left = usize::from(header[3]);
    let last_entry = usize::from(header[4]);
    if 2 * (last_entry + 1) > units || segments_left > last_entry + 1 {
        return None;
    }
    address_at(header, 8)
}

fn address_at(header: &[u8], offset: usize) -> Option<[u8; 16]>
    requires { offset + 16 ≤ length header.now }
    ensures { result ≡ Some (slice_range header.now offset (offset + 16)) }
{
    Some(header[offset..offset + 16].try_into().unwrap())
}
