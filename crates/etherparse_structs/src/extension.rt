//! The extension headers of an IP packet, one after the other, as fields and numbers.
ghost use Rattle.std.specs.Prelude.{◌≡◌, ◌+◌, ◌<◌, ◌^◌, false, length, MatchOption, None};
ghost use Rattle.std.specs.Iterator.{YieldsFirst};
ghost use Rattle.std.specs.Option.{option_map};
ghost use Rattle.std.specs.Result.{result_ok};
ghost use Rattle.etherparse.specs.base.declared.err.layer.Layer.TheVariants as layer;
ghost use Rattle.etherparse.specs.ext.Auth.{auth_at};
ghost use Rattle.etherparse.specs.ext.Fragment.{fragment_at};
ghost use Rattle.etherparse.specs.ext.Raw.{raw_at};
ghost use Rattle.etherparse.specs.ipslice.Ipv6Exts.{slot_after};
ghost use Rattle.etherparse.specs.ipslice.Ipv6Walk.{piece_at_start};
ghost use Rattle.etherparse_structs.specs.Extension.{any_struct, auth_struct, extension_struct, extensions_left};
ghost use Rattle.etherparse_structs.specs.Extension.{first_piece, first_struct, fragment_struct, left_after};
ghost use Rattle.etherparse_structs.specs.Extension.{no_extension, raw_struct, some_extension};
ghost use Rattle.etherparse_structs.specs.Refusal.{layer_number};

use crate::EpPart;
use crate::refusal::layer_number;
use etherparse::err::Layer;
use etherparse::{IpAuthHeaderSlice, Ipv6FragmentHeaderSlice, Ipv6RawExtHeaderSlice};

/// The extension headers of an IP packet that are left.
#[repr(C)]
#[derive(Drop)]
pub struct EpExtensions {
    /// Where they are.
    pub left: EpPart,
    /// The number of the first of them.
    pub next_header: u8,
}

/// An extension header of IPv6 (RFC 8200, section 4), or the authentication header of IPv4 (RFC 4302).
/// The fields of other kinds are 0.
#[repr(C)]
#[derive(Drop)]
pub struct EpExtension {
    /// The header.
    pub header: EpPart,
    /// Of options and routing: what follows the first two bytes. Of authentication: the integrity
    /// check value.
    pub payload: EpPart,
    /// Which header it is, numbered as the layer of a refusal: EP_LAYER_IPV6_HOP_BY_HOP_HEADER,
    /// EP_LAYER_IPV6_DEST_OPTIONS_HEADER, EP_LAYER_IPV6_ROUTE_HEADER, EP_LAYER_IPV6_FRAG_HEADER or
    /// EP_LAYER_IP_AUTH_HEADER; 0 none, since none is left.
    pub layer: u32,
    /// Of a fragment header: the identification, which the fragments of one datagram share.
    pub identification: u32,
    /// Of authentication: the security parameters index.
    pub spi: u32,
    /// Of authentication: the sequence number.
    pub sequence_number: u32,
    /// Of a fragment header: the offset of the payload in the datagram, in units of 8 bytes.
    pub fragment_offset: u16,
    /// Its number: 0 hop-by-hop options, 43 routing, 44 fragment, 51 authentication, 60 destination
    /// options.
    pub number: u8,
    /// The number of what follows it.
    pub next_header: u8,
    /// Of a fragment header: whether other fragments follow.
    pub more_fragments: bool,
}

/// Takes the next header from those that are left in a part of the bytes.
#[tactic(auto, using(crate::proofs::NextExtension::extension_is_first))]
pub fn next_extension(bytes: &[u8], left: &mut EpExtensions) -> EpExtension
    ensures exact { result ≡ first_struct left.old.left.offset (first_piece bytes.now left.old) }
    ensures left { left.new ≡ left_after (first_piece bytes.now left.old) left.old }
    ensures steps { YieldsFirst (extensions_left bytes.now) left.old (some_extension result)
        left.new }
{
    take_extension(bytes, left)
}

// The same, by what the header at the start of the bytes says.
fn take_extension(bytes: &[u8], left: &mut EpExtensions) -> EpExtension
    ensures exact { result ≡ first_struct left.old.left.offset (first_piece bytes.now left.old) }
    ensures left { left.new ≡ left_after (first_piece bytes.now left.old) left.old }
{
    let rest = left.left.bytes_in(bytes);
    match extension_at(left.left.offset, left.next_header, rest) {
        Some(extension) => {
            left.left.take_first(extension.header.len);
            left.next_header = extension.next_header;
            extension
        }
        None => no_extension(),
    }
}

// The header of this number at the start of the bytes, of which the first has this offset.
fn extension_at(place: usize, number: u8, bytes: &[u8]) -> Option<EpExtension>
    requires { place + length bytes.now < 2 ^ 64 }
    ensures { result ≡ option_map (extension_struct place)
        (piece_at_start (slot_after false number) bytes.now) }
{
    match number {
        0 => raw_extension(place, 0, Layer::Ipv6HopByHopHeader, bytes),
        43 => raw_extension(place, 43, Layer::Ipv6RouteHeader, bytes),
        44 => fragment_extension(place, bytes),
        51 => auth_extension(place, bytes),
        60 => raw_extension(place, 60, Layer::Ipv6DestOptionsHeader, bytes),
        _ => None,
    }
}

fn raw_extension(place: usize, number: u8, layer: Layer, bytes: &[u8]) -> Option<EpExtension>
    requires { place + length bytes.now < 2 ^ 64 }
    ensures { result ≡ option_map (raw_struct place number (layer_number layer))
        (result_ok (raw_at bytes.now)) }
{
    match Ipv6RawExtHeaderSlice::from_slice(bytes) {
        Ok(header) => Some(EpExtension {
            payload: EpPart::of(place + 2, header.payload()),
            ..any_extension(place, number, layer, header.slice())
        }),
        Err(_) => None,
    }
}

fn fragment_extension(place: usize, bytes: &[u8]) -> Option<EpExtension>
    ensures { result ≡ option_map (fragment_struct place) (result_ok (fragment_at bytes.now)) }
{
    match Ipv6FragmentHeaderSlice::from_slice(bytes) {
        Ok(header) => Some(EpExtension {
            identification: header.identification(),
            fragment_offset: header.fragment_offset().value(),
            more_fragments: header.more_fragments(),
            ..any_extension(place, 44, Layer::Ipv6FragHeader, header.slice())
        }),
        Err(_) => None,
    }
}

fn auth_extension(place: usize, bytes: &[u8]) -> Option<EpExtension>
    requires { place + length bytes.now < 2 ^ 64 }
    ensures { result ≡ option_map (auth_struct place) (result_ok (auth_at bytes.now)) }
{
    match IpAuthHeaderSlice::from_slice(bytes) {
        Ok(header) => Some(EpExtension {
            payload: EpPart::of(place + 12, header.raw_icv()),
            spi: header.spi(),
            sequence_number: header.sequence_number(),
            ..any_extension(place, 51, Layer::IpAuthHeader, header.slice())
        }),
        Err(_) => None,
    }
}

// What every header has; its first byte names what follows it.
fn any_extension(place: usize, number: u8, layer: Layer, header: &[u8]) -> EpExtension
    requires { 0 < length header.now }
    ensures { result ≡ any_struct place number (layer_number layer) header.now }
{
    EpExtension {
        header: EpPart::of(place, header),
        layer: layer_number(layer),
        number,
        next_header: header[0],
        ..no_extension()
    }
}

fn no_extension() -> EpExtension
    ensures { result ≡ no_extension }
{
    EpExtension {
        header: EpPart::none(),
        payload: EpPart::none(),
        layer: 0,
        identification: 0,
        spi: 0,
        sequence_number: 0,
        fragment_offset: 0,
        number: 0,
        next_header: 0,
        more_fragments: false,
    }
}
