//! A packet as far as it is there, as fields and numbers.
ghost use Rattle.std.specs.Prelude.{◌≡◌, ◌≤◌, false};
ghost use Rattle.std.specs.Option.{option_map};
ghost use Rattle.etherparse.specs.base.declared.len_source.LenSource.{LenSource};
ghost use Rattle.etherparse.specs.base.declared.len_source.LenSource.TheVariants.{Slice};
ghost use Rattle.etherparse.specs.packet.LaxSliced.{lax_sliced_ethernet, lax_sliced_ip, lax_sliced_linux_sll};
ghost use Rattle.etherparse.specs.packet.LaxView.{bound_after, bound_by, lax_ether_payload_in};
ghost use Rattle.etherparse.specs.packet.SliceFault.{of_linux_sll};
ghost use Rattle.etherparse.specs.link.Ethernet.{ethernet_len};
ghost use Rattle.etherparse.specs.link.Sll.{sll_len};
ghost use Rattle.etherparse.specs.tag.Ether.{present_ether};
ghost use Rattle.etherparse_structs.specs.LaxPacket.{is_incomplete, lax_layers_struct, lax_packet_struct, lax_refused};
ghost use Rattle.etherparse_structs.specs.LaxPacket.{lax_reported, of_ip_header, of_len, stop_layer_of, stop_refusal};
ghost use Rattle.etherparse_structs.specs.Packet.{ether_part};

use crate::link::lax_tags_struct;
use crate::net::lax_net_fields;
use crate::packet::{layers_struct, refused};
use crate::refusal::{layer_number, no_refusal, refusal};
use crate::{EpPacket, EpPart, EpRefusal};
use etherparse::err::packet::SliceError;
use etherparse::err::{Layer, ip, linux_sll};
use etherparse::{LaxLinkExtSlice, LaxMacsecPayloadSlice, LaxSlicedPacket};

/// The fields of a packet as far as it is there, also where it was cut off or a header breaks its
/// format.
#[repr(C)]
#[derive(Drop)]
pub struct EpLaxPacket {
    /// The layers that are there. Its `refusal` says why not even the first header can be read: the
    /// link header, or the IP header of a packet without one. Where a length field says more than is
    /// there, the payload ends with the bytes that were passed. Also where the total length of IPv4
    /// is less than its header, the payload is all that follows. A UDP length that doesn't fit isn't
    /// a fault here. So a packet without a stop of which nothing is missing may still be refused by
    /// `ep_slice_ethernet`. Where an extension header stopped the reading, the IP payload starts with
    /// it, and `payload_number` is its number.
    pub packet: EpPacket,
    /// Why the reading stopped before the end: the refusal of the first layer after these. All
    /// fields are 0 where it didn't stop.
    pub stop: EpRefusal,
    /// The layer that was being read when it stopped, numbered as the layer of a refusal: it says
    /// which extension header, where `stop.layer` is EP_LAYER_IPV6_EXT_HEADER. 0 where it didn't
    /// stop.
    pub stop_layer: u32,
    /// Whether bytes are missing that the length field of IPv4, IPv6 or MACsec counts: bytes of the
    /// payload of `ipv4` or `ipv6`, or where neither is there, of what follows the tags.
    pub incomplete: bool,
}

/// Slices an Ethernet II frame as far as it is there.
pub fn sliced_lax_ethernet(bytes: &[u8]) -> EpLaxPacket
    ensures { result ≡ lax_reported ethernet_len of_len (lax_sliced_ethernet bytes.now) }
{
    match LaxSlicedPacket::from_ethernet(bytes) {
        Ok(packet) => lax_packet_struct(14, &packet),
        Err(error) => lax_refused(SliceError::Len(error)),
    }
}

/// The same of a packet of a Linux cooked capture.
pub fn sliced_lax_linux_sll(bytes: &[u8]) -> EpLaxPacket
    ensures { result ≡ lax_reported sll_len of_linux_sll (lax_sliced_linux_sll bytes.now) }
{
    match LaxSlicedPacket::from_linux_sll(bytes) {
        Ok(packet) => lax_packet_struct(16, &packet),
        Err(linux_sll::HeaderSliceError::Len(error)) => lax_refused(SliceError::Len(error)),
        Err(linux_sll::HeaderSliceError::Content(error)) => lax_refused(SliceError::LinuxSll(
            error,
        )),
    }
}

/// The same of an IP packet of either version.
pub fn sliced_lax_ip(bytes: &[u8]) -> EpLaxPacket
    ensures { result ≡ lax_reported 0 of_ip_header (lax_sliced_ip bytes.now) }
{
    match LaxSlicedPacket::from_ip(bytes) {
        Ok(packet) => lax_packet_struct(0, &packet),
        Err(ip::LaxHeaderSliceError::Len(error)) => lax_refused(SliceError::Len(error)),
        Err(ip::LaxHeaderSliceError::Content(error)) => lax_refused(SliceError::Ip(error)),
    }
}

fn lax_refused(error: SliceError) -> EpLaxPacket
    ensures { result ≡ lax_refused error }
{
    EpLaxPacket {
        packet: refused(error),
        stop: no_refusal(),
        stop_layer: 0,
        incomplete: false,
    }
}

fn lax_packet_struct(link_len: usize, packet: &LaxSlicedPacket<'_>) -> EpLaxPacket
    requires { link_len ≤ 16 }
    ensures { result ≡ lax_packet_struct link_len packet.now }
{
    EpLaxPacket {
        packet: lax_layers_struct(link_len, packet),
        stop: stop_refusal(packet.stop_err),
        stop_layer: stop_layer(packet.stop_err),
        incomplete: is_incomplete(packet),
    }
}

fn lax_layers_struct(link_len: usize, packet: &LaxSlicedPacket<'_>) -> EpPacket
    requires { link_len ≤ 16 }
    ensures { result ≡ lax_layers_struct link_len packet.now }
{
    let slices = packet.link_exts.as_slice();
    let (tags, net_offset) = lax_tags_struct(link_len, slices);
    layers_struct(
        &packet.link,
        slices.len() as u32,
        tags,
        lax_ether_part(net_offset, packet),
        lax_net_fields(net_offset, &packet.net),
        &packet.transport,
    )
}

fn lax_ether_part(place: usize, packet: &LaxSlicedPacket<'_>) -> EpPart
    ensures { result ≡ ether_part place (option_map present_ether (lax_ether_payload_in packet.now)) }
{
    match packet.ether_payload() {
        Some(payload) => EpPart::of(place, payload.payload),
        None => EpPart::none(),
    }
}

fn stop_refusal(stop: Option<(SliceError, Layer)>) -> EpRefusal
    ensures { result ≡ stop_refusal stop }
{
    match stop {
        Some((error, _)) => refusal(error),
        None => no_refusal(),
    }
}

fn stop_layer(stop: Option<(SliceError, Layer)>) -> u32
    ensures { result ≡ stop_layer_of stop }
{
    match stop {
        Some((_, layer)) => layer_number(layer),
        None => 0,
    }
}

fn is_incomplete(packet: &LaxSlicedPacket<'_>) -> bool
    ensures { result ≡ is_incomplete packet.now }
{
    match packet.ip_payload() {
        Some(ip) => ip.incomplete,
        None => is_cut_after(packet.link_exts.as_slice()),
    }
}

// Whether bytes are missing of what follows these tags.
fn is_cut_after(tags: &[LaxLinkExtSlice<'_>]) -> bool
    ensures { result ≡ (bound_after (false, Slice) tags.now).0 }
{
    let mut is_cut = false;
    for tag in tags {
        is_cut = is_cut_by(is_cut, tag);
    }
    is_cut
}

// The same after one more.
fn is_cut_by(is_cut: bool, tag: &LaxLinkExtSlice<'_>) -> bool
    ensures { (source : LenSource) → result ≡ (bound_by (is_cut, source) tag.now).0 }
{
    match tag {
        LaxLinkExtSlice::Vlan(_) => is_cut,
        LaxLinkExtSlice::Macsec(macsec) if macsec.header.short_len().value() == 0 => is_cut,
        LaxLinkExtSlice::Macsec(macsec) => match &macsec.payload {
            LaxMacsecPayloadSlice::Unmodified(payload) => payload.incomplete,
            LaxMacsecPayloadSlice::Modified { incomplete, .. } => *incomplete,
        },
    }
}
