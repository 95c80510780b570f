//! What is there of packets that are refused.
ghost use Rattle.std.specs.Prelude.{◌≡◌, ◌-◌, List, ℕ, length};
ghost use Rattle.ep_ext.specs.Ipv4Exts.{auth_bytes};
ghost use Rattle.packets.specs.LaxLayers.{in_frame, is_cut_off, is_end_of_bytes, promised, promised_len, stop_fault_of};
ghost use Rattle.packets.specs.LaxLayers.{lax_layers_of, shown_fault, unless_cut_off};

use crate::Dissection;
use crate::dissector::fault_after_header;
use captures::Header;
use ep_base::{EtherType, LenSource};
use ep_ipslice::Ipv4ExtensionsSlice;
use ep_packet::err::packet::SliceError;
use ep_packet::{LaxNetSlice, LaxSlicedPacket};
use std::marker::Model;

/// The bytes of a frame, after a header that was made for it if one was.
#[derive(Drop)]
pub struct FrameBytes<'a> {
    bytes: &'a [u8],
}

impl<'a> Model for FrameBytes<'a> {
    ghost Value = { List ℕ };

    ghost view = { λ frame. frame.bytes.now };
}

impl<'a> FrameBytes<'a> {
    /// These bytes.
    pub fn of(bytes: &'a [u8]) -> FrameBytes<'a>
        ensures { result ≡ bytes.now }
    {
        FrameBytes { bytes }
    }

    /// The bytes.
    pub fn bytes(&self) -> &'a [u8]
        ensures { result.now ≡ self.now }
    {
        self.bytes
    }
}

impl<'a> Dissection<'a> {
    /// The headers that are there, also where it is refused: all before the first that isn't whole,
    /// or has a wrong version, header length, data offset or place. There are none in a frame that is
    /// shorter than its Ethernet II header.
    #[inline(never)]
    pub fn lax_layers(&self) -> Option<LaxSlicedPacket<'a>>
        ensures { result ≡ lax_layers_of self.now.header self.now.bytes }
    {
        let bytes = self.bytes.bytes();
        match &self.header {
            Some(header) => Some(LaxSlicedPacket::from_ether_type(
                EtherType(header.ether_type),
                bytes,
            )),
            None => match LaxSlicedPacket::from_ethernet(bytes) {
                Ok(packet) => Some(packet),
                Err(_) => None,
            },
        }
    }

    /// The fault that is shown of a packet that is refused for this one and has these layers there:
    /// the first that isn't only that bytes are missing which were cut off, if there is one.
    pub(crate) fn shown_fault(
        &self,
        fault: SliceError,
        layers: &Option<LaxSlicedPacket<'_>>,
    ) -> Option<SliceError>
        ensures { result ≡ shown_fault self.now.len (self.now.wire_len - self.now.captured_len) fault
            (stop_fault_of self.now.header layers.now) }
    {
        let cut = (self.wire_len as usize).saturating_sub(self.captured_len);
        if is_cut_off(self.len, cut, fault) {
            unless_cut_off(self.len, cut, stop_fault_of(&self.header, layers))
        } else {
            Some(fault)
        }
    }
}

// Whether nothing is wrong but that bytes are missing which were cut off, of a frame with so many
// bytes that are there and so many that were cut off.
fn is_cut_off(len: usize, cut: usize, fault: SliceError) -> bool
    ensures { result ≡ is_cut_off len cut fault }
{
    match fault {
        SliceError::Len(error) => {
            let end = error.layer_start_offset as u128 + error.len as u128;
            let most = error.len as u128 + cut as u128;
            0 < cut
                && is_end_of_bytes(error.len_source)
                && end == len as u128
                && error.len < error.required_len
                && error.required_len as u128 <= most
        }
        _ => false,
    }
}

fn is_end_of_bytes(source: LenSource) -> bool
    ensures { result ≡ is_end_of_bytes source }
{
    matches!(source, LenSource::Slice | LenSource::ArpAddrLengths)
}

fn unless_cut_off(len: usize, cut: usize, fault: Option<SliceError>) -> Option<SliceError>
    ensures { result ≡ unless_cut_off len cut fault }
{
    match fault {
        Some(fault) => {
            if is_cut_off(len, cut, fault) {
                None
            } else {
                Some(fault)
            }
        }
        None => None,
    }
}

// The fault of the first header that isn't there.
fn stop_fault_of(
    header: &Option<Header>,
    layers: &Option<LaxSlicedPacket<'_>>,
) -> Option<SliceError>
    ensures { result ≡ stop_fault_of header.now layers.now }
{
    match layers {
        Some(packet) => match packet.stop_err {
            Some((fault, _)) => Some(in_frame(header, fault)),
            None => None,
        },
        None => None,
    }
}

fn in_frame(header: &Option<Header>, fault: SliceError) -> SliceError
    ensures { result ≡ in_frame header.now fault }
{
    match header {
        Some(_) => fault_after_header(fault),
        None => fault,
    }
}

/// How many bytes the payload of an IP packet has: where bytes of it are missing, as many as its
/// headers promise.
pub(crate) fn promised_len(net: &Option<LaxNetSlice<'_>>) -> usize
    ensures { result ≡ promised_len net.now }
{
    match net {
        Some(LaxNetSlice::Ipv4(packet)) => {
            let header = packet.header();
            let stated = usize::from(header.total_len())
                .saturating_sub(header.slice().len())
                .saturating_sub(auth_len(packet.extensions()));
            promised(
                packet.payload().incomplete,
                stated,
                packet.payload().payload.len(),
            )
        }
        Some(LaxNetSlice::Ipv6(packet)) => {
            let stated = usize::from(packet.header().payload_length()).saturating_sub(
                packet.extensions().slice().len(),
            );
            promised(
                packet.payload().incomplete,
                stated,
                packet.payload().payload.len(),
            )
        }
        _ => 0,
    }
}

fn promised(is_incomplete: bool, stated: usize, there: usize) -> usize
    ensures { result ≡ promised is_incomplete stated there }
{
    if is_incomplete { stated } else { there }
}

fn auth_len(extensions: &Ipv4ExtensionsSlice<'_>) -> usize
    ensures { result ≡ length (auth_bytes extensions.now.auth) }
{
    match &extensions.auth {
        Some(header) => header.slice().len(),
        None => 0,
    }
}
