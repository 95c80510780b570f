//! Frames that were cut, as in captures of the first bytes of each, sliced as far as they are there, and
//! all parts and what stopped the reading are read.
use crate::job::Job;
use crate::random::Random;
use crate::sliced_packets::{
    append_headers, sum_of_arp, sum_of_error, sum_of_ip_payload, sum_of_ipv4_addresses,
    sum_of_ipv6_addresses, sum_of_len_error, sum_of_link, sum_of_transport, sum_of_vlan,
};
use ep_base::err::Layer;
use ep_ipslice::LaxIpPayloadSlice;
use ep_packet::err::packet::SliceError;
use ep_packet::{LaxNetSlice, LaxSlicedPacket};
use ep_tag::{LaxLinkExtSlice, LaxMacsecPayloadSlice};
use std::alloc::{AllocError, Global};

/// Frames of the kinds of `SlicedMix`: a third of them whole, a third cut in the payload, and a third
/// cut in the headers.
pub struct LaxSlicedMix;

impl Job for LaxSlicedMix {
    /// It has no contract: any frame would do.
    fn packet(alloc: Global, random: &mut Random) -> Result<Vec<u8>, AllocError> {
        let kind = random.below(8);
        let mut frame = Vec::new(alloc);
        let payload_len = append_headers(random, kind, &mut frame)?;
        let headers_len = frame.len();
        random.append(usize::from(payload_len), &mut frame)?;
        match random.below(3) {
            0 => {}
            1 => {
                let kept = offset_below(random, usize::from(payload_len));
                frame.truncate(headers_len.wrapping_add(kept));
            }
            _ => frame.truncate(offset_below(random, headers_len)),
        }
        Ok(frame)
    }

    /// It has no contract: the sum is compared with that of a plain program.
    fn sum(packet: &[u8]) -> u64 {
        match LaxSlicedPacket::from_ethernet(packet) {
            Ok(packet) => sum_of_packet(&packet),
            Err(error) => sum_of_len_error(&error),
        }
    }
}

/// A random offset below a length of at most some thousand bytes, or 0. It has no contract: any offset
/// would do.
fn offset_below(random: &mut Random, len: usize) -> usize {
    len.wrapping_mul(usize::from(random.byte())) / 256
}

/// The sum of all parts and of what stopped; it has no contract, as it is compared with that of a plain
/// program.
fn sum_of_packet(packet: &LaxSlicedPacket) -> u64 {
    let mut sum = sum_of_link(&packet.link).wrapping_add(sum_of_stop(&packet.stop_err));
    for tag in packet.link_exts.as_slice() {
        sum = sum.wrapping_add(sum_of_tag(tag));
    }
    let layers = sum_of_net(&packet.net).wrapping_add(sum_of_transport(&packet.transport));
    sum.wrapping_add(layers)
}

/// It has no contract: the sum is compared with that of a plain program.
fn sum_of_stop(stop: &Option<(SliceError, Layer)>) -> u64 {
    match stop {
        Some((error, layer)) => sum_of_error(error).wrapping_add(u64::from(*layer as u8)),
        None => 6,
    }
}

/// It has no contract: the sum is compared with that of a plain program.
fn sum_of_tag(tag: &LaxLinkExtSlice) -> u64 {
    match tag {
        LaxLinkExtSlice::Vlan(tag) => sum_of_vlan(tag),
        LaxLinkExtSlice::Macsec(macsec) => {
            let incomplete = match &macsec.payload {
                LaxMacsecPayloadSlice::Unmodified(payload) => payload.incomplete,
                LaxMacsecPayloadSlice::Modified { incomplete, .. } => *incomplete,
            };
            (macsec.header_len() as u64).wrapping_add(u64::from(incomplete))
        }
    }
}

/// It has no contract: the sum is compared with that of a plain program.
fn sum_of_net(packet: &Option<LaxNetSlice>) -> u64 {
    match packet {
        Some(LaxNetSlice::Ipv4(packet)) => {
            sum_of_ipv4_addresses(packet.header()).wrapping_add(sum_of_payload(packet.payload()))
        }
        Some(LaxNetSlice::Ipv6(packet)) => sum_of_ipv6_addresses(packet.header())
            .wrapping_add(packet.extensions().slice().len() as u64)
            .wrapping_add(sum_of_payload(packet.payload())),
        Some(LaxNetSlice::Arp(packet)) => sum_of_arp(packet),
        None => 3,
    }
}

/// It has no contract: the sum is compared with that of a plain program.
fn sum_of_payload(payload: &LaxIpPayloadSlice) -> u64 {
    sum_of_ip_payload(payload.ip_number, payload.fragmented, payload.payload)
        .wrapping_add(u64::from(payload.incomplete))
        .wrapping_add(u64::from(payload.len_source as u8))
}
