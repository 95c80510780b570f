//! What the headers of a fragment say.

use crate::show::endpoints::endpoints;
use ep_base::IpNumber;
use ep_ipslice::{Ipv6ExtensionSlice, LaxIpv4Slice, LaxIpv6Slice};
use ep_packet::{Addresses, IpFragment, LaxNetSlice};
use header_descriptions::show::{Line, Tone, names};
use std::alloc::AllocError;

/// What the headers of a fragment say of it.
#[derive(Clone, Copy)]
pub(crate) struct FragmentHeaders {
    pub addresses: Addresses,
    pub ip_number: IpNumber,
    pub identification: u32,
    pub offset: u16,
    pub more_fragments: bool,
    pub len: usize,
}

impl FragmentHeaders {
    /// Those of a fragment that is there as a whole. It has no contract: tests compare the texts.
    pub(crate) fn of(fragment: &IpFragment<'_>) -> FragmentHeaders {
        FragmentHeaders {
            addresses: fragment.addresses,
            ip_number: fragment.ip_number,
            identification: fragment.identification,
            offset: fragment.fragment.offset.byte_offset(),
            more_fragments: fragment.fragment.more_fragments,
            len: fragment.fragment.bytes.len(),
        }
    }

    /// Those of an IPv4 packet that is there in part, whose payload has so many bytes. It has no
    /// contract: tests compare the texts.
    pub(crate) fn over_ipv4(packet: &LaxIpv4Slice<'_>, len: usize) -> FragmentHeaders {
        let header = packet.header();
        FragmentHeaders {
            addresses: Addresses::V4 {
                source: header.source(),
                destination: header.destination(),
            },
            ip_number: packet.payload_ip_number(),
            identification: header.identification().into(),
            offset: header.fragments_offset().byte_offset(),
            more_fragments: header.more_fragments(),
            len,
        }
    }

    /// Those of an IPv6 packet, by its first fragment header, if that describes a fragment. It has no
    /// contract: tests compare the texts.
    pub(crate) fn over_ipv6(packet: &LaxIpv6Slice<'_>, len: usize) -> Option<FragmentHeaders> {
        for extension in packet.extensions().iter() {
            if let Ipv6ExtensionSlice::Fragment(fragment) = extension {
                if !fragment.is_fragmenting_payload() {
                    return None;
                }
                let header = packet.header();
                return Some(FragmentHeaders {
                    addresses: Addresses::V6 {
                        source: header.source(),
                        destination: header.destination(),
                    },
                    ip_number: packet.payload_ip_number(),
                    identification: fragment.identification(),
                    offset: fragment.fragment_offset().byte_offset(),
                    more_fragments: fragment.more_fragments(),
                    len,
                });
            }
        }
        None
    }

    /// Where it came from and went to, its protocol, its offset in its datagram, and its
    /// identification in a parenthesis that stays open. It has no contract: tests compare the texts.
    pub(crate) fn show(&self, line: &mut Line<'_>) -> Result<(), AllocError> {
        endpoints(line, &self.addresses, None)?;
        line.text(" ")?;
        names::protocol(line, self.ip_number)?;
        line.text(" ")?;
        self.position(line)?;
        line.text(" (id 0x")?;
        self.identification(line)
    }

    // Its offset and length.
    fn position(&self, line: &mut Line<'_>) -> Result<(), AllocError> {
        fragment_at(line, self.offset)?;
        line.counted(" len ", self.len as u64)?;
        line.text(if self.more_fragments {
            ", more follow"
        } else {
            ", last"
        })
    }

    // Four hex digits over IPv4, and eight over IPv6.
    fn identification(&self, line: &mut Line<'_>) -> Result<(), AllocError> {
        let [a, b, c, d] = self.identification.to_be_bytes();
        if let Addresses::V6 { .. } = self.addresses {
            line.hex(a)?;
            line.hex(b)?;
        }
        line.hex(c)?;
        line.hex(d)
    }
}

/// That it is a fragment, and its offset in its datagram. It has no contract: tests compare the texts.
pub(crate) fn fragment_at(line: &mut Line<'_>, offset: u16) -> Result<(), AllocError> {
    line.begin_tone(Tone::Fragment)?;
    line.counted("fragment at ", offset.into())?;
    line.end_tone()
}

/// The offset of a fragment that is there in part. It has no contract: tests compare the texts.
pub(crate) fn lax_fragment_offset(net: &Option<LaxNetSlice<'_>>) -> Option<u16> {
    match net {
        Some(LaxNetSlice::Ipv4(packet)) if packet.is_payload_fragmented() => {
            Some(FragmentHeaders::over_ipv4(packet, 0).offset)
        }
        Some(LaxNetSlice::Ipv6(packet)) => match FragmentHeaders::over_ipv6(packet, 0) {
            Some(fragment) => Some(fragment.offset),
            None => None,
        },
        _ => None,
    }
}

/// A packet whose first fragment header describes no fragment, where a later one does. It has no
/// contract: tests compare the texts.
pub(crate) fn two_fragment_headers(
    line: &mut Line<'_>,
    addresses: Option<Addresses>,
    ip_number: Option<IpNumber>,
) -> Result<(), AllocError> {
    if let Some(addresses) = addresses {
        endpoints(line, &addresses, None)?;
        line.text(" ")?;
    }
    if let Some(number) = ip_number {
        names::protocol(line, number)?;
        line.text(" ")?;
    }
    line.text("two fragment headers")
}
