//! The line of a packet.

use crate::show::fragment_headers::two_fragment_headers;
use crate::show::options::ShowOptions;
use crate::show::shown_lines::LineContext;
use crate::show::{fragment, link, message, refused};
use crate::{Dissection, Headers};
use checksum_verdicts::Verdict;
use ep_packet::{Class, NetSlice, SlicedPacket};
use header_descriptions::show::arp::arp;
use header_descriptions::show::tags::tags;
use header_descriptions::show::tcp::InitialNumbers;
use header_descriptions::show::time::{Times, number_and_time};
use header_descriptions::show::{Line, Tone};
use std::alloc::AllocError;

impl ShowOptions {
    /// Appends the line of a packet to `out`, without the newline that ends it: the number and time
    /// of the packet, its VLANs, addresses and ports, its protocol with what its header says, and
    /// the verdict on the checksum. Of a fragment it gives the offset and what became of it, of a
    /// packet that is refused, the headers that are there and why, and of one that was cut, how many
    /// of its bytes were captured. Numbers of TCP are those of the segment, and local times those of UTC.
    /// It has no contract, nor has the next: tests compare the texts.
    pub fn write_line(&self, packet: &Dissection<'_>, out: &mut Vec<u8>) -> Result<(), AllocError> {
        self.write_in(&LineContext::NONE, packet, out)
    }

    /// The same with these numbers and local times.
    pub(crate) fn write_in(
        &self,
        context: &LineContext,
        packet: &Dissection<'_>,
        out: &mut Vec<u8>,
    ) -> Result<(), AllocError> {
        let initial_numbers = context.initial_numbers;
        let mut line = Line::begin(self.style, self.width, out);
        let times = Times {
            own: packet.time,
            first: packet.first_time,
            previous: packet.previous_time,
            ahead: context.ahead,
        };
        number_and_time(&mut line, self.time, packet.number, &times)?;
        let separator = match &packet.layers {
            Ok(layers) => {
                self.body(&mut line, packet, layers, initial_numbers)?;
                header_checksum(&mut line, packet)?;
                ", "
            }
            Err(error) => refused::refused(&mut line, packet, *error, self.link, initial_numbers)?,
        };
        if packet.is_cut() {
            line.text(separator)?;
            cut(&mut line, packet)
        } else {
            Ok(())
        }
    }

    fn body(
        &self,
        line: &mut Line<'_>,
        packet: &Dissection<'_>,
        layers: &SlicedPacket<'_>,
        initial_numbers: InitialNumbers,
    ) -> Result<(), AllocError> {
        tags(line, layers.link_exts.as_slice())?;
        if self.link && layers.net.is_some() {
            link::link_addresses(line, layers.link.as_ref(), packet.header.as_ref())?;
        }
        match layers.class() {
            Class::Whole(whole) => message::whole(
                line,
                &layers.net,
                &whole,
                packet.verdict,
                initial_numbers,
            ),
            Class::Cut(cut) => fragment::fragment(
                line,
                packet.number,
                &cut,
                packet.fragment.as_ref(),
                packet.verdict,
                initial_numbers,
            ),
            Class::Other => other(line, packet, layers),
            Class::Refused => Ok(()),
        }
    }
}

// That the checksum of the IPv4 header is wrong.
fn header_checksum(line: &mut Line<'_>, packet: &Dissection<'_>) -> Result<(), AllocError> {
    match packet.header_verdict() {
        Some(Verdict::Bad) => {
            line.text("  ")?;
            line.toned(Tone::Bad, "header checksum bad")
        }
        _ => Ok(()),
    }
}

// How much there is of a packet that was cut as it was captured.
fn cut(line: &mut Line<'_>, packet: &Dissection<'_>) -> Result<(), AllocError> {
    line.counted("cut at ", packet.captured_len as u64)?;
    line.counted(" of ", packet.wire_len.into())?;
    line.text(" bytes")
}

fn other(
    line: &mut Line<'_>,
    packet: &Dissection<'_>,
    layers: &SlicedPacket<'_>,
) -> Result<(), AllocError> {
    match &layers.net {
        Some(NetSlice::Arp(packet)) => arp(line, packet),
        Some(NetSlice::Ipv4(_)) | Some(NetSlice::Ipv6(_)) => {
            let headers = Headers::of(packet);
            two_fragment_headers(line, headers.addresses(), headers.carried())
        }
        None => link::other(line, layers, packet.header.as_ref()),
    }
}
