//! Protocols as a tree. The functions have no contracts: tests compare the texts.

use crate::report::charts::bar;
use crate::report::page::Page;
use crate::summary::share::Share;
use crate::{Protocol, Summary, Tally};
use ep_base::IpNumber;
use std::alloc::AllocError;
use std::hash::BuildHasher;

/// The section.
pub(crate) fn write<S: BuildHasher>(
    page: &mut Page,
    summary: &Summary<S>,
) -> Result<(), AllocError> {
    let all = &summary.all;
    page.begin_section("protocols", "Protocols")?;
    begin_tallies(page, "protocol")?;
    row(page, "<tr><th scope=\"row\">all packets", None, all, all)?;
    let tallies = &summary.protocols;
    let links = [
        (&tallies.ethernet, Protocol::Ethernet),
        (&tallies.vlan, Protocol::Vlan),
        (&tallies.macsec, Protocol::Macsec),
        (&tallies.arp, Protocol::Arp),
        (&tallies.ipv4, Protocol::Ipv4),
        (&tallies.ipv6, Protocol::Ipv6),
    ];
    for (tally, protocol) in links {
        row(
            page,
            "<tr><th scope=\"row\" class=\"in1\">",
            Some(protocol),
            tally,
            all,
        )?;
    }
    if tallies.ipv4.packets > 0 || tallies.ipv6.packets > 0 {
        page.markup(
            "<tr><th scope=\"row\" class=\"in1\" colspan=\"7\">carried by IPv4 and IPv6</th></tr>\n",
        )?;
    }
    for number in 0..=u8::MAX {
        let number = IpNumber(number);
        let tally = tallies.over_ip.get(number);
        let protocol = Some(Protocol::OverIp(number));
        row(
            page,
            "<tr><th scope=\"row\" class=\"in2\">",
            protocol,
            &tally,
            all,
        )?;
    }
    page.end_table()?;
    page.markup(
        "<p class=\"key\">A packet is in each row whose header it has, so rows have packets in common: a protocol that IP carries is in that of its version too, and a frame with a tag in that of the tag. Bars are shares of all packets; <em>first</em> is the number of the first packet.</p>\n",
    )?;
    page.end_section()
}

// A row, if there is such a packet.
fn row(
    page: &mut Page,
    begin: &'static str,
    protocol: Option<Protocol>,
    tally: &Tally,
    all: &Tally,
) -> Result<(), AllocError> {
    let Some(first) = tally.first else {
        return Ok(());
    };
    page.markup(begin)?;
    if let Some(protocol) = protocol {
        page.shown(protocol)?;
    }
    page.markup("</th>")?;
    counts(page, tally, all)?;
    page.number(first)?;
    bar(page, tally.packets, all.packets)?;
    page.end_row()
}

/// Begins a table of tallies, whose first column has this title.
pub(crate) fn begin_tallies(page: &mut Page, title: &'static str) -> Result<(), AllocError> {
    page.begin_table(&[
        (title, false),
        ("packets", true),
        ("share of packets", true),
        ("bytes", true),
        ("share of bytes", true),
        ("first", true),
        ("packets", false),
    ])
}

/// The cells of a tally: packets and bytes, each with its share of all.
pub(crate) fn counts(page: &mut Page, tally: &Tally, all: &Tally) -> Result<(), AllocError> {
    page.number(tally.packets)?;
    page.number(Share {
        part: tally.packets,
        whole: all.packets,
    })?;
    page.number(tally.bytes)?;
    page.number(Share {
        part: tally.bytes,
        whole: all.bytes,
    })
}
