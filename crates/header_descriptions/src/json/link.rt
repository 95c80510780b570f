//! Link headers and the tags after them.

use crate::json::fields::{begin, flag, flags, hardware, number, numbers, text};
use ep_link::Ethernet2Slice;
use ep_tag::{LaxLinkExtSlice, LinkExtSlice, MacsecHeaderSlice, MacsecPType, SingleVlanSlice};
use serde::Serializer;

/// An Ethernet II header. It has no contract: tests compare the texts.
pub fn ethernet2<S: Serializer>(out: &mut S, frame: &Ethernet2Slice<'_>) -> Result<(), S::Error> {
    begin(out, "Ethernet2")?;
    hardware(out, "source", &frame.source())?;
    hardware(out, "destination", &frame.destination())?;
    number(out, "ether_type", frame.ether_type().0.into())?;
    out.end_map()
}

/// The tags, the outer one first. It has no contract: tests compare the texts.
pub fn tags<S: Serializer>(out: &mut S, tags: &[LinkExtSlice<'_>]) -> Result<(), S::Error> {
    out.key("link_exts")?;
    out.begin_seq(None)?;
    for tag in tags {
        match tag {
            LinkExtSlice::Vlan(tag) => vlan(out, tag)?,
            LinkExtSlice::Macsec(tag) => macsec(out, &tag.header)?,
        }
    }
    out.end_seq()
}

/// The same of a packet that is there in part. It has no contract: tests compare the texts.
pub fn lax_tags<S: Serializer>(out: &mut S, tags: &[LaxLinkExtSlice<'_>]) -> Result<(), S::Error> {
    out.key("link_exts")?;
    out.begin_seq(None)?;
    for tag in tags {
        match tag {
            LaxLinkExtSlice::Vlan(tag) => vlan(out, tag)?,
            LaxLinkExtSlice::Macsec(tag) => macsec(out, &tag.header)?,
        }
    }
    out.end_seq()
}

fn vlan<S: Serializer>(out: &mut S, tag: &SingleVlanSlice<'_>) -> Result<(), S::Error> {
    out.begin_map(None)?;
    begin(out, "Vlan")?;
    number(out, "pcp", tag.priority_code_point().value().into())?;
    flag(
        out,
        "drop_eligible_indicator",
        tag.drop_eligible_indicator(),
    )?;
    number(out, "vlan_id", tag.vlan_identifier().value().into())?;
    number(out, "ether_type", tag.ether_type().0.into())?;
    out.end_map()?;
    out.end_map()
}

fn macsec<S: Serializer>(out: &mut S, header: &MacsecHeaderSlice<'_>) -> Result<(), S::Error> {
    out.begin_map(None)?;
    begin(out, "Macsec")?;
    packet_type(out, header.ptype())?;
    let bits = [
        ("endstation_id", header.endstation_id()),
        ("scb", header.scb()),
    ];
    flags(out, &bits)?;
    let members = [
        ("an", header.an().value().into()),
        ("short_len", header.short_len().value().into()),
        ("packet_nr", header.packet_nr().into()),
    ];
    numbers(out, &members)?;
    if let Some(sci) = header.sci() {
        number(out, "sci", sci)?;
    }
    out.end_map()?;
    out.end_map()
}

fn packet_type<S: Serializer>(out: &mut S, ptype: MacsecPType) -> Result<(), S::Error> {
    match ptype {
        MacsecPType::Unmodified(ether_type) => {
            text(out, "ptype", "Unmodified")?;
            number(out, "ether_type", ether_type.0.into())
        }
        MacsecPType::Modified => text(out, "ptype", "Modified"),
        MacsecPType::Encrypted => text(out, "ptype", "Encrypted"),
        MacsecPType::EncryptedUnmodified => text(out, "ptype", "EncryptedUnmodified"),
    }
}
