//! The tags after a link header.

use crate::show::line::Line;
use ep_tag::{LaxLinkExtSlice, LinkExtSlice, MacsecHeaderSlice, SingleVlanSlice};
use std::alloc::AllocError;

/// The tags after a link header, the outer one first. It has no contract: tests compare the texts.
pub fn tags(line: &mut Line<'_>, tags: &[LinkExtSlice<'_>]) -> Result<(), AllocError> {
    for tag in tags {
        match tag {
            LinkExtSlice::Vlan(tag) => vlan(line, tag)?,
            LinkExtSlice::Macsec(tag) => macsec(line, &tag.header)?,
        }
    }
    Ok(())
}

/// The same of a packet that is there in part. It has no contract: tests compare the texts.
pub fn lax_tags(line: &mut Line<'_>, tags: &[LaxLinkExtSlice<'_>]) -> Result<(), AllocError> {
    for tag in tags {
        match tag {
            LaxLinkExtSlice::Vlan(tag) => vlan(line, tag)?,
            LaxLinkExtSlice::Macsec(tag) => macsec(line, &tag.header)?,
        }
    }
    Ok(())
}

fn vlan(line: &mut Line<'_>, tag: &SingleVlanSlice<'_>) -> Result<(), AllocError> {
    line.counted("vlan ", tag.vlan_identifier().value().into())?;
    line.text(" ")
}

fn macsec(line: &mut Line<'_>, header: &MacsecHeaderSlice<'_>) -> Result<(), AllocError> {
    line.counted("macsec an ", header.an().value().into())?;
    line.counted(" pn ", header.packet_nr().into())?;
    if let Some(sci) = header.sci() {
        line.text(" sci ")?;
        for byte in sci.to_be_bytes() {
            line.hex(byte)?;
        }
    }
    line.text(" ")
}
