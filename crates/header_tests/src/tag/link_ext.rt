//! Tags of either kind.
use crate::checks::{equal, fail, is_written, shows};
use ep_base::EtherType;
use ep_tag::{
    LaxLinkExtSlice, LaxMacsecSlice, LinkExtHeader, LinkExtSlice, MacsecSlice, SingleVlanHeader,
    SingleVlanSlice,
};
use std::process::Abort;

const VLAN: [u8; 6] = [0, 5, 0x81, 0, 7, 8];

// A short length of 3, and a byte after the payload.
const MACSEC: [u8; 10] = [0, 3, 0, 0, 0, 1, 8, 6, 7, 8];

const CHANGED: [u8; 10] = [4, 0, 0, 0, 0, 1, 8, 6, 7, 8];

// The length of the tag's header and its ether type, of its fields.
fn length_and_type(header: &LinkExtHeader) -> (usize, Option<EtherType>) {
    (header.header_len(), header.next_ether_type())
}

// Tries the length of the tag's header by both calls, its ether type, its bytes, and what the
// ether type names, if it names something.
fn is_tag(
    rt: impl Abort + AllocGlobal + Copy,
    tag: &LinkExtSlice<'_>,
    bytes: &[u8],
    ether_type: Option<EtherType>,
    payload: &str,
) {
    let header = tag.to_header();
    equal(rt, tag.header_len(), bytes.len());
    equal(rt, length_and_type(&header), (bytes.len(), ether_type));
    shows(rt, &tag.ether_payload(), payload);
    let mut buffer = Vec::new(rt.alloc());
    let done = header.write(&mut buffer).is_ok();
    is_written(rt, done, buffer.as_slice(), bytes);
}

// 33024 is 8100.
#[test]
fn a_vlan_tag(rt: HostRuntime) {
    let Ok(tag) = SingleVlanSlice::from_slice(&VLAN) else {
        fail(rt, "no tag");
    };
    let payload = "Some(EtherPayloadSlice { ether_type: EtherType(33024), len_source: Slice, \
        payload: [7, 8] })";
    is_tag(
        rt,
        &LinkExtSlice::Vlan(tag),
        &VLAN[..4],
        Some(EtherType(0x8100)),
        payload,
    );
}

// 2054 is 0806, ARP.
#[test]
fn a_macsec_header(rt: HostRuntime) {
    let Ok(tag) = MacsecSlice::from_slice(&MACSEC) else {
        fail(rt, "no tag");
    };
    let payload = "Some(EtherPayloadSlice { ether_type: EtherType(2054), \
        len_source: MacsecShortLength, payload: [7] })";
    is_tag(
        rt,
        &LinkExtSlice::Macsec(tag),
        &MACSEC[..8],
        Some(EtherType(0x0806)),
        payload,
    );
}

#[test]
fn changed_bytes_have_no_ether_type(rt: HostRuntime) {
    let Ok(tag) = MacsecSlice::from_slice(&CHANGED) else {
        fail(rt, "no tag");
    };
    is_tag(rt, &LinkExtSlice::Macsec(tag), &CHANGED[..6], None, "None");
}

#[test]
fn tags_of_zeros(rt: HostRuntime) {
    let Ok(tag) = SingleVlanSlice::from_slice(&[0; 4]) else {
        fail(rt, "no tag");
    };
    equal(rt, LinkExtSlice::default(), LinkExtSlice::Vlan(tag));
    let header = LinkExtHeader::Vlan(SingleVlanHeader::default());
    equal(rt, LinkExtHeader::default(), header);
}

// The same of a tag after which bytes may be missing.
fn is_lax_tag(
    rt: impl Abort + AllocGlobal + Copy,
    tag: &LaxLinkExtSlice<'_>,
    len: usize,
    ether_type: Option<EtherType>,
    payload: &str,
) {
    equal(rt, tag.header_len(), len);
    equal(rt, length_and_type(&tag.to_header()), (len, ether_type));
    shows(rt, &tag.ether_payload(), payload);
}

#[test]
fn a_vlan_tag_read_lax(rt: HostRuntime) {
    let Ok(tag) = SingleVlanSlice::from_slice(&VLAN) else {
        fail(rt, "no tag");
    };
    let payload = "Some(LaxEtherPayloadSlice { incomplete: false, ether_type: EtherType(33024), \
        len_source: Slice, payload: [7, 8] })";
    let vlan = Some(EtherType(0x8100));
    is_lax_tag(rt, &LaxLinkExtSlice::Vlan(tag), 4, vlan, payload);
}

// The short length leaves a byte for the payload, and none is there.
#[test]
fn a_macsec_header_read_lax(rt: HostRuntime) {
    let Ok(tag) = LaxMacsecSlice::from_slice(&MACSEC[..8]) else {
        fail(rt, "no tag");
    };
    let payload = "Some(LaxEtherPayloadSlice { incomplete: true, ether_type: EtherType(2054), \
        len_source: Slice, payload: [] })";
    let arp = Some(EtherType(0x0806));
    is_lax_tag(rt, &LaxLinkExtSlice::Macsec(tag), 8, arp, payload);
}

#[test]
fn lax_tags_of_zeros(rt: HostRuntime) {
    let Ok(tag) = SingleVlanSlice::from_slice(&[0; 4]) else {
        fail(rt, "no tag");
    };
    equal(rt, LaxLinkExtSlice::default(), LaxLinkExtSlice::Vlan(tag));
}
