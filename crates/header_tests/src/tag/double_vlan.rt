//! Two VLAN tags, one directly after the other (IEEE 802.1Q, section 9.6).
use crate::checks::{equal, fail, shows};
use ep_base::err::{Layer, LenError};
use ep_base::{EtherType, LenSource};
use ep_tag::err::double_vlan::{HeaderError, HeaderSliceError};
use ep_tag::laws::double_vlan::*;
use ep_tag::{DoubleVlanHeader, DoubleVlanHeaderSlice};

// Priority 5, drop eligible and identifier 0123, then identifier 4, as scapy writes them; and two
// bytes after them.
const BYTES: [u8; 10] = [0xb1, 0x23, 0x88, 0xa8, 0, 4, 8, 0, 7, 8];

// 34984 is 88a8, 2048 is 0800, and 291 is 0123.
const FIELDS: &str = "DoubleVlanHeader { \
    outer: SingleVlanHeader { pcp: VlanPcp(5), drop_eligible_indicator: true, \
    vlan_id: VlanId(291), ether_type: EtherType(34984) }, \
    inner: SingleVlanHeader { pcp: VlanPcp(0), drop_eligible_indicator: false, \
    vlan_id: VlanId(4), ether_type: EtherType(2048) } }";

// Both tags, the outer one and the inner one.
fn parts<'a>(tags: &DoubleVlanHeaderSlice<'a>) -> [&'a [u8]; 3] {
    [tags.slice(), tags.outer().slice(), tags.inner().slice()]
}

#[test]
fn tags_as_a_header(rt: HostRuntime) {
    let Ok((header, rest)) = DoubleVlanHeader::from_slice(&BYTES) else {
        fail(rt, "no tags");
    };
    shows(rt, &header, FIELDS);
    equal(rt, rest, [7, 8].as_slice());
    equal(rt, header.to_bytes().as_slice(), &BYTES[..8]);
}

#[test]
fn tags_as_a_view(rt: HostRuntime) {
    let Ok(tags) = DoubleVlanHeaderSlice::from_slice(&BYTES) else {
        fail(rt, "no tags");
    };
    equal(rt, parts(&tags), [&BYTES[..8], &BYTES[..4], &BYTES[4..8]]);
    shows(rt, &tags.to_header(), FIELDS);
}

fn header_refusal(bytes: &[u8]) -> Option<HeaderSliceError> {
    match DoubleVlanHeader::from_slice(bytes) {
        Ok(_) => None,
        Err(error) => Some(error),
    }
}

fn refusal(bytes: &[u8]) -> Option<HeaderSliceError> {
    match DoubleVlanHeaderSlice::from_slice(bytes) {
        Ok(_) => None,
        Err(error) => Some(error),
    }
}

#[test]
fn every_prefix_of_two_tags(rt: HostRuntime) {
    for len in 0..8usize {
        let error = HeaderSliceError::Len(LenError {
            required_len: 8,
            len,
            len_source: LenSource::Slice,
            layer: Layer::VlanHeader,
            layer_start_offset: 0,
        });
        equal(rt, header_refusal(&BYTES[..len]), Some(error));
        equal(rt, refusal(&BYTES[..len]), Some(error));
    }
}

// Each of the three ether types of VLAN tags is taken, and those beside them aren't.
#[test]
fn ether_types_after_the_outer_tag(rt: HostRuntime) {
    let vlan: [u16; 3] = [0x8100, 0x88a8, 0x9100];
    for number in [
        0x80ffu16, 0x8100, 0x8101, 0x88a7, 0x88a8, 0x88e5, 0x9100, 0x9101,
    ] {
        let [high, low] = number.to_be_bytes();
        let bytes = [0, 5, high, low, 0, 4, 8, 0];
        let error = HeaderError::NonVlanEtherType {
            unexpected_ether_type: EtherType(number),
        };
        let wanted = if vlan.contains(&number) {
            None
        } else {
            Some(HeaderSliceError::from(error))
        };
        equal(rt, header_refusal(&bytes), wanted);
        equal(rt, refusal(&bytes), wanted);
    }
}

#[test]
fn laws(rt: HostRuntime) {
    let Ok((header, _)) = DoubleVlanHeader::from_slice(&BYTES) else {
        fail(rt, "no tags");
    };
    headers_are_their_bytes(&header);
    fields_at_literals();
    equal(rt, header_is_read_again(&header, &BYTES).is_ok(), true);
}
