//! MACsec headers whose payload may have been cut off (IEEE 802.1AE, clause 9).
//! The functions have no contracts: tests alone call them, and are run.
use super::macsec::missing;
use crate::checks::{equal, fail, shows};
use ep_base::err::Layer;
use ep_base::{EtherType, LenSource};
use ep_tag::err::macsec::{HeaderError, HeaderSliceError};
use ep_tag::{EtherPayloadSlice, LaxEtherPayloadSlice, LaxMacsecPayloadSlice, LaxMacsecSlice};
use std::cmp::Ordering;
use std::process::Abort;

// Unmodified, packet number 1, the ether type of IPv4, a short length of 6 that leaves 4 bytes for
// the packet, these and a byte after them.
const BYTES: [u8; 13] = [0, 6, 0, 0, 0, 1, 8, 0, 0x45, 0, 0, 0x24, 0xff];

// Encrypted, with a secure channel identifier and a short length of 3; the 3 bytes and one more.
const ENCRYPTED: [u8; 18] = [
    0x2c, 3, 0, 0, 0, 1, 0xa, 0xb, 0xc, 0xd, 0xe, 0xf, 0x10, 0x11, 21, 22, 23, 24,
];

// Whether bytes are missing, the ether type and what bounds the bytes, where the payload is
// unmodified, and the bytes.
type Reported<'a> = (bool, Option<(EtherType, LenSource)>, &'a [u8]);

fn reported<'a>(payload: &LaxMacsecPayloadSlice<'a>) -> Reported<'a> {
    match payload {
        LaxMacsecPayloadSlice::Unmodified(payload) => {
            let named = (payload.ether_type, payload.len_source);
            (payload.incomplete, Some(named), payload.payload)
        }
        LaxMacsecPayloadSlice::Modified {
            incomplete,
            payload,
        } => (*incomplete, None, payload),
    }
}

fn read(bytes: &[u8]) -> Result<Reported<'_>, HeaderSliceError> {
    match LaxMacsecSlice::from_slice(bytes) {
        Ok(macsec) => Ok(reported(&macsec.payload)),
        Err(error) => Err(error),
    }
}

// The first `len` bytes.
fn prefix(bytes: &[u8], len: usize) -> &[u8] {
    bytes.get(..len).unwrap_or(&[])
}

#[test]
fn an_unmodified_payload(rt: HostRuntime) {
    let bounded = |len_source| Some((EtherType::IPV4, len_source));
    let met = (false, bounded(LenSource::MacsecShortLength), &BYTES[8..12]);
    equal(rt, read(&BYTES), Ok(met));
    equal(rt, read(prefix(&BYTES, 12)), Ok(met));
    let cut_off = (true, bounded(LenSource::Slice), &BYTES[8..11]);
    equal(rt, read(prefix(&BYTES, 11)), Ok(cut_off));
    let header_alone = (true, bounded(LenSource::Slice), &BYTES[8..8]);
    equal(rt, read(prefix(&BYTES, 8)), Ok(header_alone));
}

#[test]
fn a_short_length_of_0(rt: HostRuntime) {
    let mut bytes = BYTES;
    bytes[1] = 0;
    let bounded = Some((EtherType::IPV4, LenSource::Slice));
    equal(rt, read(&bytes), Ok((false, bounded, &BYTES[8..])));
    equal(
        rt,
        read(prefix(&bytes, 8)),
        Ok((false, bounded, &BYTES[8..8])),
    );
}

#[test]
fn an_encrypted_payload(rt: HostRuntime) {
    equal(rt, read(&ENCRYPTED), Ok((false, None, &ENCRYPTED[14..17])));
    let met = prefix(&ENCRYPTED, 17);
    equal(rt, read(met), Ok((false, None, &ENCRYPTED[14..17])));
    let cut_off = prefix(&ENCRYPTED, 16);
    equal(rt, read(cut_off), Ok((true, None, &ENCRYPTED[14..16])));
}

#[test]
fn no_header(rt: HostRuntime) {
    let cut_off = missing(8, 7, Layer::MacsecHeader);
    equal(rt, read(prefix(&BYTES, 7)), Err(cut_off));
    let short = missing(6, 5, Layer::MacsecHeader);
    equal(rt, read(prefix(&ENCRYPTED, 5)), Err(short));
    let identifier = missing(14, 13, Layer::MacsecHeader);
    equal(rt, read(prefix(&ENCRYPTED, 13)), Err(identifier));
    let version = HeaderSliceError::Content(HeaderError::UnexpectedVersion);
    equal(rt, read(&[0x80, 1, 0, 0, 0, 1]), Err(version));
    let no_room = HeaderSliceError::Content(HeaderError::InvalidUnmodifiedShortLen);
    equal(rt, read(&[0, 1, 0, 0, 0, 1]), Err(no_room));
}

// 2048 is 0800, IPv4.
#[test]
fn getters(rt: HostRuntime) {
    let Ok(macsec) = LaxMacsecSlice::from_slice(prefix(&BYTES, 10)) else {
        fail(rt, "no header");
    };
    equal(rt, macsec.header_len(), 8);
    equal(rt, macsec.to_header().short_len.value(), 6);
    equal(rt, macsec.next_ether_type(), Some(EtherType::IPV4));
    let payload = "Some(LaxEtherPayloadSlice { incomplete: true, ether_type: EtherType(2048), \
        len_source: Slice, payload: [69, 0] })";
    shows(rt, &macsec.ether_payload(), payload);
}

#[test]
fn getters_of_an_encrypted_payload(rt: HostRuntime) {
    let Ok(macsec) = LaxMacsecSlice::from_slice(prefix(&ENCRYPTED, 15)) else {
        fail(rt, "no header");
    };
    equal(rt, macsec.header_len(), 14);
    equal(rt, macsec.next_ether_type(), None);
    equal(rt, macsec.ether_payload(), None);
    let payload = "Modified { incomplete: true, payload: [21] }";
    shows(rt, &macsec.payload, payload);
}

fn ether_payload(incomplete: bool, payload: &[u8]) -> LaxEtherPayloadSlice<'_> {
    LaxEtherPayloadSlice {
        incomplete,
        ether_type: EtherType::IPV4,
        len_source: LenSource::Slice,
        payload,
    }
}

#[test]
fn a_payload_that_is_there(rt: HostRuntime) {
    let payload = EtherPayloadSlice {
        ether_type: EtherType::IPV4,
        len_source: LenSource::Slice,
        payload: &[1, 2],
    };
    let wanted = ether_payload(false, &[1, 2]);
    equal(rt, LaxEtherPayloadSlice::from(payload), wanted);
}

// Whether bytes are missing comes before the bytes.
#[test]
fn the_order_of_payloads(rt: HostRuntime) {
    let complete = ether_payload(false, &[2]);
    let incomplete = ether_payload(true, &[1]);
    equal(rt, complete.cmp(&incomplete), Ordering::Less);
    let longer = ether_payload(true, &[1, 0]);
    equal(rt, longer.cmp(&incomplete), Ordering::Greater);
    equal(rt, complete == ether_payload(true, &[2]), false);
}
