//! The short length of a MACsec header (IEEE 802.1AE, section 9.7).
use crate::checks::equal;
use ep_base::EtherType;
use ep_tag::laws::macsec_len::*;
use ep_tag::{MacsecAn, MacsecHeader, MacsecPType, MacsecShortLen};

// A length, and the short length that counts it: 47 is the greatest one.
const LENGTHS: &[(usize, u8)] = &[
    (0, 0),
    (1, 1),
    (47, 47),
    (48, 0),
    (63, 0),
    (256, 0),
    (usize::MAX, 0),
];

#[test]
fn short_lengths(rt: HostRuntime) {
    for (len, short_len) in LENGTHS {
        equal(rt, MacsecShortLen::from_len(*len).value(), *short_len);
    }
    short_lengths_at_literals();
}

// The short length that is set for a payload of so many bytes.
fn set_for(ptype: MacsecPType, payload_len: usize) -> u8 {
    let mut header = MacsecHeader {
        ptype,
        endstation_id: false,
        scb: false,
        an: MacsecAn::ZERO,
        short_len: MacsecShortLen::ZERO,
        packet_nr: 1,
        sci: None,
    };
    header.set_payload_len(payload_len);
    header.short_len.value()
}

// An ether type of two bytes precedes an unmodified payload alone.
#[test]
fn short_lengths_of_payloads(rt: HostRuntime) {
    let unmodified = MacsecPType::Unmodified(EtherType::IPV4);
    for (payload_len, short_len) in [(0, 2), (45, 47), (46, 0), (usize::MAX, 0)] {
        equal(rt, set_for(unmodified, payload_len), short_len);
    }
    for (payload_len, short_len) in LENGTHS {
        equal(rt, set_for(MacsecPType::Modified, *payload_len), *short_len);
        equal(
            rt,
            set_for(MacsecPType::Encrypted, *payload_len),
            *short_len,
        );
        equal(
            rt,
            set_for(MacsecPType::EncryptedUnmodified, *payload_len),
            *short_len,
        );
    }
}
