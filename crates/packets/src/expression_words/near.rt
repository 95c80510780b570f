//! Words that are near to one that is none.

use crate::expression_words::conditions::{KEYS, WORDS};
use crate::ip_number_name;
use ep_base::IpNumber;

// Names of protocols that are often meant, or aren't those of IP protocols.
const PROTOCOLS: &[&str] = &[
    "eth", "ethernet", "macsec", "arp", "ip4", "ipv4", "ip6", "ipv6", "icmp", "icmp6", "udp",
    "tcp", "sctp",
];

/// A word that is written by one edit less or more: a letter that is left out, added, changed, or
/// exchanged with the next one.
pub(crate) fn nearest(part: &str) -> Option<&'static str> {
    for (name, _) in WORDS.iter() {
        if is_near(part, *name) {
            return Some(*name);
        }
    }
    for (name, _) in KEYS.iter() {
        if is_near(part, *name) {
            return Some(*name);
        }
    }
    for name in PROTOCOLS.iter() {
        if is_near(part, *name) {
            return Some(*name);
        }
    }
    for number in 0..=255u8 {
        if let Some(name) = ip_number_name(IpNumber(number)) {
            if is_near(part, name) {
                return Some(name);
            }
        }
    }
    None
}

fn is_near(part: &str, name: &str) -> bool {
    let (part, name) = (part.as_bytes(), name.as_bytes());
    if name.len() < 2 || part.len().abs_diff(name.len()) > 1 {
        return false;
    }
    let same = part
        .iter()
        .zip(name.iter())
        .take_while(|(one, other)| one.eq_ignore_ascii_case(*other))
        .count();
    match (part.get(same..), name.get(same..)) {
        (Some(one), Some(other)) => is_one_edit(one, other),
        _ => false,
    }
}

// Whether one edit leads from one text to the other, which begin differently.
fn is_one_edit(one: &[u8], other: &[u8]) -> bool {
    match (one, other) {
        ([a, b, one @ ..], [c, d, other @ ..])
            if a.eq_ignore_ascii_case(d)
                && b.eq_ignore_ascii_case(c)
                && one.eq_ignore_ascii_case(other) => { true }
        ([_, after @ ..], [_, rest @ ..]) => {
            after.eq_ignore_ascii_case(rest)
                || after.eq_ignore_ascii_case(other)
                || one.eq_ignore_ascii_case(rest)
        }
        ([_], []) | ([], [_]) => true,
        _ => false,
    }
}
