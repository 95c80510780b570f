//! The words of one condition.
ghost use Rattle.std.specs.Prelude.{◌≤◌, IfOk, IfSome};

use crate::expression_words::errors::WordError;
use crate::{Condition, Protocol, Side, TcpFlag, Word};
use std::net::IpAddr;
use std::str::FromStr;

/// The words that are read alone.
pub(crate) const WORDS: &[(&str, Word)] = &[
    ("and", Word::And),
    ("&&", Word::And),
    ("or", Word::Or),
    ("||", Word::Or),
    ("not", Word::Not),
    ("!", Word::Not),
    ("(", Word::Open),
    (")", Word::Close),
    ("bad", Word::Test(Condition::Bad)),
    ("refused", Word::Test(Condition::Refused)),
    ("fragments", Word::Test(Condition::Fragment)),
    ("cut", Word::Test(Condition::Cut)),
    ("ndp", Word::Test(Condition::Ndp)),
    ("mld", Word::Test(Condition::Mld)),
    ("fin", Word::Test(Condition::Flag(TcpFlag::Fin))),
    ("syn", Word::Test(Condition::Flag(TcpFlag::Syn))),
    ("rst", Word::Test(Condition::Flag(TcpFlag::Rst))),
];

/// Those that a value follows.
pub(crate) const KEYS: &[(&str, Key)] = &[
    ("host", Key::Host),
    ("net", Key::Net),
    ("src", Key::Src),
    ("dst", Key::Dst),
    ("port", Key::Port),
    ("len", Key::Len),
    ("vlan", Key::Vlan),
    ("frame", Key::Frame),
];

const COMPARISONS: &[(&str, Comparison)] = &[
    ("=", Comparison::Equal),
    ("==", Comparison::Equal),
    (">=", Comparison::AtLeast),
    ("<=", Comparison::AtMost),
];

/// A word that a value follows.
#[derive(Clone, Copy, PartialEq, Eq)]
pub(crate) enum Key {
    Host,
    Net,
    Src,
    Dst,
    Port,
    Len,
    Vlan,
    Frame,
}

/// How a number that is read of a packet compares with the value.
#[derive(Clone, Copy, PartialEq, Eq)]
pub(crate) enum Comparison {
    Equal,
    AtLeast,
    AtMost,
}

impl FromStr for Condition {
    type Err = WordError;

    /// Reads a condition in letters of either case: `bad`, `refused`, `fragments`, `cut`, `ndp`,
    /// `mld`, `fin`, `syn`, `rst` or the name of a protocol ([`Protocol::named`]), or `host`, `net`, `src`, `dst`,
    /// `port`, `len`, `vlan` or `frame` with a `=` or a space and a value. It has no contract: tests
    /// compare the texts.
    fn from_str(word: &str) -> Result<Condition, WordError> {
        if let Some((key, value)) = word.split_once(|c: char| c == '=' || c == ' ') {
            return match key_of(key) {
                Some(key) => condition_of(key, Comparison::Equal, value),
                None => Err(WordError::Unknown),
            };
        }
        match word_of(word) {
            Some(Word::Test(condition)) => Ok(condition),
            _ => Err(WordError::Unknown),
        }
    }
}

/// The word that this is, if it is read alone.
pub(crate) fn word_of(part: &str) -> Option<Word> {
    for (name, word) in WORDS.iter() {
        if name.eq_ignore_ascii_case(part) {
            return Some(*word);
        }
    }
    match Protocol::named(part) {
        Some(protocol) => Some(Word::Test(Condition::Protocol(protocol))),
        None => None,
    }
}

/// The word that this is, if a value follows it.
pub(crate) fn key_of(part: &str) -> Option<Key> {
    for (name, key) in KEYS.iter() {
        if name.eq_ignore_ascii_case(part) {
            return Some(*key);
        }
    }
    None
}

/// The comparison that this is.
pub(crate) fn comparison_of(part: &str) -> Option<Comparison> {
    for (name, comparison) in COMPARISONS.iter() {
        if *name == part {
            return Some(*comparison);
        }
    }
    None
}

/// The condition that compares with this value.
pub(crate) fn condition_of(
    key: Key,
    comparison: Comparison,
    value: &str,
) -> Result<Condition, WordError> {
    match key {
        Key::Host | Key::Net | Key::Src | Key::Dst if comparison != Comparison::Equal => {
            Err(WordError::Comparison)
        }
        Key::Host => match value.parse::<IpAddr>() {
            Ok(address) => Ok(Condition::Host(address)),
            Err(_) => Err(WordError::Address),
        },
        Key::Net => network(Side::Either, key, value),
        Key::Src => address_or_network(Side::Source, key, value),
        Key::Dst => address_or_network(Side::Destination, key, value),
        Key::Port => match numbers(key, comparison, value, u16::MAX.into())? {
            (first, last) if first == last => Ok(Condition::Port(first as u16)),
            (first, last) => Ok(Condition::Ports(first as u16, last as u16)),
        },
        Key::Len => {
            let (first, last) = numbers(key, comparison, value, u32::MAX.into())?;
            Ok(Condition::WireLen(first as u32, last as u32))
        }
        Key::Vlan => {
            let (first, last) = numbers(key, comparison, value, 4095)?;
            Ok(Condition::VlanId(first as u16, last as u16))
        }
        Key::Frame => {
            let (first, last) = numbers(key, comparison, value, u64::MAX)?;
            Ok(Condition::Number(first, last))
        }
    }
}

/// What is wrong where no value of this word follows it.
pub(crate) fn no_value_of(key: Key) -> WordError {
    match key {
        Key::Host => WordError::Address,
        Key::Net => WordError::Network,
        Key::Src | Key::Dst => WordError::AddressOrNetwork,
        Key::Port => WordError::Port,
        Key::Len => WordError::WireLen,
        Key::Vlan => WordError::VlanId,
        Key::Frame => WordError::Number,
    }
}

// The numbers that a comparison with a value leaves, up to the greatest one.
fn numbers(
    key: Key,
    comparison: Comparison,
    value: &str,
    most: u64,
) -> Result<(u64, u64), WordError>
    ensures { IfOk result (λ r. (r.0 ≤ most) × (r.1 ≤ most)) }
{
    if let Some((first, last)) = value.split_once("..") {
        return match (comparison, number(first, most), number(last, most)) {
            (Comparison::Equal, Some(first), Some(last)) if first <= last => Ok((first, last)),
            (Comparison::Equal, Some(_), Some(_)) => Err(WordError::Backwards),
            _ => Err(no_value_of(key)),
        };
    }
    match (comparison, number(value, most)) {
        (Comparison::Equal, Some(number)) => Ok((number, number)),
        (Comparison::AtLeast, Some(number)) => Ok((number, most)),
        (Comparison::AtMost, Some(number)) => Ok((0, number)),
        (_, None) => Err(no_value_of(key)),
    }
}

fn number(text: &str, most: u64) -> Option<u64>
    ensures { IfSome result (λ n. n ≤ most) }
{
    match text.parse::<u64>() {
        Ok(number) if number <= most => Some(number),
        _ => None,
    }
}

fn address_or_network(side: Side, key: Key, value: &str) -> Result<Condition, WordError> {
    match value.parse::<IpAddr>() {
        Ok(IpAddr::V4(address)) => {
            let number = address.to_bits();
            Ok(Condition::Ipv4(side, number, number))
        }
        Ok(IpAddr::V6(address)) => {
            let number = address.to_bits();
            Ok(Condition::Ipv6(side, number, number))
        }
        Err(_) => network(side, key, value),
    }
}

fn network(side: Side, key: Key, value: &str) -> Result<Condition, WordError> {
    let Some((address, prefix)) = value.split_once('/') else {
        return Err(no_value_of(key));
    };
    let network = match (address.parse::<IpAddr>(), prefix.parse::<u32>()) {
        (Ok(IpAddr::V4(address)), Ok(prefix)) if prefix <= 32 => {
            Condition::ipv4_network(side, address.to_bits(), prefix)
        }
        (Ok(IpAddr::V6(address)), Ok(prefix)) if prefix <= 128 => {
            Condition::ipv6_network(side, address.to_bits(), prefix)
        }
        _ => return Err(no_value_of(key)),
    };
    match network {
        Some(condition) => Ok(condition),
        None => Err(WordError::BitsAfterPrefix),
    }
}
