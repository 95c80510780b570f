//! Members of objects.

use crate::show::addresses::ipv4_text;
use crate::show::digit;
use serde::Serializer;
use std::fmt::{Debug, Display};
use std::net::Ipv6Addr;
use std::{fmt, str};

/// Begins an object that is a member. It has no contract: tests compare the texts.
pub fn begin<S: Serializer>(out: &mut S, name: &str) -> Result<(), S::Error> {
    out.key(name)?;
    out.begin_map(None)
}

/// A member that is a number. It has no contract: tests compare the texts.
pub fn number<S: Serializer>(out: &mut S, name: &str, n: u64) -> Result<(), S::Error> {
    out.key(name)?;
    out.u64(n)
}

/// Members that are numbers, one after the other. It has no contract: tests compare the texts.
pub fn numbers<S: Serializer>(out: &mut S, members: &[(&str, u64)]) -> Result<(), S::Error> {
    for &(name, n) in members {
        number(out, name, n)?;
    }
    Ok(())
}

/// A member that is true or false. It has no contract: tests compare the texts.
pub fn flag<S: Serializer>(out: &mut S, name: &str, is_set: bool) -> Result<(), S::Error> {
    out.key(name)?;
    out.bool(is_set)
}

/// Members that are true or false, one after the other. It has no contract: tests compare the texts.
pub fn flags<S: Serializer>(out: &mut S, members: &[(&str, bool)]) -> Result<(), S::Error> {
    for &(name, is_set) in members {
        flag(out, name, is_set)?;
    }
    Ok(())
}

/// A member that is a text. It has no contract: tests compare the texts.
pub fn text<S: Serializer>(out: &mut S, name: &str, text: &str) -> Result<(), S::Error> {
    out.key(name)?;
    out.str(text)
}

/// A member that is the text of a value. It has no contract: tests compare the texts.
pub fn printed<S: Serializer, T: Display>(
    out: &mut S,
    name: &str,
    value: &T,
) -> Result<(), S::Error> {
    out.key(name)?;
    out.collect_str(value)
}

/// A member that is a variant without fields, by its name. It has no contract: tests compare the
/// texts.
pub fn named<S: Serializer, T: Copy + Debug>(
    out: &mut S,
    name: &str,
    value: T,
) -> Result<(), S::Error> {
    printed(out, name, &Name(value))
}

// A variant without fields by its name.
#[derive(Clone, Copy)]
struct Name<T>(T);

impl<T: Debug> Display for Name<T> {
    fn fmt<W: fmt::Write>(&self, f: &mut fmt::Formatter<W>) -> fmt::Result {
        let variant = &self.0;
        write!(f, "{variant:?}")
    }
}

/// Bytes by their hex digits, two for each.
#[derive(Clone, Copy)]
pub(crate) struct Hex<'a>(pub &'a [u8]);

impl Display for Hex<'_> {
    fn fmt<W: fmt::Write>(&self, f: &mut fmt::Formatter<W>) -> fmt::Result {
        for byte in self.0 {
            hex_digits(f, *byte)?;
        }
        Ok(())
    }
}

fn hex_digits<W: fmt::Write>(f: &mut fmt::Formatter<W>, byte: u8) -> fmt::Result {
    f.write_str(digit(byte / 16))?;
    f.write_str(digit(byte % 16))
}

/// A member that is an IPv4 address, in its usual text. It has no contract: tests compare the texts.
pub fn ipv4_address<S: Serializer>(
    out: &mut S,
    name: &str,
    address: [u8; 4],
) -> Result<(), S::Error> {
    out.key(name)?;
    ipv4_string(out, address)
}

/// An IPv4 address as a text. It has no contract: tests compare the texts.
pub(crate) fn ipv4_string<S: Serializer>(out: &mut S, address: [u8; 4]) -> Result<(), S::Error> {
    out.str(str::from_utf8(ipv4_text(address).as_slice()).unwrap_or(""))
}

/// A member that is an IPv6 address (RFC 5952). It has no contract: tests compare the texts.
pub fn ipv6_address<S: Serializer>(
    out: &mut S,
    name: &str,
    address: [u8; 16],
) -> Result<(), S::Error> {
    printed(out, name, &Ipv6Addr::from(address))
}

/// A member that is a hardware address, by its bytes in hex with colons between them. It has no
/// contract: tests compare the texts.
pub fn hardware<S: Serializer>(out: &mut S, name: &str, address: &[u8]) -> Result<(), S::Error> {
    printed(out, name, &HardwareAddress(address))
}

#[derive(Clone, Copy)]
struct HardwareAddress<'a>(&'a [u8]);

impl Display for HardwareAddress<'_> {
    fn fmt<W: fmt::Write>(&self, f: &mut fmt::Formatter<W>) -> fmt::Result {
        let mut between = "";
        for byte in self.0 {
            f.write_str(between)?;
            hex_digits(f, *byte)?;
            between = ":";
        }
        Ok(())
    }
}
