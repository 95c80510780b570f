//! Faults of headers as objects: the variant's name, and its fields.

use crate::json::fields::{begin, named, number, text};
use ep_base::err::LenError;
use ep_ext::err::{ip_auth, ipv6_exts};
use ep_ip::err::{ipv4, ipv6};
use ep_ipslice::err::ip;
use ep_link::err::linux_sll;
use ep_tag::err::macsec;
use ep_tcpudp::err::tcp;
use serde::Serializer;

/// Too few bytes for a layer. It has no contract: tests compare the texts.
pub fn len<S: Serializer>(out: &mut S, error: &LenError) -> Result<(), S::Error> {
    begin(out, "Len")?;
    number(out, "required_len", error.required_len as u64)?;
    number(out, "len", error.len as u64)?;
    named(out, "len_source", error.len_source)?;
    named(out, "layer", error.layer)?;
    number(out, "layer_start_offset", error.layer_start_offset as u64)?;
    out.end_map()
}

// A variant of an error that holds another error with one number.
fn nested<S: Serializer>(
    out: &mut S,
    outer: &str,
    variant: &str,
    field: &str,
    n: u8,
) -> Result<(), S::Error> {
    begin(out, outer)?;
    begin(out, variant)?;
    number(out, field, n.into())?;
    out.end_map()?;
    out.end_map()
}

/// A header of a Linux cooked capture. It has no contract: tests compare the texts.
pub fn linux_sll<S: Serializer>(
    out: &mut S,
    error: &linux_sll::HeaderError,
) -> Result<(), S::Error> {
    begin(out, "LinuxSll")?;
    match error {
        linux_sll::HeaderError::UnsupportedPacketTypeField { packet_type } => {
            begin(out, "UnsupportedPacketTypeField")?;
            number(out, "packet_type", u64::from(*packet_type))?;
        }
        linux_sll::HeaderError::UnsupportedArpHardwareId { arp_hardware_type } => {
            begin(out, "UnsupportedArpHardwareId")?;
            number(out, "arp_hardware_type", u64::from(arp_hardware_type.0))?;
        }
    }
    out.end_map()?;
    out.end_map()
}

/// A MACsec header. It has no contract: tests compare the texts.
pub fn macsec<S: Serializer>(out: &mut S, error: &macsec::HeaderError) -> Result<(), S::Error> {
    match error {
        macsec::HeaderError::UnexpectedVersion => text(out, "Macsec", "UnexpectedVersion"),
        macsec::HeaderError::InvalidUnmodifiedShortLen => {
            text(out, "Macsec", "InvalidUnmodifiedShortLen")
        }
    }
}

/// An IP header of either version. It has no contract: tests compare the texts.
pub fn ip<S: Serializer>(out: &mut S, error: &ip::HeaderError) -> Result<(), S::Error> {
    match error {
        ip::HeaderError::UnsupportedIpVersion { version_number } => {
            nested(
                out,
                "Ip",
                "UnsupportedIpVersion",
                "version_number",
                *version_number,
            )
        }
        ip::HeaderError::Ipv4HeaderLengthSmallerThanHeader { ihl } => {
            nested(out, "Ip", "Ipv4HeaderLengthSmallerThanHeader", "ihl", *ihl)
        }
    }
}

/// An IPv4 header. It has no contract: tests compare the texts.
pub fn ipv4<S: Serializer>(out: &mut S, error: &ipv4::HeaderError) -> Result<(), S::Error> {
    match error {
        ipv4::HeaderError::UnexpectedVersion { version_number } => {
            nested(
                out,
                "Ipv4",
                "UnexpectedVersion",
                "version_number",
                *version_number,
            )
        }
        ipv4::HeaderError::HeaderLengthSmallerThanHeader { ihl } => {
            nested(out, "Ipv4", "HeaderLengthSmallerThanHeader", "ihl", *ihl)
        }
    }
}

/// Extension headers of IPv6. It has no contract: tests compare the texts.
pub fn ipv6_exts<S: Serializer>(
    out: &mut S,
    error: &ipv6_exts::HeaderError,
) -> Result<(), S::Error> {
    match error {
        ipv6_exts::HeaderError::HopByHopNotAtStart => text(out, "Ipv6Exts", "HopByHopNotAtStart"),
        ipv6_exts::HeaderError::IpAuth(ip_auth::HeaderError::ZeroPayloadLen) => {
            begin(out, "Ipv6Exts")?;
            text(out, "IpAuth", "ZeroPayloadLen")?;
            out.end_map()
        }
    }
}

/// An IPv6 header. It has no contract: tests compare the texts.
pub fn ipv6<S: Serializer>(out: &mut S, error: &ipv6::HeaderError) -> Result<(), S::Error> {
    let ipv6::HeaderError::UnexpectedVersion { version_number } = error;
    nested(
        out,
        "Ipv6",
        "UnexpectedVersion",
        "version_number",
        *version_number,
    )
}

/// An authentication header after an IPv4 header. It has no contract: tests compare the texts.
pub fn ipv4_exts<S: Serializer>(out: &mut S, error: &ip_auth::HeaderError) -> Result<(), S::Error> {
    let ip_auth::HeaderError::ZeroPayloadLen = error;
    text(out, "Ipv4Exts", "ZeroPayloadLen")
}

/// A TCP header. It has no contract: tests compare the texts.
pub fn tcp<S: Serializer>(out: &mut S, error: &tcp::HeaderError) -> Result<(), S::Error> {
    let tcp::HeaderError::DataOffsetTooSmall { data_offset } = error;
    nested(
        out,
        "Tcp",
        "DataOffsetTooSmall",
        "data_offset",
        *data_offset,
    )
}
