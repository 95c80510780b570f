//! The texts of errors, one of each form.

use crate::checks::{equal, fail};
use ep_base::err::{Layer, LenError};
use ep_ip::err::{ipv4, ipv6};
use std::fmt::Display;
use std::process::Abort;
use std::test::*;

// Fails where this is not the text of an error.
fn reads<E: Display>(rt: impl Abort + AllocGlobal + Copy, error: &E, text: &str) {
    match format!(in rt.alloc(); "{error}") {
        Ok(found) => equal(rt, found.as_str(), text),
        Err(_) => fail(rt, "no memory for a text"),
    }
}

#[test]
fn texts_of_ipv4_errors(rt: HostRuntime) {
    let version = ipv4::HeaderError::UnexpectedVersion { version_number: 6 };
    let text = "IPv4 header: the version number is 6 and not 4";
    reads(rt, &version, text);
    reads(rt, &ipv4::HeaderSliceError::Content(version), text);
    let ihl = ipv4::HeaderError::HeaderLengthSmallerThanHeader { ihl: 3 };
    reads(
        rt,
        &ihl,
        "IPv4 header: the header length (ihl) is 3 and below 5",
    );
    let options = ipv4::BadOptionsLen { bad_len: 43 };
    let text = "IPv4 options of 43 byte(s): the length has to be a multiple of 4, at most 40";
    reads(rt, &options, text);
}

#[test]
fn texts_of_ipv6_errors(rt: HostRuntime) {
    let version = ipv6::HeaderError::UnexpectedVersion { version_number: 4 };
    let text = "IPv6 header error: unexpected version number 4";
    reads(rt, &version, text);
    reads(rt, &ipv6::HeaderSliceError::Content(version), text);
}

// Too few bytes for either version: the text is that of the `LenError`.
#[test]
fn texts_of_too_few_bytes(rt: HostRuntime) {
    let error = LenError::too_few_bytes(Layer::Ipv6Header, 40, 39);
    let text = "IPv6 header Error: Not enough data to decode 'IPv6 header'. 40 byte(s) would be \
        required, but only 39 byte(s) are available based on the slice length.";
    reads(rt, &ipv4::HeaderSliceError::Len(error), text);
    reads(rt, &ipv6::HeaderSliceError::Len(error), text);
}
