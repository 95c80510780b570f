//! Tables in text: each row has a number and how the result for it is shown. The calls have no
//! contracts: tests alone make them, and are run.

use super::kinds::Kind;
use super::{auth_headers, headers, ipv4_extensions, ipv6_extensions, limited_reads, readers};
use crate::checks::shows;
use std::process::Abort;
use std::test::*;

/// What is called with a number.
#[derive(Clone, Copy)]
pub enum Call {
    Raw,
    RawView,
    GreatestRaw,
    RawNumber,
    RawLens,
    RawChanged,
    Fragment,
    FragmentView,
    Fragmenting,
    Auth,
    AuthView,
    GreatestAuth,
    ZeroAuth,
    AuthLens,
    AuthChanged,
    Ipv4,
    Ipv6,
    Ipv6UpToTheFault,
    NoIpv6,
    ReadInChunks(Kind),
    ReadFailing(Kind, usize),
    ReadOfPrefix(Kind, usize),
    ReadOfEachLen(Kind),
    ReadWithin(Kind),
    LimitedFailing(Kind),
    LimitedOfPrefix(Kind),
}

fn check_call(rt: impl Abort + AllocGlobal + Copy, call: Call, at: usize, wanted: &str) {
    match call {
        Call::Raw => shows(rt, at, &headers::raw_prefix(at), wanted),
        Call::RawView => shows(rt, at, &headers::raw_view(at), wanted),
        Call::GreatestRaw => shows(rt, at, &headers::greatest_raw(at), wanted),
        Call::RawNumber => shows(rt, at, &headers::raw_number(at), wanted),
        Call::RawLens => shows(rt, at, &headers::raw_lens(at), wanted),
        Call::RawChanged => shows(rt, at, &headers::raw_changed(at), wanted),
        Call::Fragment => shows(rt, at, &headers::fragment(at), wanted),
        Call::FragmentView => shows(rt, at, &headers::fragment_view(at), wanted),
        Call::Fragmenting => shows(rt, at, &headers::is_fragmenting(at), wanted),
        Call::Auth => shows(rt, at, &auth_headers::auth_prefix(at), wanted),
        Call::AuthView => shows(rt, at, &auth_headers::auth_view(at), wanted),
        Call::GreatestAuth => shows(rt, at, &auth_headers::greatest_auth(at), wanted),
        Call::ZeroAuth => shows(rt, at, &auth_headers::zero_auth(at), wanted),
        Call::AuthLens => shows(rt, at, &auth_headers::auth_lens(at), wanted),
        Call::AuthChanged => shows(rt, at, &auth_headers::auth_changed(at), wanted),
        Call::Ipv4 => shows(rt, at, &ipv4_extensions::auth_prefix(at), wanted),
        Call::Ipv6 => shows(rt, at, &ipv6_extensions::chain_prefix(at), wanted),
        Call::Ipv6UpToTheFault => {
            shows(rt, at, &ipv6_extensions::chain_up_to_the_fault(at), wanted)
        }
        Call::NoIpv6 => shows(rt, at, &ipv6_extensions::ends_at_once(at), wanted),
        Call::ReadInChunks(kind) => shows(rt, at, &readers::in_chunks(kind, at), wanted),
        Call::ReadFailing(kind, chunk) => {
            shows(rt, at, &readers::failing(kind, chunk, at), wanted)
        }
        Call::ReadOfPrefix(kind, chunk) => {
            shows(rt, at, &readers::of_prefix(kind, chunk, at), wanted)
        }
        Call::ReadOfEachLen(kind) => shows(rt, at, &readers::of_each_len(kind, at), wanted),
        Call::ReadWithin(kind) => shows(rt, at, &limited_reads::within(kind, at), wanted),
        Call::LimitedFailing(kind) => shows(rt, at, &limited_reads::failing(kind, at), wanted),
        Call::LimitedOfPrefix(kind) => shows(rt, at, &limited_reads::of_prefix(kind, at), wanted),
    }
}

fn number(rt: impl Abort + Copy, text: &str) -> usize {
    match text.parse::<usize>() {
        Ok(number) => number,
        Err(_) => panic!(rt; "no number: {text}"),
    }
}

/// The numbers of a row: one, as '8', or those from one up to another, as '0..8'.
pub fn range(rt: impl Abort + Copy, row: &str) -> (usize, usize) {
    let (first, after) = match row.split_once("..") {
        Some((first, after)) => (number(rt, first), number(rt, after)),
        None => (number(rt, row), number(rt, row).saturating_add(1)),
    };
    if first >= after {
        panic!(rt; "no numbers: {row}");
    }
    (first, after)
}

/// Calls with each number of each row. A row is as '0..8: ANSWER'.
pub fn rows(rt: impl Abort + AllocGlobal + Copy, call: Call, table: &str) {
    for line in table.lines() {
        let Some((row, wanted)) = line.trim().split_once(": ") else {
            panic!(rt; "no row: {line}");
        };
        let (first, after) = range(rt, row);
        for number in first..after {
            check_call(rt, call, number, wanted);
        }
    }
}
