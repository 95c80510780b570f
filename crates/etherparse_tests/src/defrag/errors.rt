//! Why fragments are refused: the texts and their order.

use crate::checks::{equal_in, fail, holds_in};
use crate::defrag::refusals::Refusal::{Conflict, NoMemory, Overlap, TooBig, Unaligned};
use crate::defrag::refusals::{Refusal, error_of};
use std::alloc::Global;
use std::process::Abort;
use std::test::*;

#[rattlefmt::skip]
const TEXTS: &[(Refusal, &str)] = &[
    (
        Unaligned(123, 15),
        "Payload length 15 of IP fragment (offset 123) is not a multiple of 8. This is only allowed for the last fragment packet.",
    ),
    (
        TooBig(123, 15, 65535),
        "Overall length of IP fragment (offset 123, payload len: 15) bigger then the maximum allowed size of 65535.",
    ),
    (
        Conflict(48, 64),
        "Received a IP fragment (offset + len: 64) which conflicts a package that previously set the end to 48.",
    ),
    (NoMemory(24), "Failed to allocate 24 bytes of memory to reconstruct the fragmented IP packets."),
    (
        Overlap(123, 15),
        "IP fragment (offset 123, payload len: 15) overlaps an earlier one. The fragments of its message are dropped.",
    ),
];

// Fails where a refusal has another text. It has no contract, as tests alone call it.
fn reads_as(rt: impl Abort + Copy, alloc: Global, refusal: Refusal, text: &str) {
    let error = error_of(rt, refusal);
    match format!(in alloc; "{error}") {
        Ok(found) => equal_in(rt, text, &found.as_str(), &text),
        Err(_) => fail(rt, "no memory for a text"),
    }
}

#[test]
fn texts_of_refusals(rt: HostRuntime) {
    for (refusal, text) in TEXTS.iter() {
        reads_as(rt, rt.alloc(), *refusal, text);
    }
}

// A refusal, and one that is greater.
#[rattlefmt::skip]
const ORDERED: &[(&str, Refusal, Refusal)] = &[
    ("the length before the end", Unaligned(5, 9), TooBig(5, 8, 1)),
    ("the end before a conflict", TooBig(5, 8, 1), Conflict(4, 3)),
    ("a conflict before memory", Conflict(4, 3), NoMemory(2)),
    ("memory by its length", NoMemory(2), NoMemory(3)),
    ("memory before an overlap", NoMemory(2), Overlap(5, 1)),
];

// Whether one refusal is less than the other; no contract, as above.
fn are_ordered(rt: impl Abort + Copy, less: Refusal, greater: Refusal) -> bool {
    error_of(rt, less) < error_of(rt, greater)
}

#[test]
fn refusals_are_ordered_by_kind(rt: HostRuntime) {
    for (row, less, greater) in ORDERED.iter() {
        holds_in(rt, row, are_ordered(rt, *less, *greater));
    }
}
