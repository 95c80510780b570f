//! Scripts for buffers: fragments as they come, the answer to each, and what the buffer holds at
//! last. The functions have no contracts: tests alone call them, and are run.

use crate::checks::{equal_in, holds_in};
use crate::defrag::fragments::{empty, offset, refusing};
use crate::defrag::refusals::{Refusal, error_of};
use ep_base::IpNumber;
use etherparse::defrag::{IpDefragBuf, IpDefragError, IpFragRange, OverlapRule};
use etherparse::laws::defrag::every_buffer_shows_its_fragments;
use std::alloc::Global;
use std::process::Abort;

/// The answer to a fragment.
#[derive(Clone, Copy)]
pub enum Answer {
    /// It is taken, and its datagram isn't complete.
    Open,
    /// It is taken, and its datagram is complete.
    Whole,
    Refused(Refusal),
}

/// A fragment by its offset, whether more follow it, and its bytes; the answer to it; and how many
/// bytes the buffer has then.
pub struct Step(pub u16, pub bool, pub &'static [u8], pub Answer, pub usize);

/// What a buffer holds at last.
pub struct Left {
    pub end: Option<u16>,
    pub sections: &'static [IpFragRange],
    /// The bytes, or the first of them.
    pub data: &'static [u8],
}

/// Fragments for a new buffer, and what it holds at last.
pub struct Script {
    pub name: &'static str,
    pub rule: OverlapRule,
    pub steps: &'static [Step],
    pub left: Left,
}

// What the call with a fragment must return; no contract, as above.
fn wanted(rt: impl Abort + Copy, answer: Answer) -> Result<bool, IpDefragError> {
    match answer {
        Answer::Open => Ok(false),
        Answer::Whole => Ok(true),
        Answer::Refused(refusal) => Err(error_of(rt, refusal)),
    }
}

// Whether the datagram is complete with a fragment; no contract, as above.
fn described(
    rt: impl Abort + Copy,
    buf: &mut IpDefragBuf,
    units: u16,
    more_fragments: bool,
    bytes: &[u8],
) -> Result<bool, IpDefragError> {
    match buf.add(offset(rt, units), more_fragments, bytes) {
        Ok(()) => Ok(buf.is_complete()),
        Err(error) => Err(error),
    }
}

/// Adds a fragment, and fails where the answer is another one; no contract, as above.
pub fn goes(rt: impl Abort + Copy, row: &str, buf: &mut IpDefragBuf, step: &Step) {
    let Step(units, more_fragments, bytes, answer, len) = *step;
    let described = described(rt, buf, units, more_fragments, bytes);
    equal_in(rt, row, &described, &wanted(rt, answer));
    equal_in(rt, row, &buf.data().len(), &len);
}

/// Whether a buffer holds this; no contract, as above.
pub fn is_left_as(buf: &IpDefragBuf, left: &Left) -> bool {
    buf.end() == left.end
        && buf.sections().as_slice() == left.sections
        && buf.data().starts_with(left.data)
}

/// Adds a script's fragments to a buffer that is empty; no contract, as above.
pub fn goes_through(rt: impl Abort + Copy, buf: &mut IpDefragBuf, script: &Script) {
    let row = script.name;
    holds_in(
        rt,
        row,
        buf.data().is_empty() && buf.sections().is_empty() && buf.end().is_none(),
    );
    for step in script.steps.iter() {
        goes(rt, row, buf, step);
    }
    holds_in(rt, row, is_left_as(buf, &script.left));
    every_buffer_shows_its_fragments(buf);
}

// A new buffer of this rule; no contract, as above.
fn made(alloc: Global, rule: OverlapRule) -> IpDefragBuf {
    match rule {
        OverlapRule::Overwrites => empty(alloc),
        OverlapRule::Refuses => refusing(alloc),
    }
}

// A buffer without a section is as it was made; no contract, as above.
fn runs(rt: impl Abort + Copy, alloc: Global, script: &Script) {
    let mut buf = made(alloc, script.rule);
    goes_through(rt, &mut buf, script);
    holds_in(
        rt,
        script.name,
        !buf.sections().is_empty() || buf == made(alloc, script.rule),
    );
    holds_in(
        rt,
        script.name,
        buf.ip_number() == IpNumber::UDP && buf.overlap_rule() == script.rule,
    );
}

/// Runs each script with a buffer of its own; no contract, as above.
pub fn runs_all(rt: impl Abort + Copy, alloc: Global, scripts: &[Script]) {
    for script in scripts.iter() {
        runs(rt, alloc, script);
    }
}
