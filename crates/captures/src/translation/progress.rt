//! What a run takes of its input, chunk by chunk.
ghost use Rattle.std.specs.Prelude.{◌≡◌, ◌≤◌, ◌<◌, ◌+◌, ◌*◌, ◌++◌, ℕ, List, length, take, None, Some};
ghost use Rattle.captures.specs.Dropped.{IsDropped, Leaves, dropped_len, last_of};

use crate::CaptureError;
use crate::limits::INPUT_CAPACITY;
use crate::pcapng::long_block::{Following, LongBlock, long_block};
use crate::state::State;
use crate::text::ledger::Ledger;
use crate::translation::units::take_units;

/// What is known after all whole units of what was read.
#[derive(Drop)]
pub(crate) struct Progress<'a> {
    /// What the capture is known to be.
    pub after: State,
    /// A long block that is started, of which what was read so far is dropped.
    pub started: Option<LongBlock>,
    /// What is to be held of the bytes.
    pub rest: &'a [u8],
    /// How many bytes are passed: those of whole units.
    pub passed: u64,
    /// How many bytes the lines of the packets have.
    pub used: usize,
    /// How far the lines have come.
    pub ledger: Ledger,
    /// Why no unit can follow.
    pub refusal: Option<CaptureError>,
}

/// Takes all whole units of these bytes, which follow what was dropped of a started block, and puts
/// the lines of their packets at the start of `out`.
pub(crate) fn take_chunk<'a>(
    state: State,
    ledger: Ledger,
    started: Option<LongBlock>,
    bytes: &'a [u8],
    out: &mut [u8],
) -> Progress<'a>
    requires size { length bytes.now ≤ INPUT_CAPACITY }
    requires out { 5 * length bytes.now ≤ length out.old }
    ensures fits { result.used ≤ length out.new }
    ensures takes { (dropped : List ℕ) → IsDropped state started dropped
        → Leaves ledger state (dropped ++ bytes.now) result.after result.started result.rest.now
        (take result.used out.new) result.refusal result.ledger }
    ensures extra { result.ledger.extra ≡ ledger.extra }
    ensures passed { (dropped : List ℕ) → IsDropped state started dropped
        → result.passed + dropped_len result.started + length result.rest.now
        ≡ length dropped + length bytes.now }
    ensures parts { (prefix : List ℕ) × (bytes.now ≡ prefix ++ result.rest.now) }
    ensures room { result.refusal ≡ None → length result.rest.now < INPUT_CAPACITY }
{
    match started {
        Some(block) => take_after(state, ledger, block, bytes, out),
        None => take_whole(state, ledger, bytes, out),
    }
}

// Takes units alone. Where a long block follows them, all that was read of it is dropped.
fn take_whole<'a>(state: State, ledger: Ledger, bytes: &'a [u8], out: &mut [u8]) -> Progress<'a>
    requires size { length bytes.now ≤ INPUT_CAPACITY }
    requires out { 5 * length bytes.now ≤ length out.old }
    ensures fits { result.used ≤ length out.new }
    ensures takes { Leaves ledger state bytes.now result.after result.started result.rest.now
        (take result.used out.new) result.refusal result.ledger }
    ensures extra { result.ledger.extra ≡ ledger.extra }
    ensures passed { result.passed + dropped_len result.started + length result.rest.now
        ≡ length bytes.now }
    ensures parts { (prefix : List ℕ) × (bytes.now ≡ prefix ++ result.rest.now) }
    ensures room { result.refusal ≡ None → length result.rest.now < INPUT_CAPACITY }
{
    let taken = take_units(state, ledger, bytes, out);
    let passed = (bytes.len() - taken.rest.len()) as u64;
    if taken.refusal.is_some() {
        return Progress {
            after: taken.after,
            started: None,
            rest: taken.rest,
            passed,
            used: taken.used,
            ledger: taken.ledger,
            refusal: taken.refusal,
        };
    }
    match long_block(taken.after, taken.rest) {
        Some(block) => Progress {
            after: taken.after,
            started: Some(block),
            rest: &[],
            passed,
            used: taken.used,
            ledger: taken.ledger,
            refusal: None,
        },
        None => Progress {
            after: taken.after,
            started: None,
            rest: taken.rest,
            passed,
            used: taken.used,
            ledger: taken.ledger,
            refusal: None,
        },
    }
}

// Takes the units after a long block, once its second length is there.
fn take_after<'a>(
    state: State,
    ledger: Ledger,
    block: LongBlock,
    bytes: &'a [u8],
    out: &mut [u8],
) -> Progress<'a>
    requires size { length bytes.now ≤ INPUT_CAPACITY }
    requires out { 5 * length bytes.now ≤ length out.old }
    ensures fits { result.used ≤ length out.new }
    ensures takes { (dropped : List ℕ) → IsDropped state (Some block) dropped
        → Leaves ledger state (dropped ++ bytes.now) result.after result.started result.rest.now
        (take result.used out.new) result.refusal result.ledger }
    ensures extra { result.ledger.extra ≡ ledger.extra }
    ensures passed { (dropped : List ℕ) → IsDropped state (Some block) dropped
        → result.passed + dropped_len result.started + length result.rest.now
        ≡ length dropped + length bytes.now }
    ensures parts { (prefix : List ℕ) × (bytes.now ≡ prefix ++ result.rest.now) }
    ensures room { result.refusal ≡ None → length result.rest.now < INPUT_CAPACITY }
{
    match block.following(bytes) {
        Following::Held(started, left) => Progress {
            after: state,
            started: Some(started),
            rest: last(bytes, left),
            passed: 0,
            used: 0,
            ledger,
            refusal: None,
        },
        Following::Refused(started, left) => Progress {
            after: state,
            started: Some(started),
            rest: last(bytes, left),
            passed: 0,
            used: 0,
            ledger,
            refusal: Some(CaptureError::BadBlock),
        },
        Following::Passed(left) => {
            let taken = take_whole(state, ledger, last(bytes, left), out);
            Progress {
                after: taken.after,
                started: taken.started,
                rest: taken.rest,
                passed: u64::from(block.len) + taken.passed,
                used: taken.used,
                ledger: taken.ledger,
                refusal: taken.refusal,
            }
        }
    }
}

/// The last `left` of some bytes.
pub(crate) fn last(bytes: &[u8], left: usize) -> &[u8]
    requires { left ≤ length bytes.now }
    ensures last { result.now ≡ last_of left bytes.now }
    ensures parts { (prefix : List ℕ) × (bytes.now ≡ prefix ++ result.now) }
    ensures size { length result.now ≡ left }
{
    let (_, last) = bytes.split_at(bytes.len() - left);
    last
}
