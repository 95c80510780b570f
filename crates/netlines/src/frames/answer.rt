//! The texts of answers.
ghost use Rattle.std.specs.Prelude.{ℕ, ◌≡◌, ◌+◌, ◌*◌, ◌≤◌, ◌<◌, ◌++◌, codes, length, take, IfSome, MatchOption};
ghost use Rattle.etherparse.specs.Outcome.Outcome.{Refusal};
ghost use Rattle.etherparse.specs.PoolCalls.{HasMemory};
ghost use Rattle.etherparse.specs.PoolCalls.CallResult.{Refused};
ghost use Rattle.etherparse.specs.packet.declared.addresses.Addresses.{Addresses};
ghost use Rattle.netlines.specs.Answers.{message_answer, outcome_answer, verdict_word};

use crate::Verdict;
use crate::frames::output::{append, append_decimal, append_hex};
use etherparse::defrag::IpDefragError;

/// Writes the answer with a message to the start of `out`, and returns its length in bytes.
#[inline(always)]
pub fn write_message(number: u8, verdict: Verdict, message: &[u8], out: &mut [u8]) -> usize
    requires { 2 * length message.now + 20 ≤ length out.old }
    ensures end { result < length out.new }
    ensures bytes { take result out.new ≡ message_answer number verdict message.now }
{
    let end = append(out, 0, b"message ");
    let end = append_decimal(out, end, number);
    let end = append_verdict(out, end, verdict);
    if message.is_empty() {
        append(out, end, b"-")
    } else {
        append_hex(out, end, message)
    }
}

// Writes the word of a verdict, between spaces, after the first `used` bytes, and returns how many
// are used then. Each word is copied where it is chosen, so that its length is known.
#[inline(always)]
fn append_verdict(out: &mut [u8], used: usize, verdict: Verdict) -> usize
    requires { used + 6 ≤ length out.old }
    ensures end { result ≤ used + 6 }
    ensures text { take result out.new
        ≡ take used out.old ++ (codes " " ++ verdict_word verdict ++ codes " ") }
{
    match verdict {
        Verdict::Good => append(out, used, b" good "),
        Verdict::Bad => append(out, used, b" bad "),
        Verdict::None => append(out, used, b" none "),
    }
}

/// The answer to a fragment that is refused; none where it is out of memory.
pub fn refusal_text(error: &IpDefragError) -> Option<&'static [u8]>
    ensures text { MatchOption result (HasMemory (Refused error.now) → ⊥)
        (λ text. HasMemory (Refused error.now) × ((addresses : Addresses) (number : ℕ)
        → text.now ≡ outcome_answer addresses number (Refusal error.now))) }
    ensures short { IfSome result (λ text. length text.now ≤ 17) }
{
    match error {
        IpDefragError::SegmentTooBig { .. } => Some(b"refused long"),
        IpDefragError::UnalignedFragmentPayloadLen { .. } => Some(b"refused unaligned"),
        IpDefragError::ConflictingEnd { .. } => Some(b"refused end"),
        IpDefragError::AllocationFailure { .. } => None,
        IpDefragError::OverlappingFragment { .. } => Some(b"refused overlap"),
    }
}
