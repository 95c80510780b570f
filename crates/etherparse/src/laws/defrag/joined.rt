//! Laws of the datagrams that a pool returns where overlaps are refused.
ghost use Rattle.std.specs.Prelude.{◌≡◌, ℕ, List, Option, Result};
ghost use Rattle.ep_packet.specs.Class.{Class};
ghost use Rattle.ep_packet.specs.Class.Class.{Refused};
ghost use Rattle.etherparse.specs.declared.defrag.ip_defrag_error.IpDefragError.{IpDefragError};
ghost use Rattle.etherparse.specs.ReassemblyTable.{Pool};
ghost use Rattle.etherparse.specs.JoinedCalls.{AreAccepted, JoinAnswers, JoinsFrame};
ghost use Rattle.etherparse.specs.PoolCalls.{Lists, CallsAnswered, ShowsLists, CallResult, lists_after, lists_with};
ghost use Rattle.etherparse.specs.PoolCalls.{lists_with_frame, no_lists, as_call_result};
ghost use Rattle.etherparse.specs.Processed.{Processed};
ghost use Rattle.etherparse.specs.declared.defrag.ip_defrag_payload_vec.IpDefragPayloadVec.{IpDefragPayloadVec};
ghost use Rattle.etherparse.specs.declared.defrag.ip_frag_id.IpFragId.{IpFragId};
ghost use Rattle.etherparse.specs.declared.defrag.pool_calls.PoolCall.{PoolCall};

use super::reassemblies::packets_are_answered;

/// The lists of a new pool have accepted fragments alone, and so have they after each call.
pub fn lists_are_accepted()
    ensures none { AreAccepted no_lists }
    ensures frame { (lists : Lists) (class : Class) (time channel : ℕ) → AreAccepted lists
        → AreAccepted (lists_with_frame lists class time channel) }
    ensures call { (lists : Lists) (call : PoolCall) → AreAccepted lists
        → AreAccepted (lists_with lists call) }
    ensures calls { (lists : Lists) (calls : List PoolCall) → AreAccepted lists
        → AreAccepted (lists_after lists calls) }
{}

/// Over IPv6 a datagram that a pool returns is joined, by their offsets, from accepted fragments of
/// its name, no two of which cover the same offset (RFC 5722; RFC 8200, section 4.5).
pub fn datagrams_are_joined()
    // What is answered to one packet by its list, by the clauses of
    // `IpDefragPool::process_sliced_packet`.
    ensures packet { (old new : Pool (IpFragId ℕ) ℕ) (class : Class) (time channel : ℕ)
        (result : Result (Option IpDefragPayloadVec) IpDefragError)
        → Processed old class time channel result new → (class ≡ Refused → ⊥) → (lists : Lists)
        → ShowsLists old lists → AreAccepted lists
        → JoinsFrame lists class channel (as_call_result result) }
    // What is answered to calls in turn, by the clause of `run_calls`.
    ensures calls { (pool : Pool (IpFragId ℕ) ℕ) (lists : Lists) (calls : List PoolCall)
        (pool_answers : List CallResult) → CallsAnswered (ShowsLists pool) lists calls pool_answers → AreAccepted lists
        → JoinAnswers lists calls pool_answers }
{
    packets_are_answered();
}
