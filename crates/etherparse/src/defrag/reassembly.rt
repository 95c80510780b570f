//! The reassembly of one datagram.

ghost use Rattle.std.specs.Prelude.{◌≡◌, ◌++◌, ◌∷◌, ◌+◌, ◌≤◌, ℕ, [], List, None, true, false, OnOk, IfErr, IfOk, IfSome};
ghost use Rattle.std.specs.Prelude.{IsOk, length, option_map, vec_len, vec_capacity};
ghost use Rattle.indexmap.specs.IndexMap.{IsUnique, get, index_map_len, insert_index, spare as names_room};
ghost use Rattle.etherparse.specs.Counts.{open_after, sections_after, spare_after};
ghost use Rattle.etherparse.specs.Fragments.{Fragment, IsRepeat, named_end, refusal_at, refusal_of};
ghost use Rattle.etherparse.specs.IpDefragBuf.{HasRoom, Shows, rule_of, with_room};
ghost use Rattle.etherparse.specs.IpDefragError.{is_overlap, is_out_of_memory};
ghost use Rattle.etherparse.specs.Outcome.{outcome};
ghost use Rattle.etherparse.specs.declared.defrag.overlap_rule.OverlapRule.{OverlapRule};
ghost use Rattle.etherparse.specs.declared.defrag.overlap_rule.OverlapRule.TheVariants.{Refuses};
ghost use Rattle.etherparse.specs.Room.{NoLessRoom};
ghost use Rattle.etherparse.specs.Memory.{FindsRoom, KeepsMemory, capacities, memory_of};
ghost use Rattle.etherparse.specs.SpareBuffers.{HasSlots, NoFewerSlots, SameBuffers, SameCounts};
ghost use Rattle.etherparse.specs.Starts.{EntriesAfter, Tracks, change_of, order_after, room_for};
ghost use Rattle.etherparse.specs.ReassemblyTable.{Becomes, IsErrorOf, IsLeft, IsReassemblyOf, ShowsReassembly};
ghost use Rattle.etherparse.specs.ReassemblyTable.{fragment_of};
ghost use Rattle.etherparse.specs.Refused.{error_in, refused_by};
ghost use Rattle.etherparse.specs.Repeats.{TakesRepeat};

use super::reassembly_buf::ReassemblyBuf;
use super::spare_buffers::SpareBuffers;
use super::start_order::StartOrder;
use crate::defrag::{IpDefragError, OverlapRule, checked_end};
use ep_packet::SlicedFragment;
use indexmap::IndexMap;
use indexmap::map::Entry;
use std::alloc::Global;
use std::hash::{BuildHasher, Hash};

/// The reassembly of one datagram, and when its last fragment came. Contracts name it: no call
/// returns one.
#[derive(Debug, Drop)]
pub struct Reassembly<T> {
    /// Its fragments. The number of its protocol is in its name.
    pub buf: ReassemblyBuf,
    /// That of the fragment accepted last.
    pub timestamp: T,
}

impl<T: Drop> Reassembly<T> {
    // Takes one more fragment.
    fn add(&mut self, received: &SlicedFragment<'_>, timestamp: T) -> Result<(), Refused>
        ensures accepted { let f = fragment_of received.now in (fs : List Fragment)
            → Shows self.old.buf fs →
            IfOk result (λ u. IsReassemblyOf (rule_of self.old.buf) (fs ++ f ∷ []) timestamp self.new) }
        ensures unrefused { let f = fragment_of received.now in (fs : List Fragment)
            → Shows self.old.buf fs →
            OnOk result (refusal_of (rule_of self.old.buf) fs f ≡ None) }
        ensures refused { let f = fragment_of received.now in (fs : List Fragment)
            → Shows self.old.buf fs →
            IfErr result (λ r. IsErrorOf f (outcome (rule_of self.old.buf) fs f) (error_in r)) }
        ensures repeat { let f = fragment_of received.now in (fs : List Fragment)
            → Shows self.old.buf fs → rule_of self.old.buf ≡ Refuses → IsRepeat fs f
            → refusal_at (named_end fs) f ≡ None
            → IsOk result × (self.new.buf ≡ self.old.buf) }
        ensures reported { IfErr result (λ r. r ≡ refused_by (error_in r)) }
        ensures stays { IfErr result (λ r. is_overlap (error_in r) ≡ false
            → self.new ≡ record self.old { buf = with_room self.old.buf self.new.buf.room }) }
        ensures succeeds { HasRoom self.old.buf (fragment_of received.now)
            → IfErr result (λ r. is_out_of_memory (error_in r) ≡ false) }
        ensures room { NoLessRoom self.old.buf.room self.new.buf.room }
    {
        match self
            .buf
            .add(received.offset, received.more_fragments, received.bytes)
        {
            Ok(()) => {
                self.timestamp = timestamp;
                Ok(())
            }
            Err(error) => Err(refused_by(error)),
        }
    }
}

// A refusal, by what becomes of its reassembly.
enum Refused {
    Stays(IpDefragError),
    Ends(IpDefragError),
}

fn refused_by(error: IpDefragError) -> Refused
    ensures { result ≡ refused_by error }
{
    match error {
        IpDefragError::OverlappingFragment {
            offset,
            payload_len,
        } => Refused::Ends(IpDefragError::OverlappingFragment {
            offset,
            payload_len,
        }),
        error => Refused::Stays(error),
    }
}

// Why a fragment that would start a reassembly isn't taken where there is no memory for it: a
// fragment that breaks a rule is refused for that, and only another one for lack of memory.
fn first_fragment_error(received: &SlicedFragment<'_>) -> IpDefragError
    ensures error { let f = fragment_of received.now in (rule : OverlapRule)
        → IsErrorOf f (outcome rule [] f) result }
    ensures stays { is_overlap result ≡ false }
{
    match checked_end(
        None,
        received.offset,
        received.more_fragments,
        received.bytes,
    ) {
        Ok(end) => IpDefragError::AllocationFailure {
            len: usize::from(end),
        },
        Err(error) => error,
    }
}

// Makes room for one more reassembly than these, slots for its buffers and a place in the order of
// starts, and returns whether it is there.
fn make_room(spare: &mut SpareBuffers, starts: &mut StartOrder, held: usize) -> bool
    ensures slots { result ≡ true → HasSlots spare.new (held + 1) }
    ensures place { result ≡ true → 1 ≤ starts.new.room }
    ensures succeeds { HasSlots spare.old (held + 1) → 1 ≤ starts.old.room → result ≡ true }
    ensures same { SameCounts spare.old spare.new }
    ensures buffers { SameBuffers spare.old spare.new }
    ensures no_fewer { NoFewerSlots spare.old spare.new }
    ensures order { starts.new.order ≡ starts.old.order }
{
    spare.make_slots(held) && starts.reserve()
}

// The bytes of a datagram that is complete. Its sections are spare now.
fn finish(spare: &mut SpareBuffers, buf: ReassemblyBuf) -> Vec<u8>
    requires { HasSlots spare.old 1 }
    ensures bytes { result.items ≡ buf.bytes }
    ensures short { length result.items ≤ 65535 }
    ensures same { vec_len spare.new.bytes ≡ vec_len spare.old.bytes }
    ensures sections { vec_len spare.new.sections ≡ vec_len spare.old.sections + 1 }
    ensures bytes_stay { spare.new.bytes ≡ spare.old.bytes }
    ensures sections_room { capacities spare.new.sections.items
        ≡ capacities spare.old.sections.items ++ buf.room.for_sections ∷ [] }
    ensures room { buf.room.for_bytes ≤ vec_capacity result }
    ensures slots { (count : ℕ) → HasSlots spare.old (count + 1) → HasSlots spare.new count }
{
    let (bytes, sections) = buf.into_bufs();
    spare.sections.push_reserved(sections);
    bytes
}

// Takes a fragment of the datagram with this name, whose fragments overlap by the rule that the
// first of them came with. The reassembly ends where the datagram is complete, or the fragment
// overlaps where that is refused. One that is complete at once isn't kept.
pub(crate) fn add_fragment<K: Eq + Hash + Drop, T: Drop, S: BuildHasher>(
    alloc: Global,
    reassemblies: &mut IndexMap<K, Reassembly<T>, S>,
    spare: &mut SpareBuffers,
    starts: &mut StartOrder,
    held_bytes: &mut usize,
    name: K,
    rule: OverlapRule,
    received: &SlicedFragment<'_>,
    timestamp: T,
) -> Result<Option<Vec<u8>>, IpDefragError>
    requires slots { HasSlots spare.old (index_map_len reassemblies.old) }
    requires tracks { Tracks starts.old.order held_bytes.old reassemblies.old.entries }
    ensures accepted { let f = fragment_of received.now in (kept : OverlapRule) (fs : List Fragment)
        → ShowsReassembly kept (get K.eq reassemblies.old name) fs → (fs ≡ [] → kept ≡ rule) →
        IfOk result (λ reported. Becomes kept (λ text. text) (outcome kept fs f) timestamp
        (get K.eq reassemblies.new name) (option_map (λ bytes. bytes.items) reported)) }
    ensures refused { let f = fragment_of received.now in (kept : OverlapRule) (fs : List Fragment)
        → ShowsReassembly kept (get K.eq reassemblies.old name) fs → (fs ≡ [] → kept ≡ rule) →
        IfErr result (IsErrorOf f (outcome kept fs f)) }
    ensures repeat { TakesRepeat (get K.eq reassemblies.old name) (get K.eq reassemblies.new name)
        (fragment_of received.now) result }
    ensures others { (q : K) → K.eq name q ≡ false
        → get K.eq reassemblies.new q ≡ get K.eq reassemblies.old q }
    ensures err { IfErr result (λ e.
        IsLeft (is_overlap e) (get K.eq reassemblies.old name) (get K.eq reassemblies.new name)) }
    ensures succeeds { FindsRoom (get K.eq reassemblies.old name) (index_map_len reassemblies.old)
        (memory_of spare.old (room_for (names_room reassemblies.old) starts.old.room)) (fragment_of received.now)
        → IfErr result (λ e. is_out_of_memory e ≡ false) }
    ensures memory { KeepsMemory result (get K.eq reassemblies.old name) (get K.eq reassemblies.new name)
        (memory_of spare.old (room_for (names_room reassemblies.old) starts.old.room))
        (memory_of spare.new (room_for (names_room reassemblies.new) starts.new.room)) (index_map_len reassemblies.new) }
    ensures short { IfOk result (λ reported. IfSome reported (λ bytes. length bytes.items ≤ 65535)) }
    ensures slots { HasSlots spare.new (index_map_len reassemblies.new) }
    ensures spare { vec_len spare.new.bytes
        ≡ spare_after result (get K.eq reassemblies.old name) (vec_len spare.old.bytes) }
    ensures sections { vec_len spare.new.sections
        ≡ sections_after result (get K.eq reassemblies.old name) (vec_len spare.old.sections) }
    ensures held { index_map_len reassemblies.new
        ≡ open_after result (get K.eq reassemblies.old name) (index_map_len reassemblies.old) }
    ensures order { starts.new.order ≡ order_after (insert_index K.eq reassemblies.old name)
        (change_of result (get K.eq reassemblies.old name)) starts.old.order }
    ensures entries { EntriesAfter (K.eq name) name
        (change_of result (get K.eq reassemblies.old name))
        reassemblies.old.entries reassemblies.new.entries }
    ensures tracks { Tracks starts.new.order held_bytes.new reassemblies.new.entries }
    ensures unique { IsUnique K.eq reassemblies.old }
{
    let held = reassemblies.len();
    match reassemblies.entry(name) {
        Ok(Entry::Occupied(mut entry)) => {
            let before = entry.get().buf.data_len();
            match entry.get_mut().add(received, timestamp) {
                Ok(()) if entry.get().buf.is_complete() => {
                    starts.swap_remove(entry.index());
                    *held_bytes -= before;
                    Ok(Some(finish(spare, entry.swap_remove().buf)))
                }
                Ok(()) => {
                    *held_bytes = *held_bytes - before + entry.get().buf.data_len();
                    Ok(None)
                }
                Err(Refused::Stays(error)) => Err(error),
                Err(Refused::Ends(error)) => {
                    starts.swap_remove(entry.index());
                    *held_bytes -= before;
                    entry.swap_remove();
                    Err(error)
                }
            }
        }
        Ok(Entry::Vacant(entry)) => {
            if !make_room(spare, starts, held) {
                entry.into_key();
                return Err(first_fragment_error(received));
            }
            let (bytes, sections, taken) = spare.take(alloc);
            let mut buf = ReassemblyBuf::starting(rule, alloc, bytes, sections);
            match buf.add(received.offset, received.more_fragments, received.bytes) {
                Ok(()) if buf.is_complete() => {
                    entry.into_key();
                    Ok(Some(finish(spare, buf)))
                }
                Ok(()) => {
                    starts.push_newest();
                    *held_bytes += buf.data_len();
                    entry.insert(Reassembly { buf, timestamp });
                    Ok(None)
                }
                Err(error) => {
                    entry.into_key();
                    spare.give_back(buf, taken);
                    Err(error)
                }
            }
        }
        Err(_) => Err(first_fragment_error(received)),
    }
}
