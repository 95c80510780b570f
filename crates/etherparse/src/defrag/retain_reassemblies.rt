//! Which reassemblies are kept.

ghost use Rattle.std.specs.Prelude.{◌≡◌, ◌+◌, ◌≤◌, filter, is_some, vec_len};
ghost use Rattle.std.specs.Map.{keys_of};
ghost use Rattle.std.specs.Fn.{FnReturnsAt};
ghost use Rattle.indexmap.specs.IndexMap.{get, index_map_len};
ghost use Rattle.etherparse.specs.SpareBuffers.{HasSlots};
ghost use Rattle.etherparse.specs.Starts.{Tracks, names_in};
ghost use Rattle.etherparse.specs.ReassemblyTable.{MayTest, Retained};
ghost use denote.Ref.{Bor};

use super::reassembly::Reassembly;
use super::spare_buffers::SpareBuffers;
use super::start_order::StartOrder;
use indexmap::IndexMap;
use std::hash::{BuildHasher, Hash};

// What the test returns for a timestamp.
fn answer<T, F: Fn(&T) -> bool>(keep: &F, timestamp: &T) -> bool
    requires { (p : Bor T) → p.now ≡ timestamp.now → F.pre keep.now p }
    ensures { FnReturnsAt F.Fn keep.now timestamp.now result }
{
    keep(timestamp)
}

// Keeps the reassemblies for whose timestamp the test returns `true`. It is called once for each.
// The buffers of the others are spare then.
pub(crate) fn retain_reassemblies<K: Eq + Hash + Drop, T: Drop, S: BuildHasher, F: Fn(&T) -> bool>(
    reassemblies: &mut IndexMap<K, Reassembly<T>, S>,
    spare: &mut SpareBuffers,
    starts: &mut StartOrder,
    held_bytes: &mut usize,
    keep: &F,
)
    requires tested { (q : K) → MayTest (F.pre keep.now) (get K.eq reassemblies.old q) }
    requires room { HasSlots spare.old (index_map_len reassemblies.old) }
    requires tracks { Tracks starts.old.order held_bytes.old reassemblies.old.entries }
    ensures retained { (q : K) → Retained (FnReturnsAt F.Fn keep.now) (get K.eq reassemblies.old q)
        (get K.eq reassemblies.new q) }
    ensures slots { HasSlots spare.new (index_map_len reassemblies.new) }
    ensures counts { index_map_len reassemblies.new + vec_len spare.new.bytes
        ≡ index_map_len reassemblies.old + vec_len spare.old.bytes }
    ensures sections { index_map_len reassemblies.new + vec_len spare.new.sections
        ≡ index_map_len reassemblies.old + vec_len spare.old.sections }
    ensures fewer { index_map_len reassemblies.new ≤ index_map_len reassemblies.old }
    ensures tracks { Tracks starts.new.order held_bytes.new reassemblies.new.entries }
    ensures names { names_in (keys_of reassemblies.new.entries) starts.new.order
        ≡ filter (λ q. is_some (get K.eq reassemblies.new q))
        (names_in (keys_of reassemblies.old.entries) starts.old.order) }
{
    let mut at = 0;
    while at < reassemblies.len() {
        let (_, reassembly) = reassemblies.get_index(at).unwrap();
        if answer(keep, &reassembly.timestamp) {
            at += 1;
        } else {
            let (_, ended) = reassemblies.swap_remove_index(at).unwrap();
            starts.swap_remove(at);
            *held_bytes -= ended.buf.data_len();
            spare.give(ended.buf);
        }
    }
}
