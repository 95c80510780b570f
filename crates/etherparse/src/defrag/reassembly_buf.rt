//! The buffer of a reassembly in a pool.

ghost use Rattle.std.specs.Prelude.{◌≡◌, ◌≤◌, [], length, vec_capacity};
ghost use Rattle.etherparse.specs.IpDefragBuf.{Shows, empty_of, none_stored, rule_of};
ghost use Rattle.etherparse.specs.Room.{new_room};

use super::deferred_bytes::DeferredBytes;
use super::overlap_rule::OverlapRule;
use super::stored_fragment::StoredFragments;
use super::{IpDefragBuf, IpFragRange};
use std::alloc::Global;

/// A buffer whose bytes nobody sees before the datagram is complete: they may be written late.
pub(crate) type ReassemblyBuf = IpDefragBuf<(), DeferredBytes>;

impl IpDefragBuf<(), DeferredBytes> {
    /// An empty buffer for a datagram whose fragments overlap by this rule, over memory that is
    /// there already.
    pub(crate) fn starting(
        rule: OverlapRule,
        alloc: Global,
        bytes: Vec<u8>,
        sections: Vec<IpFragRange>,
    ) -> ReassemblyBuf
        ensures empty { Shows result [] }
        ensures rule { rule_of result ≡ rule }
        ensures value { result
            ≡ empty_of (tt {0}) (none_stored rule) (new_room bytes sections (none_stored rule)) }
    {
        let bytes = DeferredBytes::new(bytes);
        match rule {
            OverlapRule::Overwrites => IpDefragBuf::empty((), bytes, sections, None),
            OverlapRule::Refuses => {
                let stored_fragments = StoredFragments::new(alloc);
                IpDefragBuf::empty((), bytes, sections, Some(stored_fragments))
            }
        }
    }

    /// The bytes and the sections.
    pub(crate) fn into_bufs(self) -> (Vec<u8>, Vec<IpFragRange>)
        ensures bytes { result.0.items ≡ self.bytes }
        ensures short { length result.0.items ≤ 65535 }
        ensures room { self.room.for_bytes ≤ vec_capacity result.0 }
        ensures sections_room { vec_capacity result.1 ≡ self.room.for_sections }
    {
        (self.data.into_vec(), self.sections)
    }

    /// Their memory alone.
    pub(crate) fn into_memory(self) -> (Vec<u8>, Vec<IpFragRange>)
        ensures room { vec_capacity result.0 ≡ self.room.for_bytes }
        ensures sections_room { vec_capacity result.1 ≡ self.room.for_sections }
    {
        (self.data.into_memory(), self.sections)
    }
}
