//! The fragments of a datagram that may not overlap.

ghost use Rattle.std.specs.Prelude.{◌≡◌, ◌≤◌, ◌↔◌, IsTrue, IsOk, IfOk, length, option_map};
ghost use Rattle.std.specs.List.{insert};
ghost use Rattle.std.specs.List.Sorted.{IsBinarySearchResult, IsSearchInRange};
ghost use Rattle.etherparse.specs.IpFragRange.{AreOrdered};
ghost use Rattle.etherparse.specs.StoredFragment.{HasBytes, HasRoomForOne, IsIndexIn, IsLocation, emptied, listed_in};
ghost use Rattle.etherparse.specs.StoredFragment.{stored_cmp, reach_of};
ghost use Rattle.etherparse.specs.Room.{HasStoredRoom, stored_room};

use super::IpFragRange;
use super::datagram_bytes::DatagramBytes;
use super::sections::shares_offset;
use smallvec::SmallVec;
use std::alloc::AllocError;

/// A fragment that was accepted, without its bytes. The fields order them.
#[derive(Clone, Copy, Debug, Default, PartialEq, Eq, PartialOrd, Ord)]
pub(crate) struct StoredFragment {
    /// The offset of its first byte.
    pub start: u16,
    /// The offset after its last byte.
    pub end: u16,
    pub more_fragments: bool,
}

/// Stored fragments in order, each once. Up to four take no memory.
pub(crate) type StoredFragments = SmallVec<StoredFragment, 4>;

impl StoredFragment {
    // The offsets that no other fragment may cover: after a last one there may be no byte.
    fn reach(self) -> IpFragRange
        ensures { result ≡ reach_of self }
    {
        IpFragRange {
            start: self.start,
            end: if self.more_fragments {
                self.end
            } else {
                u16::MAX
            },
        }
    }
}

/// What is found where a fragment is looked for among the stored ones.
pub(crate) enum Location {
    /// It is one of them again.
    Repeat,
    /// It overlaps them.
    Clash,
    /// It is put before the one with this index.
    At(usize),
}

// Whether the list holds the bytes from an index on.
pub(super) fn has_bytes(there: &[u8], start: usize, bytes: &[u8]) -> bool
    ensures { IsTrue result ↔ HasBytes there.now start bytes.now }
{
    start <= there.len() && there[start..].starts_with(bytes)
}

// The index at which a fragment is stored, or is to be put. Most are put after all others.
fn search(
    stored_fragments: &[StoredFragment],
    stored_fragment: StoredFragment,
) -> Result<usize, usize>
    ensures bound { IsSearchInRange result (length stored_fragments.now) }
    ensures position { IsBinarySearchResult (λ m. stored_cmp m stored_fragment) stored_fragments.now result }
{
    let len = stored_fragments.len();
    if len > 0 && stored_fragments[len - 1].start < stored_fragment.start {
        return Err(len);
    }
    stored_fragments.binary_search(&stored_fragment)
}

// Looks for a fragment among the stored ones, whose bytes are there. It takes as many steps as
// their number has binary digits.
pub(crate) fn find_location<Bytes: DatagramBytes>(
    stored_fragments: &[StoredFragment],
    sections: &[IpFragRange],
    there: &Bytes,
    stored_fragment: StoredFragment,
    bytes: &[u8],
) -> Location
    requires { AreOrdered sections.now }
    ensures { IsLocation stored_fragments.now sections.now (Bytes.shown there.now) stored_fragment bytes.now result }
{
    match search(stored_fragments, stored_fragment) {
        Ok(_) if there.has_bytes(usize::from(stored_fragment.start), bytes) => Location::Repeat,
        Ok(_) => Location::Clash,
        Err(_) if shares_offset(sections, stored_fragment.reach()) => Location::Clash,
        Err(index) => Location::At(index),
    }
}

// Reserves memory for one more fragment where they are stored, and returns whether it is there.
pub(crate) fn reserve_stored(stored_fragments: &mut Option<StoredFragments>) -> bool
    ensures same { listed_in stored_fragments.new ≡ listed_in stored_fragments.old }
    ensures room { IsTrue result → HasRoomForOne stored_fragments.new }
    ensures succeeds { HasStoredRoom (listed_in stored_fragments.old) (stored_room stored_fragments.old)
        → IsTrue result }
    ensures no_less { stored_room stored_fragments.old ≤ stored_room stored_fragments.new }
{
    match stored_fragments {
        Some(stored_fragments) => stored_fragments.reserve(1).is_ok(),
        None => true,
    }
}

// Puts a fragment before the one with this index where they are stored. There is capacity for it.
#[inline(always)]
pub(crate) fn insert_stored(
    stored_fragments: &mut Option<StoredFragments>,
    index: usize,
    stored_fragment: StoredFragment,
)
    requires room { HasRoomForOne stored_fragments.old }
    requires within { IsIndexIn stored_fragments.old index }
    ensures stored_fragments { listed_in stored_fragments.new
        ≡ option_map (λ ms. insert ms index stored_fragment) (listed_in stored_fragments.old) }
    ensures no_less { stored_room stored_fragments.old ≤ stored_room stored_fragments.new }
{
    if let Some(stored_fragments) = stored_fragments {
        if index == stored_fragments.len() {
            stored_fragments.push_reserved(stored_fragment);
        } else {
            stored_fragments.insert(index, stored_fragment).unwrap();
        }
    }
}

// Drops all fragments where they are stored.
pub(crate) fn clear_stored(stored_fragments: &mut Option<StoredFragments>)
    ensures stored_fragments { listed_in stored_fragments.new ≡ emptied (listed_in stored_fragments.old) }
    ensures room { stored_room stored_fragments.new ≡ stored_room stored_fragments.old }
{
    if let Some(stored_fragments) = stored_fragments {
        stored_fragments.clear();
    }
}

// The same fragments, in memory of their own.
pub(crate) fn copy_stored(
    stored_fragments: &Option<StoredFragments>,
) -> Result<Option<StoredFragments>, AllocError>
    ensures copy { IfOk result (λ copy. listed_in copy ≡ listed_in stored_fragments.now) }
    ensures empty { listed_in stored_fragments.now ≡ emptied (listed_in stored_fragments.now) → IsOk result }
{
    match stored_fragments {
        Some(stored_fragments) => Ok(Some(SmallVec::from_slice(
            *stored_fragments.allocator(),
            stored_fragments.as_slice(),
        )?)),
        None => Ok(None),
    }
}
