//! The memory of reassemblies that ended, for those that start.

ghost use Rattle.std.specs.Prelude.{◌≡◌, ◌+◌, ◌-◌, ◌<◌, ◌≤◌, ◌++◌, ◌∷◌, ℕ, [], true, false, if◌then◌else◌, vec_len};
ghost use Rattle.std.specs.Prelude.{vec_capacity, IfSome};
ghost use Rattle.etherparse.specs.Memory.{capacities, freed, memory_of};
ghost use Rattle.etherparse.specs.SpareBuffers.{HasSlots, NoFewerSlots, SameBuffers, SameCounts};

use super::reassembly_buf::ReassemblyBuf;
use crate::defrag::IpFragRange;
use std::alloc::Global;

/// Buffers of reassemblies that ended, each kind in a list of its own: the bytes of a datagram are
/// returned to the caller, and its sections stay.
#[derive(Debug, Drop)]
pub(crate) struct SpareBuffers {
    pub bytes: Vec<Vec<u8>>,
    pub sections: Vec<Vec<IpFragRange>>,
}

/// Which of the buffers of a new reassembly were spare.
#[derive(Clone, Copy)]
pub(crate) struct Taken {
    pub bytes: bool,
    pub sections: bool,
}

impl SpareBuffers {
    /// None. It takes no memory.
    pub(crate) fn new(alloc: Global) -> SpareBuffers
        ensures bytes { vec_len result.bytes ≡ 0 }
        ensures sections { vec_len result.sections ≡ 0 }
        ensures no_bytes { result.bytes.items ≡ [] }
        ensures no_sections { result.sections.items ≡ [] }
    {
        SpareBuffers {
            bytes: Vec::new(alloc),
            sections: Vec::new(alloc),
        }
    }

    /// Frees them. Their slots stay.
    pub(crate) fn free(&mut self)
        ensures bytes { vec_len self.new.bytes ≡ 0 }
        ensures sections { vec_len self.new.sections ≡ 0 }
        ensures slots { (count : ℕ) → HasSlots self.old count → HasSlots self.new count }
        ensures memory { (names : ℕ) → memory_of self.new names ≡ freed (memory_of self.old names) }
    {
        self.bytes.clear();
        self.sections.clear();
    }

    /// Makes slots for the buffers of one more reassembly than these, and returns whether they are
    /// there.
    pub(crate) fn make_slots(&mut self, held: usize) -> bool
        ensures made { result ≡ true → HasSlots self.new (held + 1) }
        ensures succeeds { HasSlots self.old (held + 1) → result ≡ true }
        ensures same { SameCounts self.old self.new }
        ensures buffers { SameBuffers self.old self.new }
        ensures no_fewer { NoFewerSlots self.old self.new }
    {
        let Some(count) = held.checked_add(1) else {
            return false;
        };
        self.bytes.try_reserve(count).is_ok() && self.sections.try_reserve(count).is_ok()
    }

    /// Makes slots for the bytes of one more reassembly than these, and returns whether they are
    /// there.
    pub(crate) fn make_bytes_slots(&mut self, held: usize) -> bool
        ensures made { result ≡ true
            → vec_len self.new.bytes + (held + 1) ≤ vec_capacity self.new.bytes }
        ensures succeeds { vec_len self.old.bytes + (held + 1) ≤ vec_capacity self.old.bytes
            → result ≡ true }
        ensures refused { result ≡ false
            → vec_capacity self.new.bytes ≡ vec_capacity self.old.bytes }
        ensures len { vec_len self.new.bytes ≡ vec_len self.old.bytes }
        ensures bytes { self.new.bytes.items ≡ self.old.bytes.items }
        ensures sections { self.new.sections ≡ self.old.sections }
    {
        let Some(count) = held.checked_add(1) else {
            return false;
        };
        self.bytes.try_reserve(count).is_ok()
    }

    /// Buffers for a reassembly, spare ones where there are some.
    pub(crate) fn take(&mut self, alloc: Global) -> (Vec<u8>, Vec<IpFragRange>, Taken)
        ensures fewer { vec_len self.new.bytes ≡ vec_len self.old.bytes - 1 }
        ensures fewer_sections { vec_len self.new.sections ≡ vec_len self.old.sections - 1 }
        ensures bytes { vec_len self.old.bytes
            ≡ vec_len self.new.bytes + (if result.2.bytes then 1 else 0) }
        ensures sections { vec_len self.old.sections
            ≡ vec_len self.new.sections + (if result.2.sections then 1 else 0) }
        ensures bytes_room { capacities self.old.bytes.items ≡ capacities self.new.bytes.items
            ++ (if result.2.bytes then vec_capacity result.0 ∷ [] else []) }
        ensures sections_room { capacities self.old.sections.items
            ≡ capacities self.new.sections.items
            ++ (if result.2.sections then vec_capacity result.1 ∷ [] else []) }
        ensures no_bytes { result.2.bytes ≡ false → self.old.bytes.items ≡ [] }
        ensures no_sections { result.2.sections ≡ false → self.old.sections.items ≡ [] }
        ensures no_fewer { NoFewerSlots self.old self.new }
        ensures slots { (count : ℕ) → HasSlots self.old count → HasSlots self.new count }
    {
        let bytes = self.bytes.pop();
        let sections = self.sections.pop();
        let taken = Taken {
            bytes: bytes.is_some(),
            sections: sections.is_some(),
        };
        (or_empty(alloc, bytes), or_empty(alloc, sections), taken)
    }

    /// Takes back those that were spare of a reassembly that didn't start.
    pub(crate) fn give_back(&mut self, buf: ReassemblyBuf, taken: Taken)
        requires bytes { taken.bytes ≡ true → vec_len self.old.bytes < vec_capacity self.old.bytes }
        requires sections { taken.sections ≡ true
            → vec_len self.old.sections < vec_capacity self.old.sections }
        ensures bytes { vec_len self.new.bytes
            ≡ vec_len self.old.bytes + (if taken.bytes then 1 else 0) }
        ensures sections { vec_len self.new.sections
            ≡ vec_len self.old.sections + (if taken.sections then 1 else 0) }
        ensures bytes_room { capacities self.new.bytes.items ≡ capacities self.old.bytes.items
            ++ (if taken.bytes then buf.room.for_bytes ∷ [] else []) }
        ensures sections_room { capacities self.new.sections.items
            ≡ capacities self.old.sections.items
            ++ (if taken.sections then buf.room.for_sections ∷ [] else []) }
        ensures no_fewer { NoFewerSlots self.old self.new }
        ensures slots { (count : ℕ) → HasSlots self.old (count + 1) → HasSlots self.new count }
    {
        let (bytes, sections) = buf.into_memory();
        if taken.bytes {
            self.bytes.push_reserved(bytes);
        }
        if taken.sections {
            self.sections.push_reserved(sections);
        }
    }

    /// Takes both buffers of a reassembly that ended. There are slots for them.
    pub(crate) fn give(&mut self, buf: ReassemblyBuf)
        requires { HasSlots self.old 1 }
        ensures bytes { vec_len self.new.bytes ≡ vec_len self.old.bytes + 1 }
        ensures sections { vec_len self.new.sections ≡ vec_len self.old.sections + 1 }
        ensures bytes_room { capacities self.new.bytes.items
            ≡ capacities self.old.bytes.items ++ buf.room.for_bytes ∷ [] }
        ensures sections_room { capacities self.new.sections.items
            ≡ capacities self.old.sections.items ++ buf.room.for_sections ∷ [] }
        ensures no_fewer { NoFewerSlots self.old self.new }
    {
        let (bytes, sections) = buf.into_memory();
        self.bytes.push_reserved(bytes);
        self.sections.push_reserved(sections);
    }
}

// The buffer, or else one without memory.
fn or_empty<X: Drop>(alloc: Global, buffer: Option<Vec<X>>) -> Vec<X>
    ensures { IfSome buffer (λ spare. vec_capacity result ≡ vec_capacity spare) }
{
    match buffer {
        Some(buffer) => buffer,
        None => Vec::new(alloc),
    }
}
