//! Where a buffer has the bytes of its datagram.

ghost use Rattle.std.specs.Prelude.{◌≡◌, ◌+◌, ◌<◌, ◌≤◌, ◌↔◌, ℕ, List, [], length, take, vec_capacity, OnOk, OnErr, IsTrue};
ghost use Rattle.etherparse.specs.IpDefragBuf.{Writes};
ghost use Rattle.etherparse.specs.StoredFragment.{HasBytes};

use super::stored_fragment::has_bytes;
use std::alloc::AllocError;

/// The bytes of a datagram that is being put together, with 0 at each index whose byte is missing.
pub trait DatagramBytes {
    // Those bytes.
    ghost shown: { Self → List ℕ };

    // For how many there is memory.
    ghost capacity: { Self → ℕ };

    /// How many bytes there are.
    fn len(&self) -> usize
        ensures len { result ≡ length (shown self.now) }
        ensures room { result ≤ capacity self.now };

    /// Drops all of them.
    fn clear(&mut self)
        ensures items { shown self.new ≡ [] }
        ensures room { capacity self.new ≡ capacity self.old };

    /// Reserves memory for so many more.
    fn try_reserve(&mut self, additional: usize) -> Result<(), AllocError>
        ensures items { shown self.new ≡ shown self.old }
        ensures ok { OnOk result (length (shown self.new) + additional ≤ capacity self.new) }
        ensures full { OnErr result (capacity self.old < length (shown self.old) + additional) }
        ensures room { capacity self.old ≤ capacity self.new };

    /// Writes bytes at an index, over those that are there, and 0 at each new index before it. There
    /// is memory for them.
    fn write_at(&mut self, start: usize, bytes: &[u8])
        requires room { start + length bytes.now ≤ capacity self.old }
        requires fits { start + length bytes.now ≤ 65535 }
        ensures writes { Writes (shown self.old) (shown self.new) start bytes.now }
        ensures room { capacity self.old ≤ capacity self.new };

    /// Drops those from an index on.
    fn truncate(&mut self, len: usize)
        ensures items { shown self.new ≡ take len (shown self.old) }
        ensures room { capacity self.old ≤ capacity self.new };

    /// Whether these are there from an index on.
    fn has_bytes(&self, start: usize, bytes: &[u8]) -> bool
        ensures { IsTrue result ↔ HasBytes (shown self.now) start bytes.now };
}

/// Each byte is written when it comes.
impl DatagramBytes for Vec<u8> {
    ghost shown = { λ v. v.items };

    ghost capacity = { λ v. vec_capacity v };

    fn len(&self) -> usize {
        self.as_slice().len()
    }

    fn clear(&mut self) {
        Vec::clear(self);
    }

    fn try_reserve(&mut self, additional: usize) -> Result<(), AllocError> {
        Vec::try_reserve(self, additional)
    }

    #[inline(always)]
    fn write_at(&mut self, start: usize, bytes: &[u8]) {
        write_at(self, start, bytes);
    }

    fn truncate(&mut self, len: usize) {
        Vec::truncate(self, len);
    }

    fn has_bytes(&self, start: usize, bytes: &[u8]) -> bool {
        has_bytes(self, start, bytes)
    }
}

// Writes bytes at an index, over those that are there, and 0 at each new index before it. There is
// capacity for them.
#[inline(always)]
pub(super) fn write_at(buffer: &mut Vec<u8>, start: usize, bytes: &[u8])
    requires room { start + length bytes.now ≤ vec_capacity buffer.old }
    requires fits { start + length bytes.now ≤ 65535 }
    ensures writes { Writes buffer.old.items buffer.new.items start bytes.now }
    ensures room { vec_capacity buffer.old ≤ vec_capacity buffer.new }
{
    if start == buffer.len() {
        buffer.extend_from_slice(bytes).unwrap();
    } else {
        write_over(buffer, start, bytes);
    }
}

// Writes bytes so where they may come before the end, or after a gap.
pub(super) fn write_over(buffer: &mut Vec<u8>, start: usize, bytes: &[u8])
    requires room { start + length bytes.now ≤ vec_capacity buffer.old }
    requires fits { start + length bytes.now ≤ 65535 }
    ensures writes { Writes buffer.old.items buffer.new.items start bytes.now }
    ensures room { vec_capacity buffer.old ≤ vec_capacity buffer.new }
{
    let end = start + bytes.len();
    buffer.resize(buffer.len().max(end), 0).unwrap();
    buffer[start..end].copy_from_slice(bytes);
}
