//! Bytes of a datagram that are written late where they come far after those that are there.

ghost use Rattle.std.specs.Prelude.{◌≡◌, ◌+◌, ◌-◌, ◌*◌, ◌<◌, ◌≤◌, ◌↔◌, ℕ, List, [], ◌∷◌, false, true, length, min, slice_index, vec_capacity, IfSome, IsTrue};
ghost use Rattle.etherparse.specs.IpDefragBuf.{Writes};
ghost use Rattle.etherparse.specs.StoredFragment.{HasBytes};
ghost use Rattle.etherparse.specs.DeferredBytes.{AreInRoom, BytesInRoom, HasBytesAfter, Late, Write, byte_after, bytes_after};
ghost use Rattle.etherparse.specs.DeferredBytes.{bytes_with, late_in, late_len, with_write};

use super::datagram_bytes::{DatagramBytes, write_at, write_over};
use super::stored_fragment::has_bytes;
use std::alloc::{AllocError, Global};
use std::marker::Model;

// How many writes are late at most.
const MOST_LATE: usize = 32;

// How many bytes, more than four times those that are late, are added at once.
const LEAST_GAP: usize = 4096;

/// The bytes of a datagram that is being put together. Those that come far after the bytes that are
/// there are written late, all together: a fragment costs its own bytes, and not those before it
/// that are missing.
#[derive(Debug, Drop)]
pub struct DeferredBytes {
    written: Vec<u8>,
    // In memory of their own: few datagrams have some, and a buffer that is short is moved fast.
    late: Option<Box<LateBytes>>,
}

// Bytes that are to be written over those that are there.
#[derive(Debug, Drop)]
pub(crate) struct LateBytes {
    // In this order.
    writes: Vec<LateWrite>,
    // How many bytes there are then.
    len: usize,
    // Whether the writes may reach further.
    cut: bool,
}

// Bytes that are to be written at an index.
#[derive(Debug, Drop)]
pub(crate) struct LateWrite {
    start: usize,
    bytes: Vec<u8>,
}

impl Model for LateWrite {
    ghost Value = { Write };

    ghost view = { λ w. record { start = w.start; bytes = w.bytes.items } };
}

impl Model for LateBytes {
    ghost Value = { Late };

    ghost view = { λ l. record { writes = l.writes.items; len = l.len; cut = l.cut } };
}

impl Model for DeferredBytes {
    ghost Value = { BytesInRoom };

    ghost view = { λ d. record {
      bytes = bytes_with (late_in d.late d.written.items) d.written.items;
      capacity = vec_capacity d.written;
    } };

    ghost invariant = { λ d. AreInRoom (late_in d.late d.written.items) d.written.items (vec_capacity d.written) };
}

impl DeferredBytes {
    /// None, over memory that is there already.
    pub(crate) fn new(mut memory: Vec<u8>) -> DeferredBytes
        ensures { result ≡ record { bytes = []; capacity = vec_capacity memory } }
    {
        memory.clear();
        DeferredBytes {
            written: memory,
            late: None,
        }
    }

    /// All of them.
    pub(crate) fn into_vec(self) -> Vec<u8>
        ensures bytes { result.items ≡ self.bytes }
        ensures room { self.capacity ≤ vec_capacity result }
    {
        let DeferredBytes { mut written, late } = self;
        write_late(&mut written, late);
        written
    }

    /// Their memory, whatever it holds.
    pub(crate) fn into_memory(self) -> Vec<u8>
        ensures room { vec_capacity result ≡ self.capacity }
    {
        self.written
    }
}

impl DatagramBytes for DeferredBytes {
    ghost shown = { λ d. d.bytes };

    ghost capacity = { λ d. d.capacity };

    fn len(&self) -> usize {
        len_with(&self.late, &self.written)
    }

    fn clear(&mut self) {
        self.written.clear();
        self.late = None;
    }

    fn try_reserve(&mut self, additional: usize) -> Result<(), AllocError> {
        let late_len = len_with(&self.late, &self.written) - self.written.len();
        self.written
            .try_reserve(additional.saturating_add(late_len))
    }

    fn write_at(&mut self, start: usize, bytes: &[u8]) {
        if self.late.is_none() && start <= self.written.len() {
            write_at(&mut self.written, start, bytes);
        } else {
            write_after_gap(&mut self.written, &mut self.late, start, bytes);
        }
    }

    fn truncate(&mut self, len: usize) {
        match &mut self.late {
            None => self.written.truncate(len),
            Some(late) => {
                if len < late.len {
                    self.written.truncate(len);
                    late.len = len;
                    late.cut = true;
                }
            }
        }
    }

    fn has_bytes(&self, start: usize, bytes: &[u8]) -> bool {
        match &self.late {
            None => has_bytes(&self.written, start, bytes),
            Some(late) => {
                start.saturating_add(bytes.len()) <= late.len
                    && has_bytes_after(&late.writes, &self.written, start, bytes)
            }
        }
    }
}

// How many bytes there are once what is late is written over these.
fn len_with(late: &Option<Box<LateBytes>>, written: &[u8]) -> usize
    ensures { result ≡ (late_in late.now written.now).len }
{
    match late {
        Some(late) => late.len,
        None => written.len(),
    }
}

// Writes bytes at an index that is after those that are written, or where some are late: late, or
// else after these.
#[inline(never)]
fn write_after_gap(
    written: &mut Vec<u8>,
    late: &mut Option<Box<LateBytes>>,
    start: usize,
    bytes: &[u8],
)
    requires sound { AreInRoom (late_in late.old written.old.items) written.old.items (vec_capacity written.old) }
    requires room { start + length bytes.now ≤ vec_capacity written.old }
    requires fits { start + length bytes.now ≤ 65535 }
    ensures sound { AreInRoom (late_in late.new written.new.items) written.new.items (vec_capacity written.new) }
    ensures writes { Writes (bytes_with (late_in late.old written.old.items) written.old.items)
        (bytes_with (late_in late.new written.new.items) written.new.items) start bytes.now }
    ensures room { vec_capacity written.old ≤ vec_capacity written.new }
{
    let len = len_with(late, written).max(start + bytes.len());
    let is_late = is_late(late, written, bytes.len(), len);
    let alloc = *written.allocator();
    if push_late(late, is_late, alloc, start, bytes, len) {
        return;
    }
    write_late(written, late.take());
    write_over(written, start, bytes);
}

// Whether bytes are written late, after which there are so many: few writes are, and they have few
// bytes beside those that writing them now would add; and none reaches further than where it was cut.
fn is_late(late: &Option<Box<LateBytes>>, written: &[u8], bytes_len: usize, len: usize) -> bool
    ensures few { IsTrue result → length (late_in late.now written.now).writes < 32 }
    ensures far { IsTrue result → (bytes_len + late_len (late_in late.now written.now).writes) * 4 + 4096
        ≤ len - length written.now }
    ensures whole { IsTrue result → (late_in late.now written.now).cut ≡ true
        → len ≤ (late_in late.now written.now).len }
{
    let gap = len.saturating_sub(written.len());
    if gap < LEAST_GAP {
        return false;
    }
    match late {
        Some(late) => {
            (!late.cut || len <= late.len)
                && late.writes.len() < MOST_LATE
                && late_len(&late.writes, bytes_len) <= (gap - LEAST_GAP) / 4
        }
        None => bytes_len <= (gap - LEAST_GAP) / 4,
    }
}

// How many bytes these write, and so many more, or `usize::MAX`.
fn late_len(writes: &[LateWrite], more: usize) -> usize
    ensures { result ≡ min (more + late_len writes.now) 18446744073709551615 }
{
    let mut len = more;
    for write in writes {
        len = len.saturating_add(write.bytes.len());
    }
    len
}

// Adds bytes to those that are written late where they are to be, and returns whether it did: there
// may be no memory for them.
fn push_late(
    late: &mut Option<Box<LateBytes>>,
    is_late: bool,
    alloc: Global,
    start: usize,
    bytes: &[u8],
    len: usize,
) -> bool
    ensures added { IsTrue result → (there : List ℕ) → late_in late.new there
        ≡ with_write (record { start = start; bytes = bytes.now }) len (late_in late.old there) }
    ensures requested { IsTrue result → IsTrue is_late }
    ensures refused { result ≡ false → (there : List ℕ) → late_in late.new there ≡ late_in late.old there }
{
    if !is_late {
        return false;
    }
    let Ok(bytes) = Vec::from_slice(alloc, bytes) else {
        return false;
    };
    let write = LateWrite { start, bytes };
    match late {
        Some(late) => {
            if late.writes.push(write).is_err() {
                return false;
            }
            late.len = len;
        }
        None => {
            let Some(first) = first_late(alloc, write, len) else {
                return false;
            };
            *late = Some(first);
        }
    }
    true
}

// The first bytes that are written late, unless there is no memory for them.
fn first_late(alloc: Global, write: LateWrite, len: usize) -> Option<Box<LateBytes>>
    ensures { IfSome result (λ late. late.value ≡ record { writes = write ∷ []; len = len; cut = false }) }
{
    let mut writes = Vec::with_capacity(alloc, 1).ok()?;
    writes.push(write).ok()?;
    let late = LateBytes {
        writes,
        len,
        cut: false,
    };
    Box::new(alloc, late).ok()
}

// Writes what is late, over zeros at each new index.
fn write_late(written: &mut Vec<u8>, late: Option<Box<LateBytes>>)
    requires sound { AreInRoom (late_in late written.old.items) written.old.items (vec_capacity written.old) }
    ensures bytes { written.new.items ≡ bytes_with (late_in late written.old.items) written.old.items }
    ensures room { vec_capacity written.old ≤ vec_capacity written.new }
{
    if let Some(late) = late {
        write_all(written, &late.writes, late.len);
    }
}

// Writes over bytes that are there, and over zeros up to a length.
fn write_all(written: &mut Vec<u8>, writes: &[LateWrite], len: usize)
    requires longer { length written.old.items ≤ len }
    requires room { len ≤ vec_capacity written.old }
    requires short { len ≤ 65535 }
    ensures bytes { written.new.items ≡ bytes_after writes.now written.old.items len }
    ensures room { vec_capacity written.old ≤ vec_capacity written.new }
{
    written.resize(len, 0).unwrap();
    for write in writes {
        write_within(written, write);
    }
}

// Writes bytes over those that are there, and none after them.
fn write_within(written: &mut Vec<u8>, write: &LateWrite)
    requires short { length written.old.items ≤ 65535 }
    ensures len { length written.new.items ≡ length written.old.items }
    ensures bytes { (p : ℕ) → p < length written.old.items
        → slice_index written.new.items p ≡ byte_after (write.now ∷ []) written.old.items p }
    ensures room { vec_capacity written.old ≤ vec_capacity written.new }
{
    let end = write
        .start
        .saturating_add(write.bytes.len())
        .min(written.len());
    if write.start < end {
        write_over(written, write.start, &write.bytes[..end - write.start]);
    }
}

// Whether these bytes are there from an index on, once what is late is written.
fn has_bytes_after(late: &[LateWrite], there: &[u8], start: usize, bytes: &[u8]) -> bool
    requires { start + length bytes.now ≤ 65535 }
    ensures { IsTrue result ↔ HasBytesAfter late.now there.now start bytes.now }
{
    if bytes.is_empty() {
        return true;
    }
    let Some((write, earlier)) = late.split_last() else {
        return has_bytes_or_zeros(there, start, bytes);
    };
    // The write has those from `first` to `last`.
    let first = write.start.saturating_sub(start).min(bytes.len());
    let end = write.start.saturating_add(write.bytes.len());
    let last = end.saturating_sub(start).min(bytes.len()).max(first);
    if !write_has_bytes(write, start + first, &bytes[first..last]) {
        return false;
    }
    if !has_bytes_after(earlier, there, start, &bytes[..first]) {
        return false;
    }
    has_bytes_after(earlier, there, start + last, &bytes[last..])
}

// Whether the write has these bytes from an index on.
fn write_has_bytes(write: &LateWrite, start: usize, bytes: &[u8]) -> bool
    requires { 0 < length bytes.now → write.now.start ≤ start }
    ensures { IsTrue result ↔ (0 < length bytes.now
        → HasBytes write.now.bytes (start - write.now.start) bytes.now) }
{
    if bytes.is_empty() {
        return true;
    }
    has_bytes(&write.bytes, start - write.start, bytes)
}

// Whether these bytes are there from an index on, with 0 at each missing one.
fn has_bytes_or_zeros(there: &[u8], start: usize, bytes: &[u8]) -> bool
    requires { start + length bytes.now ≤ 65535 }
    ensures { IsTrue result ↔ HasBytesAfter [] there.now start bytes.now }
{
    for (index, byte) in bytes.iter().enumerate() {
        if there.get(start + index).copied().unwrap_or(0) != *byte {
            return false;
        }
    }
    true
}
