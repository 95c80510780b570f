//! Bytes of a stream, of which some are missing.

ghost use Rattle.std.specs.Prelude.{◌≡◌, ◌+◌, ◌-◌, ◌<◌, ◌≤◌, ◌^◌, [], length, false};
ghost use Rattle.std.specs.Prelude.{take, drop};
ghost use Rattle.std.specs.Prelude.{slice_get, IfOk, IfNone, IfSome, IsOk, OnOk, OnErr};
ghost use Rattle.std.specs.Prelude.{None, Some, is_some};
ghost use Rattle.tcp_streams.specs.Gaps.{AreRunsIn, gap_start_after, gap_after, is_missing, without};
ghost use Rattle.tcp_streams.specs.PlacedSegments.{byte_from, clashes, count_from};
ghost use Rattle.tcp_streams.specs.SparseBytes.{Sparse, sparse, IsSparse, held_end, available_end, byte_in};
ghost use Rattle.tcp_streams.specs.SparseBytes.{AddsBytes, AllHeld, CanSkipTo, Fills, Skips, bytes_after_gap, counted, size_of};

use super::byte_queue::ByteQueue;
use super::conflicts::{Conflicts, differences};
use super::gaps::{Gap, Gaps};
use std::alloc::{AllocError, Global};
use std::marker::Model;

/// The bytes of a stream after those that were taken, of which some are missing.
#[derive(Debug, Drop)]
pub(crate) struct SparseBytes {
    taken: u64,
    // With 0 at each position whose byte is missing. The last one isn't.
    bytes: ByteQueue,
    gaps: Gaps,
}

impl Model for SparseBytes {
    ghost Value = { Sparse };

    ghost view = { λ held. sparse held.taken held.bytes held.gaps };

    ghost invariant = { λ held. IsSparse (sparse held.taken held.bytes held.gaps) };
}

impl SparseBytes {
    pub(crate) fn new(alloc: Global) -> SparseBytes
        ensures held { result ≡ sparse 0 [] [] }
        ensures sound { IsSparse result }
    {
        SparseBytes {
            taken: 0,
            bytes: ByteQueue::new(alloc),
            gaps: Gaps::new(alloc),
        }
    }

    /// How many bytes of the stream were taken.
    pub(crate) fn taken(&self) -> u64
        ensures { result ≡ self.now.taken }
    {
        self.taken
    }

    /// The position after the last byte.
    pub(crate) fn end(&self) -> u64
        ensures { result ≡ held_end self.now }
    {
        self.taken + self.bytes.len() as u64
    }

    /// How much is held: the bytes up to the last one, with those between them that are missing, and 16
    /// for each gap.
    pub(crate) fn size(&self) -> u64
        ensures { result ≡ size_of self.now }
    {
        let gaps = (self.gaps.count() as u64).saturating_mul(16);
        (self.bytes.len() as u64).saturating_add(gaps)
    }

    /// At how many of so many positions from one on a byte is held.
    pub(crate) fn count_held(&self, position: u64, count: usize) -> u64
        requires after { self.now.taken ≤ position }
        requires short { position + count ≤ 2 ^ 63 }
        ensures { result ≡ count_from (λ p. is_some (byte_in self.now p)) position count }
    {
        let end = (position + count as u64).min(self.end());
        if end <= position {
            return 0;
        }
        end - position - self.gaps.count_missing(position, end)
    }

    /// The first gap.
    pub(crate) fn first_gap(&self) -> Option<Gap>
        ensures { result ≡ slice_get self.now.gaps 0 }
    {
        self.gaps.first()
    }

    /// The position after the bytes that follow without a gap.
    pub(crate) fn available_end(&self) -> u64
        ensures { result ≡ available_end self.now }
    {
        match self.gaps.first() {
            Some(gap) => gap.start,
            None => self.end(),
        }
    }

    /// The bytes that follow without a gap.
    pub(crate) fn available(&self) -> &[u8]
        ensures { result.now ≡ take (available_end self.now - self.now.taken) self.now.bytes }
    {
        let len = (self.available_end() - self.taken) as usize;
        &self.bytes.as_slice()[..len]
    }

    /// Those of them from a position on.
    pub(crate) fn available_from(&self, position: u64) -> &[u8]
        ensures { result.now ≡ drop (position - self.now.taken)
            (take (available_end self.now - self.now.taken) self.now.bytes) }
    {
        let available = self.available();
        let count = position.saturating_sub(self.taken);
        available.get(count as usize..).unwrap_or(&[])
    }

    /// The first gap that ends after a position, and the bytes after it, up to the next gap or to the
    /// last byte.
    pub(crate) fn gap_after(&self, position: u64) -> Option<(Gap, &[u8])>
        ensures gap { IfSome result (λ after. gap_after position self.now.gaps ≡ Some after.0) }
        ensures bytes { IfSome result (λ after. after.1.now ≡ bytes_after_gap self.now after.0) }
        ensures none { IfNone result (gap_after position self.now.gaps ≡ None) }
    {
        let Some(gap) = self.gaps.after(position) else {
            return None;
        };
        let from = (gap.end - self.taken) as usize;
        let to = (self.end_after(gap) - self.taken) as usize;
        Some((gap, part(self.bytes.as_slice(), from, to)))
    }

    // The position after the bytes that follow a gap.
    fn end_after(&self, gap: Gap) -> u64
        ensures { result ≡ gap_start_after gap.end self.now.gaps (held_end self.now) }
    {
        match self.gaps.after(gap.end) {
            Some(next) => next.start,
            None => self.end(),
        }
    }

    /// Takes so many of them.
    pub(crate) fn consume(&mut self, count: usize)
        requires { self.old.taken + count ≤ available_end self.old }
        ensures held { self.new ≡ sparse (self.old.taken + count) (drop count self.old.bytes) self.old.gaps }
        ensures sound { IsSparse self.new }
    {
        self.bytes.drop_prefix(count);
        self.taken += count as u64;
    }

    /// Takes all bytes before a position, those that are missing too. It is the end of the first gap;
    /// where there is none, it isn't before the end of the bytes.
    pub(crate) fn skip_to(&mut self, position: u64)
        requires { CanSkipTo self.old.gaps (held_end self.old) position }
        ensures skips { Skips self.old self.new position }
        ensures sound { IsSparse self.new }
    {
        let count = ((position - self.taken) as usize).min(self.bytes.len());
        self.bytes.drop_prefix(count);
        self.gaps.remove_first();
        self.taken = position;
    }

    /// Adds bytes from a position on. Those that are held stay, and the positions at which they
    /// differ are returned. Where there is no memory, nothing changes.
    pub(crate) fn add(&mut self, position: u64, bytes: &[u8]) -> Result<Conflicts, AllocError>
        requires after { self.old.taken ≤ position }
        requires short { position + length bytes.now ≤ 2 ^ 63 }
        ensures adds { IfOk result (λ _. AddsBytes self.old self.new position bytes.now) }
        ensures conflicts { IfOk result (λ conflicts. conflicts
            ≡ counted (clashes (byte_in self.old) position bytes.now)) }
        ensures err { OnErr result (self.new ≡ self.old) }
        ensures sound { IsSparse self.new }
        // Bytes at positions that hold one take no memory.
        ensures succeeds { AllHeld (byte_in self.old) position (length bytes.now) → IsOk result }
    {
        let start = (position - self.taken) as usize;
        if start == self.bytes.len() {
            self.bytes.extend_from_slice(bytes)?;
            return Ok(Conflicts::none());
        }
        if bytes.is_empty() {
            return Ok(Conflicts::none());
        }
        if start > self.bytes.len() {
            add_after_gap(&mut self.bytes, &mut self.gaps, self.taken, position, bytes)?;
            return Ok(Conflicts::none());
        }
        insert(&mut self.bytes, &mut self.gaps, self.taken, position, bytes)
    }
}

// The bytes from one index on up to another.
fn part(bytes: &[u8], from: usize, to: usize) -> &[u8]
    requires order { from ≤ to }
    requires within { to ≤ length bytes.now }
    ensures { result.now ≡ take (to - from) (drop from bytes.now) }
{
    &bytes[from..to]
}

// Adds bytes from a position on that is after the end of those that are held.
fn add_after_gap(
    held: &mut ByteQueue,
    gaps: &mut Gaps,
    taken: u64,
    position: u64,
    bytes: &[u8],
) -> Result<(), AllocError>
    requires after { taken + length held.old < position }
    requires some { 0 < length bytes.now }
    requires short { position + length bytes.now ≤ 2 ^ 63 }
    requires sparse { IsSparse (sparse taken held.old gaps.old) }
    ensures adds { OnOk result (AddsBytes (sparse taken held.old gaps.old)
        (sparse taken held.new gaps.new) position bytes.now) }
    ensures sound { OnOk result (IsSparse (sparse taken held.new gaps.new)) }
    ensures err { OnErr result ((held.new ≡ held.old) × (gaps.new ≡ gaps.old)) }
{
    gaps.push_last(taken + held.len() as u64, position)?;
    if let Err(error) = held.extend_from((position - taken) as usize, bytes) {
        gaps.remove_last();
        return Err(error);
    }
    Ok(())
}

// Adds bytes from a position on where they are missing, and returns where the others differ.
fn insert(
    held: &mut ByteQueue,
    gaps: &mut Gaps,
    taken: u64,
    position: u64,
    bytes: &[u8],
) -> Result<Conflicts, AllocError>
    requires after { taken ≤ position }
    requires some { 0 < length bytes.now }
    requires short { position + length bytes.now ≤ 2 ^ 63 }
    requires sparse { IsSparse (sparse taken held.old gaps.old) }
    ensures adds { OnOk result (AddsBytes (sparse taken held.old gaps.old)
        (sparse taken held.new gaps.new) position bytes.now) }
    ensures sound { OnOk result (IsSparse (sparse taken held.new gaps.new)) }
    ensures conflicts { IfOk result (λ conflicts. conflicts
        ≡ counted (clashes (byte_in (sparse taken held.old gaps.old)) position bytes.now)) }
    ensures err { OnErr result ((held.new ≡ held.old) × (gaps.new ≡ gaps.old)) }
    ensures succeeds { position + length bytes.now ≤ taken + length held.old → is_missing gaps.old position ≡ false
        → IsOk result }
{
    let old_len = held.len();
    let len = (position - taken) as usize + bytes.len();
    held.lengthen(len)?;
    if let Err(error) = gaps.open(taken + old_len as u64, taken + len as u64, position) {
        held.truncate(old_len);
        return Err(error);
    }
    let conflicts = held.merge(gaps, taken, position, bytes);
    gaps.close(position, position + bytes.len() as u64);
    Ok(conflicts)
}

// Writes bytes where they are missing.
pub(crate) fn merge(
    held: &mut [u8],
    gaps: &Gaps,
    taken: u64,
    position: u64,
    bytes: &[u8],
) -> Conflicts
    requires after { taken ≤ position }
    requires within { position + length bytes.now ≤ taken + length held.old }
    requires short { position + length bytes.now ≤ 2 ^ 63 }
    requires gaps { AreRunsIn 0 (2 ^ 64) gaps.now }
    ensures adds { AddsBytes (sparse taken held.old gaps.now)
        (sparse taken held.new (without position (position + length bytes.now) gaps.now)) position bytes.now }
    ensures conflicts { result
        ≡ counted (clashes (byte_in (sparse taken held.old gaps.now)) position bytes.now) }
{
    let start = (position - taken) as usize;
    fill(&mut held[start..start + bytes.len()], position, gaps, bytes)
}

// Writes bytes over those that are held from a position on, where those are missing.
fn write_missing(held: &mut [u8], position: u64, gaps: &Gaps, bytes: &[u8])
    requires same { length held.old ≡ length bytes.now }
    requires short { position + length bytes.now ≤ 2 ^ 63 }
    requires gaps { AreRunsIn 0 (2 ^ 64) gaps.now }
    ensures { Fills gaps.now position held.old held.new bytes.now }
{
    let end = position + bytes.len() as u64;
    let mut written = position;
    for _ in position..end {
        let Some(gap) = gaps.missing_from(written, end) else {
            return;
        };
        let from = (gap.start - position) as usize;
        let to = (gap.end - position) as usize;
        held[from..to].copy_from_slice(&bytes[from..to]);
        written = gap.end;
    }
}

// Writes bytes over those that are held from a position on, where those are missing, and returns the
// positions at which the others differ.
fn fill(held: &mut [u8], position: u64, gaps: &Gaps, bytes: &[u8]) -> Conflicts
    requires same { length held.old ≡ length bytes.now }
    requires short { position + length bytes.now ≤ 2 ^ 63 }
    requires gaps { AreRunsIn 0 (2 ^ 64) gaps.now }
    ensures fills { Fills gaps.now position held.old held.new bytes.now }
    ensures conflicts { result ≡ counted (clashes (byte_from position held.new) position bytes.now) }
{
    write_missing(held, position, gaps, bytes);
    differences(held, bytes, position)
}
