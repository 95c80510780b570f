//! Bytes of which the first ones are dropped again and again.

ghost use Rattle.std.specs.Prelude.{◌≡◌, ◌++◌, ◌+◌, ◌-◌, ◌^◌, ◌<◌, ◌≤◌, List, ℕ, [], length, drop, replicate, take, vec_len, OnOk};
ghost use Rattle.std.specs.Prelude.{IsOk, OnErr};
ghost use Rattle.tcp_streams.specs.Gaps.{AreRunsIn, without};
ghost use Rattle.tcp_streams.specs.PlacedSegments.{clashes};
ghost use Rattle.tcp_streams.specs.SparseBytes.{sparse, byte_in, AddsBytes, counted};

use super::conflicts::Conflicts;
use super::gaps::Gaps;
use super::sparse_bytes::merge;
use std::alloc::{AllocError, Global};
use std::marker::Model;

/// Bytes, the first of which can be dropped at the cost of those that are dropped: they stay in
/// memory until they are as many as the others.
#[derive(Debug, Drop)]
pub(crate) struct ByteQueue {
    bytes: Vec<u8>,
    dropped: usize,
}

impl Model for ByteQueue {
    ghost Value = { List ℕ };

    ghost view = { λ queue. drop queue.dropped queue.bytes.items };

    ghost invariant = { λ queue. queue.dropped + queue.dropped ≤ length queue.bytes.items };
}

impl ByteQueue {
    pub(crate) fn new(alloc: Global) -> ByteQueue
        ensures { result ≡ [] }
    {
        ByteQueue {
            bytes: Vec::new(alloc),
            dropped: 0,
        }
    }

    pub(crate) fn len(&self) -> usize
        ensures { result ≡ length self.now }
    {
        self.bytes.len() - self.dropped
    }

    pub(crate) fn as_slice(&self) -> &[u8]
        ensures { result.now ≡ self.now }
    {
        &self.bytes[self.dropped..]
    }

    pub(crate) fn extend_from_slice(&mut self, bytes: &[u8]) -> Result<(), AllocError>
        ensures ok { OnOk result (self.new ≡ self.old ++ bytes.now) }
        ensures err { OnErr result (self.new ≡ self.old) }
        ensures succeeds { length bytes.now ≡ 0 → IsOk result }
    {
        if bytes.is_empty() {
            return Ok(());
        }
        self.bytes.extend_from_slice(bytes)
    }

    /// Makes the bytes no fewer than `len`. Those that are new are 0. Where there is no memory, nothing
    /// changes.
    pub(crate) fn lengthen(&mut self, len: usize) -> Result<(), AllocError>
        ensures ok { OnOk result (self.new ≡ self.old ++ replicate (len - length self.old) 0) }
        ensures err { OnErr result (self.new ≡ self.old) }
        ensures succeeds { len ≤ length self.old → IsOk result }
    {
        let additional = len.saturating_sub(self.bytes.len() - self.dropped);
        self.bytes.try_reserve(additional)?;
        self.bytes.resize(self.bytes.len() + additional, 0).unwrap();
        Ok(())
    }

    /// Adds bytes from an index on that isn't before the end. Those before them that are new are 0. Where
    /// there is no memory, nothing changes.
    pub(crate) fn extend_from(&mut self, index: usize, bytes: &[u8]) -> Result<(), AllocError>
        requires { length self.old ≤ index }
        ensures ok { OnOk result (self.new ≡ (self.old ++ replicate (index - length self.old) 0) ++ bytes.now) }
        ensures err { OnErr result (self.new ≡ self.old) }
    {
        let zeros = index - (self.bytes.len() - self.dropped);
        self.bytes.try_reserve(zeros.saturating_add(bytes.len()))?;
        self.bytes.resize(self.bytes.len() + zeros, 0).unwrap();
        self.bytes.extend_from_slice(bytes).unwrap();
        Ok(())
    }

    /// Drops all bytes but the first `len`.
    pub(crate) fn truncate(&mut self, len: usize)
        ensures { self.new ≡ take len self.old }
    {
        self.bytes.truncate(self.dropped.saturating_add(len));
        self.dropped = release(&mut self.bytes, self.dropped);
    }

    /// Drops the first bytes, so many of them.
    pub(crate) fn drop_prefix(&mut self, count: usize)
        requires { count ≤ length self.old }
        ensures { self.new ≡ drop count self.old }
    {
        self.dropped = release(&mut self.bytes, self.dropped + count);
    }

    /// Writes bytes from a position on where they are missing, and returns where the others differ.
    pub(crate) fn merge(
        &mut self,
        gaps: &Gaps,
        taken: u64,
        position: u64,
        bytes: &[u8],
    ) -> Conflicts
        requires after { taken ≤ position }
        requires within { position + length bytes.now ≤ taken + length self.old }
        requires short { position + length bytes.now ≤ 2 ^ 63 }
        requires gaps { AreRunsIn 0 (2 ^ 64) gaps.now }
        ensures adds { AddsBytes (sparse taken self.old gaps.now)
            (sparse taken self.new (without position (position + length bytes.now) gaps.now)) position bytes.now }
        ensures conflicts { result
            ≡ counted (clashes (byte_in (sparse taken self.old gaps.now)) position bytes.now) }
    {
        merge(
            &mut self.bytes[self.dropped..],
            gaps,
            taken,
            position,
            bytes,
        )
    }
}

// Takes the first bytes, so many of them, out of memory if they are no fewer than the others. How many
// of these are still there is returned.
fn release(bytes: &mut Vec<u8>, dropped: usize) -> usize
    requires { dropped ≤ vec_len bytes.old }
    ensures bytes { drop result bytes.new.items ≡ drop dropped bytes.old.items }
    ensures few { result + result ≤ length bytes.new.items }
{
    if bytes.len() - dropped > dropped {
        return dropped;
    }
    if bytes.len() == dropped {
        bytes.clear();
        return 0;
    }
    bytes.drain(..dropped);
    0
}
