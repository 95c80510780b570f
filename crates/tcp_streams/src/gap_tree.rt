//! Gaps of a stream in a tree.

ghost use Rattle.std.specs.Prelude.{◌≡◌, ◌-◌, ◌<◌, ◌≤◌, ◌^◌, ◌∷◌, [], length, false};
ghost use Rattle.std.specs.Prelude.{drop, slice_get, take, IsOk, IsTrue, OnErr, OnOk, ◌↔◌};
ghost use Rattle.tcp_streams.specs.Gaps.{AreRunsIn, gap_after, crosses_one, split_at, with_gap, without};

use super::gaps::Gap;
use std::alloc::{AllocError, Global};
use std::collections::BTreeMap;
use std::marker::Model;
use std::ops::Bound;

/// Gaps in the order of their positions. Where there is no memory for a call, nothing changes.
#[derive(Debug, Drop)]
pub(crate) struct GapTree {
    // By the end of each.
    starts: BTreeMap<u64, u64>,
}

impl Model for GapTree {
    ghost use Rattle.std.specs.Prelude.{List};
    ghost use Rattle.tcp_streams.specs.declared.gaps.Gap.{Gap};
    ghost use Rattle.tcp_streams.specs.Gaps.{gaps_of};

    ghost Value = { List Gap };

    ghost view = { λ gaps. gaps_of gaps.starts.entries };
}

impl GapTree {
    pub(crate) fn new(alloc: Global) -> GapTree
        ensures { result ≡ [] }
    {
        GapTree {
            starts: BTreeMap::new(alloc),
        }
    }

    pub(crate) fn is_empty(&self) -> bool
        ensures { IsTrue result ↔ (self.now ≡ []) }
    {
        self.starts.is_empty()
    }

    /// How many there are.
    pub(crate) fn count(&self) -> usize
        ensures count { result ≡ length self.now }
        ensures few { result < 2 ^ 63 }
    {
        self.starts.len()
    }

    /// The one that begins before all others.
    pub(crate) fn first(&self) -> Option<Gap>
        ensures { result ≡ slice_get self.now 0 }
    {
        match self.starts.first_key_value() {
            Some((end, start)) => Some(Gap {
                start: *start,
                end: *end,
            }),
            None => None,
        }
    }

    /// The first one that ends after a position.
    pub(crate) fn after(&self, position: u64) -> Option<Gap>
        ensures { result ≡ gap_after position self.now }
    {
        let after = (Bound::Excluded(position), Bound::Unbounded);
        match self.starts.range(after).next() {
            Some((end, start)) => Some(Gap {
                start: *start,
                end: *end,
            }),
            None => None,
        }
    }

    /// Adds a gap before all others.
    pub(crate) fn push_first(&mut self, gap: Gap) -> Result<(), AllocError>
        requires { AreRunsIn gap.end (2 ^ 64) self.old }
        ensures ok { OnOk result (self.new ≡ gap ∷ self.old) }
        ensures err { OnErr result (self.new ≡ self.old) }
    {
        self.starts.insert(gap.end, gap.start)?;
        Ok(())
    }

    /// Adds a gap after all others unless it is empty.
    pub(crate) fn push_last(&mut self, start: u64, end: u64) -> Result<(), AllocError>
        requires { AreRunsIn 0 start self.old }
        ensures ok { OnOk result (self.new ≡ with_gap start end self.old) }
        ensures err { OnErr result (self.new ≡ self.old) }
        ensures succeeds { end ≤ start → IsOk result }
    {
        if start < end {
            self.starts.insert(end, start)?;
        }
        Ok(())
    }

    /// Removes the first one, if there is one.
    pub(crate) fn remove_first(&mut self)
        ensures { self.new ≡ drop 1 self.old }
    {
        self.starts.pop_first();
    }

    /// Removes the last one, if there is one.
    pub(crate) fn remove_last(&mut self)
        ensures { self.new ≡ take (length self.old - 1) self.old }
    {
        self.starts.pop_last();
    }

    /// Makes two gaps of the one that has positions before this one, and this one.
    pub(crate) fn split(&mut self, position: u64) -> Result<(), AllocError>
        requires { AreRunsIn 0 (2 ^ 64) self.old }
        ensures ok { OnOk result (self.new ≡ split_at position self.old) }
        ensures err { OnErr result (self.new ≡ self.old) }
        ensures succeeds { crosses_one position self.old ≡ false → IsOk result }
    {
        let Some(gap) = self.after(position) else {
            return Ok(());
        };
        if position <= gap.start {
            return Ok(());
        }
        self.starts.insert(position, gap.start)?;
        let shorter: Result<_, _> = self.starts.insert(gap.end, position);
        shorter.unwrap();
        Ok(())
    }

    /// Takes the positions from `start` up to `end` out of the gaps, none of which begins before
    /// `start` and ends after it.
    pub(crate) fn close(&mut self, start: u64, end: u64)
        requires some { start < end }
        requires gaps { AreRunsIn 0 (2 ^ 64) self.old }
        requires whole { crosses_one start self.old ≡ false }
        ensures { self.new ≡ without start end self.old }
    {
        for _ in 0..self.starts.len() {
            let Some(gap) = self.after(start) else {
                return;
            };
            if end <= gap.start {
                return;
            }
            if end < gap.end {
                let shorter: Result<_, _> = self.starts.insert(gap.end, end);
                shorter.unwrap();
                return;
            }
            self.starts.remove(&gap.end);
        }
    }
}
