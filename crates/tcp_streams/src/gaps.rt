//! Positions of a stream whose bytes are missing.

ghost use Rattle.std.specs.Prelude.{◌≡◌, ◌-◌, ◌<◌, ◌≤◌, ◌^◌, [], length, false};
ghost use Rattle.std.specs.Prelude.{drop, slice_get, take, IfSome, IsOk, OnErr, OnOk};
ghost use Rattle.tcp_streams.specs.Gaps.{AreRunsIn, gap_after, is_missing, crosses_one, missing_from, split_at, with_gap, without};
ghost use Rattle.tcp_streams.specs.PlacedSegments.{count_from};

use super::gap_tree::GapTree;
use std::alloc::{AllocError, Global};
use std::marker::Model;

/// Positions whose bytes are missing.
#[derive(Clone, Copy, Debug, PartialEq, Eq)]
pub struct Gap {
    /// The first of them.
    pub start: u64,
    /// The position after the last one.
    pub end: u64,
}

/// Gaps in the order of their positions. The cost of finding one, of adding one and of taking one
/// out is logarithmic in their number. Where there is no memory for a call, nothing changes.
#[derive(Debug, Drop)]
pub(crate) struct Gaps {
    // Beside the tree, so that a gap takes no memory where there was none.
    first: Option<Gap>,
    // The others: all of them where it is `None`.
    rest: GapTree,
}

impl Model for Gaps {
    ghost use Rattle.std.specs.Prelude.{List};
    ghost use Rattle.tcp_streams.specs.declared.gaps.Gap.{Gap};
    ghost use Rattle.tcp_streams.specs.Gaps.{with_first};

    ghost Value = { List Gap };

    ghost view = { λ gaps. with_first gaps.first gaps.rest };
}

impl Gaps {
    pub(crate) fn new(alloc: Global) -> Gaps
        ensures { result ≡ [] }
    {
        Gaps {
            first: None,
            rest: GapTree::new(alloc),
        }
    }

    /// How many there are.
    pub(crate) fn count(&self) -> usize
        ensures { result ≡ length self.now }
    {
        match self.first {
            Some(_) => 1 + self.rest.count(),
            None => self.rest.count(),
        }
    }

    /// The one that begins before all others.
    pub(crate) fn first(&self) -> Option<Gap>
        ensures { result ≡ slice_get self.now 0 }
    {
        match self.first {
            Some(gap) => Some(gap),
            None => self.rest.first(),
        }
    }

    /// The first one that ends after a position.
    pub(crate) fn after(&self, position: u64) -> Option<Gap>
        ensures { result ≡ gap_after position self.now }
    {
        match self.first {
            Some(gap) if position < gap.end => Some(gap),
            _ => self.rest.after(position),
        }
    }

    /// The first positions from one on and up to another that are missing: what one gap has of them.
    pub(crate) fn missing_from(&self, position: u64, end: u64) -> Option<Gap>
        requires { AreRunsIn 0 (2 ^ 64) self.now }
        ensures gap { result ≡ missing_from position end self.now }
        // In numbers, for callers that slice by them.
        ensures within { IfSome result (λ gap.
            (position ≤ gap.start) × (gap.start < gap.end) × (gap.end ≤ end)) }
    {
        let Some(gap) = self.after(position) else {
            return None;
        };
        let start = gap.start.max(position);
        if end <= start {
            return None;
        }
        Some(Gap {
            start,
            end: gap.end.min(end),
        })
    }

    /// How many of the positions from `start` up to `end` are missing.
    pub(crate) fn count_missing(&self, start: u64, end: u64) -> u64
        requires order { start ≤ end }
        requires gaps { AreRunsIn 0 (2 ^ 64) self.now }
        ensures { result ≡ count_from (is_missing self.now) start (end - start) }
    {
        let mut count = 0;
        let mut position = start;
        for _ in start..end {
            let Some(gap) = self.missing_from(position, end) else {
                return count;
            };
            count += gap.end - gap.start;
            position = gap.end;
        }
        count
    }

    /// Removes the first one, if there is one.
    pub(crate) fn remove_first(&mut self)
        ensures { self.new ≡ drop 1 self.old }
    {
        if self.first.take().is_none() {
            self.rest.remove_first();
        }
    }

    /// Removes the last one, if there is one.
    pub(crate) fn remove_last(&mut self)
        ensures { self.new ≡ take (length self.old - 1) self.old }
    {
        if self.rest.is_empty() {
            self.first = None;
        } else {
            self.rest.remove_last();
        }
    }

    /// Adds a gap after all others unless it is empty.
    pub(crate) fn push_last(&mut self, start: u64, end: u64) -> Result<(), AllocError>
        requires { AreRunsIn 0 start self.old }
        ensures ok { OnOk result (self.new ≡ with_gap start end self.old) }
        ensures err { OnErr result (self.new ≡ self.old) }
        ensures none { end ≤ start → IsOk result }
        ensures only { self.old ≡ [] → IsOk result }
    {
        if self.first.is_some() || !self.rest.is_empty() {
            return self.rest.push_last(start, end);
        }
        if start < end {
            self.first = Some(Gap { start, end });
        }
        Ok(())
    }

    // Makes two gaps of the one that has positions before this one, and this one.
    fn split(&mut self, position: u64) -> Result<(), AllocError>
        requires { AreRunsIn 0 (2 ^ 64) self.old }
        ensures ok { OnOk result (self.new ≡ split_at position self.old) }
        ensures err { OnErr result (self.new ≡ self.old) }
        ensures succeeds { crosses_one position self.old ≡ false → IsOk result }
    {
        let Some(gap) = self.first else {
            return self.rest.split(position);
        };
        if gap.end <= position {
            return self.rest.split(position);
        }
        if gap.start < position {
            self.rest.push_first(Gap {
                start: position,
                end: gap.end,
            })?;
            self.first = Some(Gap {
                start: gap.start,
                end: position,
            });
        }
        Ok(())
    }

    /// Adds a gap after all others unless it is empty. Then makes two gaps of the one that has
    /// positions before `position`, and `position`.
    pub(crate) fn open(&mut self, start: u64, end: u64, position: u64) -> Result<(), AllocError>
        requires gaps { AreRunsIn 0 start self.old }
        ensures ok { OnOk result (self.new ≡ split_at position (with_gap start end self.old)) }
        ensures err { OnErr result (self.new ≡ self.old) }
        ensures succeeds { end ≤ start → crosses_one position self.old ≡ false → IsOk result }
    {
        self.push_last(start, end)?;
        if let Err(error) = self.split(position) {
            if start < end {
                self.remove_last();
            }
            return Err(error);
        }
        Ok(())
    }

    /// Takes the positions from `start` up to `end` out of the gaps, none of which begins before
    /// `start` and ends after it.
    pub(crate) fn close(&mut self, start: u64, end: u64)
        requires some { start < end }
        requires gaps { AreRunsIn 0 (2 ^ 64) self.old }
        requires whole { crosses_one start self.old ≡ false }
        ensures { self.new ≡ without start end self.old }
    {
        let Some(gap) = self.first else {
            self.rest.close(start, end);
            return;
        };
        if start < gap.end {
            if end <= gap.start {
                return;
            }
            if end < gap.end {
                self.first = Some(Gap {
                    start: end,
                    end: gap.end,
                });
                return;
            }
            self.first = None;
        }
        self.rest.close(start, end);
    }
}
