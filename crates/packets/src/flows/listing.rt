//! In which order conversations are listed.

use crate::flows::counted_flows::CountedFlows;
use crate::flows::row::Row;
use std::alloc::{AllocError, Global};
use std::hash::BuildHasher;

/// What conversations are ordered by. Those that are alike come in the order of their first packets.
#[derive(Clone, Copy, Debug, PartialEq, Eq)]
pub enum By {
    /// Their packets in both directions, the most first.
    Packets,
    /// Their bytes in both directions, the most first.
    Bytes,
    /// The time of the earliest packet, the earliest first.
    First,
    /// The time from the earliest packet to the latest, the longest first.
    Duration,
}

// So many conversations are the greatest ones.
const GREATEST_COUNT: usize = 10;

/// Which conversations are listed, and in which order.
#[derive(Clone, Copy, Debug, PartialEq, Eq)]
pub struct Listing {
    /// The order.
    pub by: By,
    /// How many at most.
    pub top: Option<u32>,
    /// As a JSON object, and not as a table.
    pub json: bool,
}

impl Listing {
    /// The indices of the conversations that are listed. It has no contract, since the tables and objects
    /// that are made of them have none: tests compare those.
    pub(crate) fn indices<S: BuildHasher>(
        &self,
        alloc: Global,
        flows: &CountedFlows<S>,
    ) -> Result<Vec<usize>, AllocError> {
        let mut ranks = Vec::with_capacity(alloc, flows.len())?;
        for index in 0..flows.len() {
            if let Some(row) = flows.row(index) {
                ranks.push((self.by.rank(&row), index))?;
            }
        }
        ranks.sort()?;
        let listed = match self.top {
            Some(top) => (top as usize).min(ranks.len()),
            None => ranks.len(),
        };
        let mut indices = Vec::with_capacity(alloc, listed)?;
        for (_, index) in ranks.as_slice().iter().take(listed) {
            indices.push(*index)?;
        }
        Ok(indices)
    }
}

impl By {
    // The least comes first.
    fn rank(self, row: &Row) -> u64 {
        match self {
            By::Packets => u64::MAX - row.packets(),
            By::Bytes => u64::MAX - row.bytes(),
            By::First => row.period.earliest.unwrap_or(0),
            By::Duration => u64::MAX - row.duration(),
        }
    }
}

/// The conversations with the most bytes, ten at most.
#[derive(Clone, Copy)]
pub(crate) struct Greatest {
    indices: [usize; GREATEST_COUNT],
    count: usize,
}

impl Greatest {
    /// Those of these, in the order of [`By::Bytes`]. It takes no memory. It has no contract, nor has
    /// the next, since the reports that are made of them have none: tests compare those.
    pub(crate) fn of<S: BuildHasher>(flows: &CountedFlows<S>) -> Greatest {
        let mut greatest = Greatest {
            indices: [0; GREATEST_COUNT],
            count: 0,
        };
        let mut last = None;
        'slots: for slot in 0..GREATEST_COUNT {
            let Some(next) = next_rank(flows, last) else {
                break 'slots;
            };
            let (_, index) = next;
            greatest.indices[slot] = index;
            greatest.count = slot + 1;
            last = Some(next);
        }
        greatest
    }

    /// Their indices.
    pub(crate) fn indices(&self) -> &[usize] {
        match self.indices.get(..self.count) {
            Some(indices) => indices,
            None => &[],
        }
    }
}

// The least of the ranks after this one, or of all.
fn next_rank<S: BuildHasher>(
    flows: &CountedFlows<S>,
    last: Option<(u64, usize)>,
) -> Option<(u64, usize)> {
    let mut next: Option<(u64, usize)> = None;
    for index in 0..flows.len() {
        if let Some(row) = flows.row(index) {
            let rank = (By::Bytes.rank(&row), index);
            let is_after = match last {
                Some(last) => last < rank,
                None => true,
            };
            let is_first = match next {
                Some(next) => rank < next,
                None => true,
            };
            if is_after && is_first {
                next = Some(rank);
            }
        }
    }
    next
}
