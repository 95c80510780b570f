//! How much a run may read.

/// The greatest number of reads of a run.
pub const READ_COUNT_LIMIT: u64 = 1 << 40;
