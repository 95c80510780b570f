//! How long lines, reads and answers are.

/// The bytes at most of a line that requests something, without the 0a that ends it. A run takes
/// lines of any length.
pub const LINE_LIMIT: usize = 200_000;

/// The size of a read's buffer in bytes.
pub const READ_SIZE_LIMIT: usize = 65_536;

/// The bytes of an answer and its 0a at most, and some to spare.
pub const ANSWER_CAPACITY: usize = LINE_LIMIT + 32;
