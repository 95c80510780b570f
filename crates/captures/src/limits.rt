//! How much a run takes.
use line_grammar::TIMED_LINE_LIMIT;

/// The bytes of the shortest capture there is: a file header.
pub const FIRST_UNIT_LEN: usize = 24;

/// The bytes at most of a block of a pcapng file that is read: a section header, an interface
/// description or a packet. Any other block is skipped, whatever its length.
pub const BLOCK_LIMIT: usize = INPUT_CAPACITY;

/// The bytes that a run holds at most of what it has read.
pub const INPUT_CAPACITY: usize = 262_144;

/// The bytes that a run requests from a reader at once. What it makes of them is written before the
/// next read, so it mostly needs no more space for lines than these take.
pub const READ_CHUNK: usize = 65_536;

/// The bytes at most of a line that gives a frame: after its time comes a space, and a length on the
/// wire of ten digits.
pub const CAPTURED_LINE_LIMIT: usize = TIMED_LINE_LIMIT + 11;

/// The captured bytes at most of a packet that is passed over, as a packet record is held whole.
pub const SKIPPED_LIMIT: usize = INPUT_CAPACITY - 16;

/// The bytes of lines that are made of this many bytes at most. They are reserved, and cleared as
/// far as they are needed.
pub const OUTPUT_CAPACITY: usize = 5 * INPUT_CAPACITY;

/// The last nanosecond since the year 1970 began whose seconds fit 32 bits.
pub const TIME_LIMIT: u64 = 4_294_967_295_999_999_999;
