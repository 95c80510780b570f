//! The kinds of TCP options, and the lengths in bytes of those that have one length.

/// The end of the list of options (RFC 9293, section 3.2).
pub const KIND_END: u8 = 0;

/// No operation: padding between options (RFC 9293, section 3.2).
pub const KIND_NOOP: u8 = 1;

/// The maximum segment size (RFC 9293, section 3.2).
pub const KIND_MAXIMUM_SEGMENT_SIZE: u8 = 2;

/// The window scale (RFC 7323, section 2.2).
pub const KIND_WINDOW_SCALE: u8 = 3;

/// Selective acknowledgement permitted (RFC 2018, section 2).
pub const KIND_SELECTIVE_ACK_PERMITTED: u8 = 4;

/// A selective acknowledgement (RFC 2018, section 3), of 10, 18, 26 or 34 bytes.
pub const KIND_SELECTIVE_ACK: u8 = 5;

/// Timestamps (RFC 7323, section 3.2).
pub const KIND_TIMESTAMP: u8 = 8;

/// The length in bytes of the end of the list.
pub const LEN_END: u8 = 1;

/// The length in bytes of a no-operation.
pub const LEN_NOOP: u8 = 1;

/// The length in bytes of a maximum segment size.
pub const LEN_MAXIMUM_SEGMENT_SIZE: u8 = 4;

/// The length in bytes of a window scale.
pub const LEN_WINDOW_SCALE: u8 = 3;

/// The length in bytes of a selective acknowledgement permitted.
pub const LEN_SELECTIVE_ACK_PERMITTED: u8 = 2;

/// The length in bytes of timestamps.
pub const LEN_TIMESTAMP: u8 = 10;
