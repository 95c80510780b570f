//! Fragments that overlap.

/// What becomes of a fragment that covers an offset of an earlier one, or names an end at or before
/// such an offset.
#[derive(Clone, Copy, Debug, PartialEq, Eq)]
pub enum OverlapRule {
    /// It is taken, and its bytes overwrite those that are there (RFC 791, section 3.2).
    Overwrites,
    /// It is refused, and its datagram is dropped, unless it is the same fragment again (RFC 5722;
    /// RFC 8200, section 4.5).
    Refuses,
}
