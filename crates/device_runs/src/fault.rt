//! How a call ends a run.

/// How a call ends a run.
#[derive(Clone, Copy, Debug, PartialEq, Eq)]
pub enum Fault {
    /// A read failed, with an error of any kind.
    ReadFailed,
    /// A write failed, with an error of any kind.
    WriteFailed,
    /// A write of some bytes took none of them.
    NothingTaken,
}
