//! Why options can't be written.

use thiserror::Error;

/// Why elements or bytes are no options of a TCP header.
#[derive(Clone, Copy, Debug, PartialEq, Eq, Hash, Error)]
pub enum TcpOptionWriteError {
    /// They need so many bytes, and a header has space for 40.
    #[error("TCP options of {0} byte(s): a header has room for 40")]
    NotEnoughSpace(usize),
}
