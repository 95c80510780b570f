//! Too little space in a slice that is written to.

use super::Layer;
use std::{error, fmt};

/// A slice has fewer bytes than are to be written to it.
#[derive(Clone, Copy, Debug, PartialEq, Eq, Hash)]
pub struct SliceWriteSpaceError {
    /// How many bytes are to be written.
    pub required_len: usize,
    /// How many bytes there are.
    pub len: usize,
    /// The layer that is written.
    pub layer: Layer,
    /// The offset of the layer's first byte in what is written.
    pub layer_start_offset: usize,
}

impl fmt::Display for SliceWriteSpaceError {
    fn fmt<W: fmt::Write>(&self, f: &mut fmt::Formatter<W>) -> fmt::Result {
        let layer = self.layer;
        let required_len = self.required_len;
        let len = self.len;
        let offset = self.layer_start_offset;
        write!(
            f,
            "{layer} Error: Not enough space to write '{layer}' to slice. Needed {required_len} byte(s), but only {len} byte(s) were available"
        )?;
        if offset > 0 {
            write!(f, ", '{layer}' starts at overall written byte {offset}.")
        } else {
            write!(f, ".")
        }
    }
}

impl error::Error for SliceWriteSpaceError {}
