//! How the line of a packet looks.

use crate::show::shown_bytes::ShownBytes;
use header_descriptions::show::{Style, TimeForm};

/// How the line of a packet looks.
#[derive(Clone, Copy, Debug, PartialEq, Eq)]
pub struct ShowOptions {
    /// Whether it has colours.
    pub style: Style,
    /// Which time it has.
    pub time: TimeForm,
    /// How many columns it has at most, if it is cut.
    pub width: Option<usize>,
    /// Whether it has the hardware addresses of the link also where it has others.
    pub link: bool,
    /// Which bytes of the packet are below it.
    pub bytes: ShownBytes,
}
