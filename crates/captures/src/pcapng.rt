//! Sections of pcapng files and their blocks.

pub(crate) mod block;
pub(crate) mod long_block;
pub(crate) mod section;
pub(crate) mod section_unit;
