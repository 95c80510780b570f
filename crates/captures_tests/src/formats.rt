//! Captures of each format: their blocks, links and times, and captures that are written.

pub mod blocks;
pub mod classic;
mod lengths;
mod limits;
pub mod links;
pub mod long_blocks;
pub mod text;
mod times;
mod written;
