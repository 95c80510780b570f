//! The answers to the requests of lines, and runs that write them.

pub(crate) mod answer;
pub(crate) mod frame_answerer;
pub(crate) mod output;
pub(crate) mod run_frames;
