//! Runs from captures to lines and back: what is taken of the input, chunk by chunk, and how a run
//! ends.

pub(crate) mod progress;
pub(crate) mod refusal;
pub(crate) mod run_captures;
pub(crate) mod run_error;
pub(crate) mod run_lines;
pub(crate) mod translator;
pub(crate) mod units;
