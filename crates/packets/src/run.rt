//! Runs over the packets of a capture.

pub(crate) mod count_flows;
pub(crate) mod line_writer;
pub(crate) mod omitted;
pub(crate) mod output;
pub(crate) mod progress;
pub(crate) mod record_writer;
pub(crate) mod rules;
pub(crate) mod summarize;
pub(crate) mod visit_all;
pub(crate) mod walk;
