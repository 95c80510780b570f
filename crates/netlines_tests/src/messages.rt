//! Messages: read and judged, posted and sealed.

pub mod post;
mod post_refusals;
pub mod sealing;
mod verdicts;
