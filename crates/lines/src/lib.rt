//! Lines of a text that is read in chunks, each answered by one line, whatever they mean.
#![tactic(auto)]

mod answer_buffer;
mod answer_runs;
mod answerer;
mod in_memory;
pub mod laws;
mod limits;
mod line_answerer;
mod run_error;
mod session;

pub use answer_runs::run_with;
pub use answerer::Answerer;
pub use device_runs::READ_COUNT_LIMIT;
pub use in_memory::answers_by;
pub use limits::{ANSWER_CAPACITY, LINE_LIMIT, READ_SIZE_LIMIT};
pub use line_answerer::LineAnswerer;
pub use run_error::RunError;
pub use session::{Session, Waiting};
