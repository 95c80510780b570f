//! What the programs that read captures share: the arguments of each (`captures_arguments`,
//! `packets_arguments`); their inputs, what one looks like by its first bytes; an output that may be
//! closed; what they report on standard error, also how much is read; and the exit status. All that
//! `captures_cli` does beyond these is there, too (`captures_program`).
#![tactic(auto)]

mod arguments;
pub mod captures_arguments;
pub mod captures_program;
mod closable_writer;
mod ending;
mod exit_status;
mod input;
pub mod laws;
mod looks;
mod notes;
pub mod packets_arguments;
mod parsing;
mod progress;

pub use closable_writer::ClosableWriter;
pub use ending::{Subject, exit_code, failure, report_skipped, unopened};
pub use exit_status::status;
pub use input::Input;
pub use looks::{Look, look_at};
pub use notes::{ReportedError, compression_note, note, opener};
pub use parsing::{parse_failure, words};
pub use progress::{ProgressLine, ProgressReader, len_of};
