//! What `captures_cli` does but for the system that it runs on: what its words request, what it
//! makes of its input, and how it ends.

mod ending;
mod making;
mod modes;
mod notes;
mod words;

pub use ending::exit_code;
pub use making::make;
pub use modes::Mode;
pub use notes::note;
pub use words::{Requested, requested_by};
