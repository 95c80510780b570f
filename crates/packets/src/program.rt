//! What `packets_cli` does, without the system that it runs on: what its command line requests,
//! what it writes, and how it ends.

mod argument_values;
mod ending;
mod outputs;

pub use argument_values::{
    Coloring, LineRequest, Output, RequestError, Requested, SizeError, requested_by,
};
pub use capture_programs::packets_arguments::command;
pub use ending::{exit_code, goes_on, report_dropped};
pub use outputs::{
    write_capture_flushed, write_flows, write_flushed, write_follow_end, write_followed_flushed,
    write_page, write_records_flushed, write_summary,
};
