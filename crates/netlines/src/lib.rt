//! Answers lines of frames and `forget` lines, each by one line, in runs over a reader and a
//! writer; makes frames of messages and seals messages by their checksums. What is proved of the
//! answers as a whole are the laws in [`laws`].
#![tactic(auto)]

mod frames;
pub mod laws;
mod letter;
mod messages;
mod pairs;
mod post_error;
mod program;
mod seal_error;

pub use checksum_verdicts::{Verdict, judge};
pub use device_runs::device;
pub use etherparse::defrag::IpFragVersionSpecId;
pub use etherparse::{Addresses, Message, VlanId, read_message};
pub use frames::frame_answerer::FrameAnswerer;
pub use frames::run_frames::{
    answers, run, run_bounded, run_over, run_over_with_hasher, run_with_hasher,
};
pub use letter::Letter;
pub use lines::{
    ANSWER_CAPACITY, Answerer, LINE_LIMIT, READ_COUNT_LIMIT, READ_SIZE_LIMIT, RunError, run_with,
};
pub use messages::post_message::post;
pub use messages::sealed_message::seal_message;
pub use pairs::two_runs;
pub use post_error::PostError;
pub use program::{answer_input, exit_code, fault_name};
pub use seal_error::SealError;
