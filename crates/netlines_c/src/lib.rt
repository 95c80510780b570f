//! The calls of `netlines` for C: a text is a pointer and a length.
#![tactic(auto)]

mod answers;
mod frame_session;
mod held;
mod session;

pub use held::Held;
pub use session::NetlinesSession;

/// The answers are written.
pub const ANSWERED: u32 = 0;

/// The output is too short for the answers.
pub const NO_ROOM: u32 = 1;

/// Out of memory.
pub const NO_MEMORY: u32 = 2;

/// The session isn't open, or its text has ended, or it is open already.
pub const WRONG_STATE: u32 = 3;
