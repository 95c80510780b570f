//! A session over frames.
use lines::Session;
use netlines::FrameAnswerer;

/// Lines of frames that come in chunks.
#[derive(Drop)]
pub struct FrameSession {
    /// The lines, each answered by its frame and those of the lines before it.
    pub session: Session<FrameAnswerer>,
}
