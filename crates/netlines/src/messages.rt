//! Messages that are sealed by their checksum and made into frames.

pub(crate) mod post_message;
pub(crate) mod posted_frame;
pub(crate) mod sealed_message;
