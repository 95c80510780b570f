//! Conversations, counted.

pub(crate) mod conversation;
pub(crate) mod conversation_counts;
pub(crate) mod counted_flows;
pub(crate) mod followed_flows;
pub(crate) mod listing;
pub(crate) mod object;
pub(crate) mod row;
pub(crate) mod stream;
pub(crate) mod stream_row;
pub(crate) mod stream_text;
pub(crate) mod streams;
pub(crate) mod tcp_packet;
pub(crate) mod text;
pub(crate) mod transfer;
