//! What is reported of the bytes that go over the connections of a conversation.
ghost use Rattle.std.specs.Prelude.{◌≡◌, option_copied};
ghost use Rattle.std.specs.HashMap.{get};
ghost use Rattle.packets.specs.Streams.{stream_row, stream_row_of};

use crate::flows::conversation::Conversation;
use crate::flows::row::Row;
use crate::flows::stream::Stream;
use crate::flows::streams::Streams;
use crate::flows::tcp_packet::direction_by;
use std::hash::BuildHasher;
use tcp_streams::{ConnectionState, StreamCounts};

/// What is counted of the bytes that go over the connections of a conversation. Its first packet goes
/// forward.
#[derive(Clone, Copy)]
pub(crate) struct StreamRow {
    /// How far the last connection came. There is none of a conversation that isn't followed.
    pub state: Option<ConnectionState>,
    /// The bytes that go in the direction of the first packet.
    pub forward: StreamCounts,
    /// Those that go in the other one.
    pub backward: StreamCounts,
    /// Whether it is followed up to its last segment.
    pub is_followed: bool,
}

impl StreamRow {
    /// That of a row, if it is one of TCP whose ports are known.
    pub(crate) fn of<S: BuildHasher>(row: &Row, streams: &Streams<S>) -> Option<StreamRow>
        ensures { result ≡ stream_row_of (get ⟦<Conversation as PartialEq>⟧.eq streams.now.streams) row.now }
    {
        if row.tcp_column().is_none() {
            return None;
        }
        let conversation = row.conversation;
        Some(stream_row(&conversation, streams.get(&conversation.from_lower())))
    }
}

// Of a conversation in the direction of its first packet.
fn stream_row(conversation: &Conversation, stream: Option<&Stream>) -> StreamRow
    ensures { result ≡ stream_row conversation.now (option_copied stream.entry) }
{
    match stream {
        Some(stream) => {
            let ascends = conversation.ascends();
            StreamRow {
                state: Some(stream.state()),
                forward: stream.counter().counts(direction_by(ascends)),
                backward: stream.counter().counts(direction_by(!ascends)),
                is_followed: stream.counter().is_followed(),
            }
        }
        None => StreamRow {
            state: None,
            forward: StreamCounts::NONE,
            backward: StreamCounts::NONE,
            is_followed: false,
        },
    }
}
