//! What goes over the connections of conversations, as text.

use crate::flows::followed_flows::FollowedFlows;
use crate::flows::stream_row::StreamRow;
use crate::flows::text::Ends;
use crate::follow::event_text::state_text;
use std::fmt;
use std::hash::BuildHasher;
use tcp_streams::StreamCounts;

// `>` is the direction of a conversation's first packet, `<` the other one.
const TITLES: &str =
    " repeated>   gaps>    missing>  conflicts>   <repeated   <gaps    <missing  <conflicts  state                 conversation";

/// The conversations over TCP that are listed as a table. It has no contract: tests compare the texts.
#[derive(Drop)]
pub struct StreamTable<'f, S: BuildHasher> {
    /// The conversations, followed.
    pub followed: &'f FollowedFlows<S>,
    /// The indices of those that are listed.
    pub indices: &'f [usize],
}

impl<S: BuildHasher> fmt::Display for StreamTable<'_, S> {
    fn fmt<W: fmt::Write>(&self, f: &mut fmt::Formatter<W>) -> fmt::Result {
        let mut is_first = true;
        for index in self.indices {
            if let Some(row) = self.followed.flows.row(*index) {
                if let Some(stream) = StreamRow::of(&row, &self.followed.streams) {
                    if is_first {
                        writeln!(f, "\n{TITLES}")?;
                    }
                    is_first = false;
                    let ends = Ends {
                        conversation: row.conversation,
                    };
                    write_row(f, &stream, ends)?;
                }
            }
        }
        Ok(())
    }
}

fn write_row<W: fmt::Write>(
    f: &mut fmt::Formatter<W>,
    stream: &StreamRow,
    ends: Ends,
) -> fmt::Result {
    write_counts(f, stream.forward)?;
    write_counts(f, stream.backward)?;
    let state = match stream.state {
        Some(state) => state_text(state),
        None => "",
    };
    write!(f, " {state:<20}  {ends}")?;
    if stream.is_followed {
        writeln!(f)
    } else {
        writeln!(f, ", not followed to the end")
    }
}

fn write_counts<W: fmt::Write>(f: &mut fmt::Formatter<W>, counts: StreamCounts) -> fmt::Result {
    let (repeated, gaps) = (counts.repeated, counts.gaps);
    write!(f, "{repeated:>10} {gaps:>7} ")?;
    let (missing, conflicts) = (counts.missing, counts.conflicts);
    write!(f, "{missing:>11} {conflicts:>11} ")
}
