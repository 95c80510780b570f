//! Conversations as text.

use crate::Protocol;
use crate::flows::conversation::Conversation;
use crate::flows::counted_flows::CountedFlows;
use crate::flows::row::Row;
use crate::show::endpoints::Ports;
use captures::Skipped;
use ep_packet::Addresses;
use header_descriptions::show::seconds::between;
use header_descriptions::show::time::utc_text;
use std::hash::BuildHasher;
use std::net::{Ipv4Addr, Ipv6Addr};
use std::{fmt, str};

// `>` is the direction of a conversation's first packet, `<` the other one.
const TITLES: &str =
    " packets>        bytes>  <packets        <bytes       first        last    duration  TCP   conversation";

/// The conversations of captures as a table. It has no contract: tests compare the texts.
#[derive(Drop)]
pub struct FlowTable<'f, S: BuildHasher> {
    /// The conversations.
    pub flows: &'f CountedFlows<S>,
    /// The indices of those that are listed.
    pub indices: &'f [usize],
    /// How many packets were passed over.
    pub skipped: Skipped,
}

impl<S: BuildHasher> fmt::Display for FlowTable<'_, S> {
    fn fmt<W: fmt::Write>(&self, f: &mut fmt::Formatter<W>) -> fmt::Result {
        self.write_rows(f)?;
        self.write_left_out(f)?;
        if self.skipped != Skipped::NONE {
            let skipped = self.skipped;
            writeln!(f, "passed over: {skipped}")?;
        }
        Ok(())
    }
}

impl<S: BuildHasher> FlowTable<'_, S> {
    /// The rows, and from when on their times count. It has no contract: tests compare the texts.
    pub(crate) fn write_rows<W: fmt::Write>(&self, f: &mut fmt::Formatter<W>) -> fmt::Result {
        let Some(begin) = earliest(self.flows) else {
            return writeln!(f, "no conversations");
        };
        writeln!(f, "{TITLES}")?;
        for index in self.indices {
            if let Some(row) = self.flows.row(*index) {
                write_row(f, &row, begin)?;
            }
        }
        let more = self.flows.len().saturating_sub(self.indices.len());
        if more > 0 {
            writeln!(f, "and {more} more")?;
        }
        let begin = utc_text(begin);
        writeln!(f, "\nfirst and last are seconds since {begin}")
    }

    fn write_left_out<W: fmt::Write>(&self, f: &mut fmt::Formatter<W>) -> fmt::Result {
        let refused = self.flows.refused.packets;
        let without_ip = self.flows.without_ip.packets;
        if refused == 0 && without_ip == 0 {
            return Ok(());
        }
        writeln!(
            f,
            "packets in no conversation: {refused} refused, {without_ip} without an IP header"
        )
    }
}

// The time of the earliest packet of all.
fn earliest<S: BuildHasher>(flows: &CountedFlows<S>) -> Option<u64> {
    let mut earliest: Option<u64> = None;
    for index in 0..flows.len() {
        if let Some(row) = flows.row(index) {
            earliest = match (earliest, row.period.earliest) {
                (Some(one), Some(other)) => Some(one.min(other)),
                (None, other) => other,
                (one, None) => one,
            };
        }
    }
    earliest
}

fn write_row<W: fmt::Write>(f: &mut fmt::Formatter<W>, row: &Row, begin: u64) -> fmt::Result {
    let (forward, backward) = (row.forward, row.backward);
    let (packets, bytes) = (forward.packets, forward.bytes);
    write!(f, "{packets:>9} {bytes:>13} ")?;
    let (packets, bytes) = (backward.packets, backward.bytes);
    write!(f, "{packets:>9} {bytes:>13} ")?;
    let (earliest, latest) = (
        row.period.earliest.unwrap_or(0),
        row.period.latest.unwrap_or(0),
    );
    write_seconds(f, begin, earliest)?;
    write_seconds(f, begin, latest)?;
    write_seconds(f, earliest, latest)?;
    let column = match row.tcp_column() {
        Some(column) => column.name(),
        None => "",
    };
    write!(f, " {column:<4}  ")?;
    let ends = Ends {
        conversation: row.conversation,
    };
    writeln!(f, "{ends}")
}

fn write_seconds<W: fmt::Write>(f: &mut fmt::Formatter<W>, from: u64, to: u64) -> fmt::Result {
    let seconds = between(from, to);
    let seconds = str::from_utf8(&seconds).unwrap_or("");
    write!(f, "{seconds:>11} ")
}

/// The ends of a conversation and its protocol. It has no contract: tests compare the texts.
#[derive(Clone, Copy)]
pub(crate) struct Ends {
    pub conversation: Conversation,
}

impl fmt::Display for Ends {
    fn fmt<W: fmt::Write>(&self, f: &mut fmt::Formatter<W>) -> fmt::Result {
        write_ends(f, &self.conversation)?;
        let protocol = Protocol::OverIp(self.conversation.protocol);
        write!(f, " {protocol}")
    }
}

fn write_ends<W: fmt::Write>(
    f: &mut fmt::Formatter<W>,
    conversation: &Conversation,
) -> fmt::Result {
    let (from, to) = match conversation.ports {
        Some(
            Ports {
                source,
                destination,
            },
        ) => (Some(source), Some(destination)),
        None => (None, None),
    };
    match conversation.addresses {
        Addresses::V4 {
            source,
            destination,
        } => {
            write_end(f, Ipv4Addr::from(source), from)?;
            f.write_str(" > ")?;
            write_end(f, Ipv4Addr::from(destination), to)
        }
        Addresses::V6 {
            source,
            destination,
        } => {
            write_end(f, Ipv6Addr::from(source), from)?;
            f.write_str(" > ")?;
            write_end(f, Ipv6Addr::from(destination), to)
        }
    }
}

fn write_end<W: fmt::Write>(
    f: &mut fmt::Formatter<W>,
    address: impl fmt::Display + Drop,
    port: Option<u16>,
) -> fmt::Result {
    write!(f, "{address}")?;
    match port {
        Some(port) => write!(f, ".{port}"),
        None => Ok(()),
    }
}
