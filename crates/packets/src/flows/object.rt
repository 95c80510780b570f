//! Conversations as a JSON object. The functions have no contracts: tests compare the texts.

use crate::flows::conversation_counts::DirectionCounts;
use crate::flows::followed_flows::FollowedFlows;
use crate::flows::row::Row;
use crate::flows::stream_row::StreamRow;
use crate::follow::event_object::state_name;
use ep_packet::Addresses;
use header_descriptions::json::fields::{
    begin, flag, ipv4_address, number, numbers, printed, text,
};
use serde::{Described, Serialize, Serializer};
use std::hash::BuildHasher;
use std::net::Ipv6Addr;
use tcp_streams::StreamCounts;

/// The conversations of captures as an object. It has no contract: tests compare the texts.
#[derive(Drop)]
pub struct FlowObject<'f, S: BuildHasher> {
    /// The conversations, followed.
    pub followed: &'f FollowedFlows<S>,
    /// The indices of those that are listed.
    pub indices: &'f [usize],
}

impl<S: BuildHasher> Described for FlowObject<'_, S> {}

impl<H: BuildHasher> Serialize for FlowObject<'_, H> {
    fn serialize<S: Serializer>(&self, out: &mut S) -> Result<(), S::Error> {
        out.begin_map(None)?;
        let flows = &self.followed.flows;
        number(out, "packets", flows.all.packets)?;
        number(out, "refused", flows.refused.packets)?;
        number(out, "without_ip", flows.without_ip.packets)?;
        number(out, "conversation_count", flows.len() as u64)?;
        out.key("conversations")?;
        out.begin_seq(None)?;
        for index in self.indices {
            if let Some(row) = flows.row(*index) {
                object(out, &row, StreamRow::of(&row, &self.followed.streams))?;
            }
        }
        out.end_seq()?;
        out.end_map()
    }
}

fn object<S: Serializer>(
    out: &mut S,
    row: &Row,
    stream: Option<StreamRow>,
) -> Result<(), S::Error> {
    out.begin_map(None)?;
    ends(out, row)?;
    let (forward, backward) = match stream {
        Some(stream) => (Some(stream.forward), Some(stream.backward)),
        None => (None, None),
    };
    direction(out, "forward", &row.forward, forward)?;
    direction(out, "backward", &row.backward, backward)?;
    number(out, "first", row.period.earliest.unwrap_or(0))?;
    number(out, "last", row.period.latest.unwrap_or(0))?;
    number(out, "duration", row.duration())?;
    if let Some(column) = row.tcp_column() {
        text(out, "tcp", column.name())?;
    }
    if let Some(stream) = stream {
        if let Some(state) = stream.state {
            text(out, "state", state_name(state))?;
        }
        flag(out, "followed", stream.is_followed)?;
    }
    out.end_map()
}

// The addresses and the ports, and the protocol.
fn ends<S: Serializer>(out: &mut S, row: &Row) -> Result<(), S::Error> {
    match row.conversation.addresses {
        Addresses::V4 {
            source,
            destination,
        } => {
            ipv4_address(out, "source", source)?;
            ipv4_address(out, "destination", destination)?;
        }
        Addresses::V6 {
            source,
            destination,
        } => {
            printed(out, "source", &Ipv6Addr::from(source))?;
            printed(out, "destination", &Ipv6Addr::from(destination))?;
        }
    }
    if let Some(ports) = row.conversation.ports {
        number(out, "source_port", ports.source.into())?;
        number(out, "destination_port", ports.destination.into())?;
    }
    number(out, "ip_number", row.conversation.protocol.0.into())
}

fn direction<S: Serializer>(
    out: &mut S,
    name: &str,
    direction: &DirectionCounts,
    counts: Option<StreamCounts>,
) -> Result<(), S::Error> {
    begin(out, name)?;
    let members = [("packets", direction.packets), ("bytes", direction.bytes)];
    numbers(out, &members)?;
    if let Some(counts) = counts {
        let members = [
            ("repeated", counts.repeated),
            ("gaps", counts.gaps),
            ("missing", counts.missing),
            ("conflicts", counts.conflicts),
        ];
        numbers(out, &members)?;
    }
    out.end_map()
}
