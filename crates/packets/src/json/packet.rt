//! The object of a packet.

use crate::json::transport::completed;
use crate::json::{errors, fragment, headers};
use crate::payload::payload_of;
use crate::{Dissection, Fragment};
use ep_packet::SlicedPacket;
use header_descriptions::json::fields::{named, number, text};
use serde::{Described, Serialize, Serializer};
use std::alloc::{AllocError, Global};

/// Writes the objects of packets.
#[derive(Drop)]
pub struct JsonLines {
    alloc: Global,
    payload: bool,
}

impl JsonLines {
    /// Objects that hold the bytes of payloads, or don't. It has no contract: tests compare the texts.
    pub fn new(alloc: Global, payload: bool) -> JsonLines {
        JsonLines { alloc, payload }
    }

    /// Appends the object of a packet to `out`, in one line and without the newline that ends it.
    /// It has no contract: tests compare the texts.
    pub fn write_line(&self, packet: &Dissection<'_>, out: &mut Vec<u8>) -> Result<(), AllocError> {
        let object = PacketObject {
            lines: self,
            packet,
        };
        // The only error is that memory ran out.
        let Ok(bytes) = serde_json::to_vec(self.alloc, &object) else {
            return Err(AllocError);
        };
        out.extend_from_slice(bytes.as_slice())
    }
}

#[derive(Drop)]
struct PacketObject<'p, 'a> {
    lines: &'p JsonLines,
    packet: &'p Dissection<'a>,
}

impl Described for PacketObject<'_, '_> {}

impl Serialize for PacketObject<'_, '_> {
    fn serialize<S: Serializer>(&self, out: &mut S) -> Result<(), S::Error> {
        out.begin_map(None)?;
        self.record(out)?;
        self.content(out)?;
        self.verdicts(out)?;
        out.end_map()
    }
}

impl PacketObject<'_, '_> {
    // What its capture states of it.
    fn record<S: Serializer>(&self, out: &mut S) -> Result<(), S::Error> {
        let packet = self.packet;
        number(out, "number", packet.number)?;
        number(out, "time", packet.time)?;
        number(out, "interface", packet.interface.into())?;
        named(out, "link_type", packet.link)?;
        number(out, "len", packet.len as u64)?;
        number(out, "wire_len", packet.wire_len.into())
    }

    // Its layers; or those that are there, and why it is refused.
    fn content<S: Serializer>(&self, out: &mut S) -> Result<(), S::Error> {
        match &self.packet.layers {
            Ok(layers) => self.layers(layers, out),
            Err(error) => {
                self.lax_layers(out)?;
                errors::member(out, "error", error)
            }
        }
    }

    #[inline(never)]
    fn lax_layers<S: Serializer>(&self, out: &mut S) -> Result<(), S::Error> {
        match &self.packet.lax_layers() {
            Some(layers) => headers::lax_headers(out, layers, self.packet.header.as_ref()),
            None => Ok(()),
        }
    }

    fn verdicts<S: Serializer>(&self, out: &mut S) -> Result<(), S::Error> {
        if let Some(verdict) = self.packet.verdict {
            named(out, "verdict", verdict)?;
        }
        match self.packet.header_verdict() {
            Some(verdict) => named(out, "header_verdict", verdict),
            None => Ok(()),
        }
    }

    fn layers<S: Serializer>(
        &self,
        layers: &SlicedPacket<'_>,
        out: &mut S,
    ) -> Result<(), S::Error> {
        headers::members(out, layers, self.packet.header.as_ref())?;
        let payload = payload_of(layers);
        number(out, "payload_len", payload.len() as u64)?;
        if self.lines.payload {
            self.bytes("payload", payload, out)?;
        }
        match &self.packet.fragment {
            Some(fragment) => self.fragment(fragment, out),
            None => Ok(()),
        }
    }

    fn fragment<S: Serializer>(&self, fragment: &Fragment, out: &mut S) -> Result<(), S::Error> {
        fragment::begin(out, fragment)?;
        if let Fragment::Completes { message, .. } = fragment {
            let bytes = message.payload.as_slice();
            completed(out, message.ip_number, bytes)?;
            if self.lines.payload {
                self.bytes("bytes", bytes, out)?;
            }
        }
        fragment::end(out)
    }

    // Bytes by their hex digits, which may be many.
    fn bytes<S: Serializer>(&self, name: &str, bytes: &[u8], out: &mut S) -> Result<(), S::Error> {
        match hex::encode(self.lines.alloc, bytes) {
            Ok(digits) => text(out, name, digits.as_str()),
            Err(_) => Err(out.custom("out of memory")),
        }
    }
}
