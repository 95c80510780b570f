//! Messages that aren't of the transport layer as the library reads it: IGMP, and the ports of SCTP.

use crate::unread_message::sctp_ports;
use ep_base::IpNumber;
use ep_packet::{LaxNetSlice, NetSlice};
use header_descriptions::json::fields::{begin, number};
use header_descriptions::json::groups::igmp;
use serde::Serializer;

/// What is read of the payload of an IP packet that is no fragment. It has no contract: tests compare
/// the texts.
pub(crate) fn payload<S: Serializer>(
    out: &mut S,
    net: &Option<NetSlice<'_>>,
) -> Result<(), S::Error> {
    match net {
        Some(NetSlice::Ipv4(packet)) if !packet.payload().fragmented => {
            message(out, packet.payload().ip_number, packet.payload().payload)
        }
        Some(NetSlice::Ipv6(packet)) if !packet.payload().fragmented => {
            message(out, packet.payload().ip_number, packet.payload().payload)
        }
        _ => Ok(()),
    }
}

/// The same of what is there of a packet that is refused. It has no contract: tests compare the texts.
pub(crate) fn lax_payload<S: Serializer>(
    out: &mut S,
    net: &Option<LaxNetSlice<'_>>,
) -> Result<(), S::Error> {
    match net {
        Some(LaxNetSlice::Ipv4(packet)) if !packet.payload().fragmented => {
            message(out, packet.payload().ip_number, packet.payload().payload)
        }
        Some(LaxNetSlice::Ipv6(packet)) if !packet.payload().fragmented => {
            message(out, packet.payload().ip_number, packet.payload().payload)
        }
        _ => Ok(()),
    }
}

/// What is read of a message of this protocol. It has no contract: tests compare the texts.
pub(crate) fn message<S: Serializer>(
    out: &mut S,
    ip_number: IpNumber,
    bytes: &[u8],
) -> Result<(), S::Error> {
    match ip_number {
        IpNumber::IGMP => igmp(out, bytes),
        IpNumber::SCTP => sctp(out, bytes),
        _ => Ok(()),
    }
}

fn sctp<S: Serializer>(out: &mut S, bytes: &[u8]) -> Result<(), S::Error> {
    let Some(ports) = sctp_ports(bytes) else {
        return Ok(());
    };
    begin(out, "sctp")?;
    number(out, "source_port", ports.source.into())?;
    number(out, "destination_port", ports.destination.into())?;
    out.end_map()
}
