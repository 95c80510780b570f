//! Payloads of Linux cooked captures, with their protocols.
ghost use Rattle.std.specs.Prelude.{◌≡◌, nat_eq};
ghost use Rattle.std.specs.Cmp.Lexicographic.{pointwise};
ghost use Rattle.std.specs.Cmp.Rules.{comparing};
ghost use Rattle.std.specs.Ordering.{on};
ghost use Rattle.std.proofs.Common.{rules};
ghost use Rattle.ep_link.specs.declared.link.linux_sll_protocol_type.LinuxSllProtocolType.TheVariants as variant;
ghost use Rattle.ep_link.specs.SllPayload.{SllPayload, compared_as, as_ether_payload, named_payload};

use super::LinuxSllProtocolType;
use ep_base::LenSource;
use ep_tag::EtherPayloadSlice;
use std::marker::Model;

/// The bytes after the header of a Linux cooked capture, borrowed.
#[derive(Clone, Debug, Drop)]
pub struct LinuxSllPayloadSlice<'a> {
    /// What the bytes are.
    pub protocol_type: LinuxSllProtocolType,
    /// The bytes.
    pub payload: &'a [u8],
}

impl<'a> Model for LinuxSllPayloadSlice<'a> {
    ghost Value = { SllPayload };

    ghost view = { λ p. record { protocol_type = p.protocol_type; payload = p.payload.now } };
}

impl<'a> LinuxSllPayloadSlice<'a> {
    // The same bytes after an ether type, where the protocol is one.
    pub(super) fn ether_payload(&self) -> Option<EtherPayloadSlice<'a>>
        ensures { result ≡ named_payload self.now }
    {
        match self.protocol_type {
            LinuxSllProtocolType::EtherType(ether_type) => Some(EtherPayloadSlice {
                ether_type,
                len_source: LenSource::Slice,
                payload: self.payload,
            }),
            _ => None,
        }
    }
}

impl<'a> PartialEq for LinuxSllPayloadSlice<'a> {
    ghost eq = { on compared_as (pointwise nat_eq) };

    ghost laws = { Prim.search (comparing, rules) };

    fn eq(&self, other: &Self) -> bool {
        self.protocol_type == other.protocol_type && self.payload == other.payload
    }
}

impl<'a> Eq for LinuxSllPayloadSlice<'a> {
    ghost laws = { Prim.search (comparing, rules) };
}

impl<'a> TryFrom<LinuxSllPayloadSlice<'a>> for EtherPayloadSlice<'a> {
    type Error = ();

    ghost try_from_gives = { λ p r. r ≡ as_ether_payload p };

    /// The same bytes after an ether type, where the protocol is one. Else the error is `()`.
    fn try_from(payload: LinuxSllPayloadSlice<'a>) -> Result<EtherPayloadSlice<'a>, ()> {
        payload.ether_payload().ok_or(())
    }
}

impl<'a> From<EtherPayloadSlice<'a>> for LinuxSllPayloadSlice<'a> {
    ghost from_gives = { λ p r. r
        ≡ record { protocol_type = variant.EtherType p.ether_type; payload = p.payload } };

    /// The same bytes; what bounds them is dropped.
    fn from(payload: EtherPayloadSlice<'a>) -> Self {
        LinuxSllPayloadSlice {
            protocol_type: LinuxSllProtocolType::EtherType(payload.ether_type),
            payload: payload.payload,
        }
    }
}
