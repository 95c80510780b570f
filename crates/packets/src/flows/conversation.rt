//! What goes between two ends over a protocol.
ghost use Rattle.std.proofs.Common.{rules};
ghost use Rattle.std.specs.Cmp.Rules.{hashing};
ghost use Rattle.std.specs.Prelude.{◌≡◌};
ghost use Rattle.packets.specs.Conversations.{address_order, ascends, conversation_between, from_lower, order_of_ports};
ghost use Rattle.packets.specs.Conversations.{hashed_as, turned, turned_addresses, turned_ports};

use crate::show::endpoints::Ports;
use crate::{Net, Outline};
use ep_base::IpNumber;
use ep_packet::Addresses;
use std::cmp::Ordering;
use std::hash::{Hash, Hasher};

/// The ends of packets and the protocol that IP carries between them, in one direction.
#[derive(Clone, Copy, Debug, PartialEq, Eq)]
pub struct Conversation {
    /// The addresses.
    pub addresses: Addresses,
    /// The ports of TCP, UDP or SCTP.
    pub ports: Option<Ports>,
    /// The protocol.
    pub protocol: IpNumber,
}

impl Conversation {
    /// That of a packet with these ports, in its direction. There is none where it has no IP header,
    /// and where it is refused, unless it was cut.
    pub(crate) fn between(packet: &Outline, ports: Option<Ports>) -> Option<Conversation>
        ensures { result ≡ conversation_between packet.now ports }
    {
        if packet.is_left_out() {
            return None;
        }
        match packet.headers.net {
            Some(Net::Ip(addresses, protocol)) => Some(Conversation {
                addresses,
                ports,
                protocol,
            }),
            _ => None,
        }
    }

    /// The other direction.
    pub fn turned(&self) -> Conversation
        ensures { result ≡ turned self.now }
    {
        Conversation {
            addresses: turned_addresses(self.addresses),
            ports: turned_ports(self.ports),
            protocol: self.protocol,
        }
    }

    /// Whether it goes from the lower end to the higher one: by the bytes of addresses, and then by
    /// ports.
    pub(crate) fn ascends(&self) -> bool
        ensures { result ≡ ascends self.now }
    {
        match address_order(&self.addresses) {
            Ordering::Less => true,
            Ordering::Equal => !matches!(order_of_ports(self.ports), Ordering::Greater),
            Ordering::Greater => false,
        }
    }

    /// The direction from the lower end.
    pub(crate) fn from_lower(&self) -> Conversation
        ensures { result ≡ from_lower self.now }
    {
        if self.ascends() { *self } else { self.turned() }
    }
}

// A derived `Hash` writes an array byte by byte.
impl Hash for Conversation {
    ghost hash_input = { hashed_as };

    ghost respects_eq = { Prim.search (hashing, rules) };

    fn hash<H: Hasher>(&self, state: &mut H) {
        match &self.addresses {
            Addresses::V4 {
                source,
                destination,
            } => {
                state.write(source);
                state.write(destination);
            }
            Addresses::V6 {
                source,
                destination,
            } => {
                state.write(source);
                state.write(destination);
            }
        }
        if let Some(ports) = self.ports {
            state.write_u16(ports.source);
            state.write_u16(ports.destination);
        }
        state.write_u8(self.protocol.0);
    }
}

fn turned_addresses(addresses: Addresses) -> Addresses
    ensures { result ≡ turned_addresses addresses }
{
    match addresses {
        Addresses::V4 {
            source,
            destination,
        } => Addresses::V4 {
            source: destination,
            destination: source,
        },
        Addresses::V6 {
            source,
            destination,
        } => Addresses::V6 {
            source: destination,
            destination: source,
        },
    }
}

fn turned_ports(ports: Option<Ports>) -> Option<Ports>
    ensures { result ≡ turned_ports ports }
{
    match ports {
        Some(ports) => Some(Ports {
            source: ports.destination,
            destination: ports.source,
        }),
        None => None,
    }
}

fn address_order(addresses: &Addresses) -> Ordering
    ensures { result ≡ address_order addresses.now }
{
    match addresses {
        Addresses::V4 {
            source,
            destination,
        } => source.cmp(destination),
        Addresses::V6 {
            source,
            destination,
        } => source.cmp(destination),
    }
}

fn order_of_ports(ports: Option<Ports>) -> Ordering
    ensures { result ≡ order_of_ports ports }
{
    match ports {
        Some(ports) => ports.source.cmp(&ports.destination),
        None => Ordering::Equal,
    }
}
