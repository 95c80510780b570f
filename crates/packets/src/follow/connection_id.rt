//! The endpoints of a TCP connection.

use crate::flows::conversation::Conversation;
use crate::show::endpoints::Ports;
use ep_base::IpNumber;
use ep_packet::Addresses;
use std::net::{IpAddr, Ipv4Addr, Ipv6Addr};

/// The endpoints of TCP connections, in the order in which they are named.
#[derive(Clone, Copy, Debug)]
pub struct ConnectionId {
    /// From the first one to the second.
    pub conversation: Conversation,
}

impl ConnectionId {
    /// The endpoints that a text names: `HOST:PORT-HOST:PORT`, where an IPv6 address has brackets
    /// around it, or `HOST.PORT-HOST.PORT`, as tcpdump prints them. In place of `-` there may be
    /// ` > `, and ` TCP` after the second one, as `packets flows` lists them. There are none where it
    /// is no such text, and where the addresses have different versions. It has no contract: tests
    /// compare what texts name.
    pub fn of(text: &str) -> Option<ConnectionId> {
        let endpoints = text.strip_suffix(" TCP").unwrap_or(text);
        let named = match endpoints.split_once(" > ") {
            Some(named) => Some(named),
            None => endpoints.split_once('-'),
        };
        let Some((first, second)) = named else {
            return None;
        };
        match (endpoint(first), endpoint(second)) {
            (Some((first, source)), Some((second, destination))) => {
                between(
                    first,
                    second,
                    Ports {
                        source,
                        destination,
                    },
                )
            }
            _ => None,
        }
    }
}

fn between(first: IpAddr, second: IpAddr, ports: Ports) -> Option<ConnectionId> {
    let addresses = match (first, second) {
        (IpAddr::V4(first), IpAddr::V4(second)) => Addresses::V4 {
            source: first.octets(),
            destination: second.octets(),
        },
        (IpAddr::V6(first), IpAddr::V6(second)) => Addresses::V6 {
            source: first.octets(),
            destination: second.octets(),
        },
        _ => return None,
    };
    Some(ConnectionId {
        conversation: Conversation {
            addresses,
            ports: Some(ports),
            protocol: IpNumber::TCP,
        },
    })
}

fn endpoint(text: &str) -> Option<(IpAddr, u16)> {
    match after_colon(text) {
        Some(endpoint) => Some(endpoint),
        None => after_dot(text),
    }
}

// With the port after the last dot.
fn after_dot(text: &str) -> Option<(IpAddr, u16)> {
    let bytes = text.as_bytes();
    let mut last = None;
    for (index, byte) in bytes.iter().enumerate() {
        if *byte == b'.' {
            last = Some(index);
        }
    }
    let at = last?;
    let address = text_of(bytes.get(..at));
    let port = text_of(bytes.get(at.saturating_add(1)..));
    match ipv4(address) {
        Some(address) => with_port(Some(address), port),
        None => with_port(ipv6(address), port),
    }
}

fn text_of(bytes: Option<&[u8]>) -> &str {
    match bytes {
        Some(bytes) => str::from_utf8(bytes).unwrap_or(""),
        None => "",
    }
}

// With the port after a colon, and brackets around an IPv6 address.
fn after_colon(text: &str) -> Option<(IpAddr, u16)> {
    match text.strip_prefix("[") {
        Some(text) => match text.split_once("]:") {
            Some((address, port)) => with_port(ipv6(address), port),
            None => None,
        },
        None => match text.split_once(':') {
            Some((address, port)) => with_port(ipv4(address), port),
            None => None,
        },
    }
}

fn ipv4(text: &str) -> Option<IpAddr> {
    match text.parse::<Ipv4Addr>() {
        Ok(address) => Some(IpAddr::V4(address)),
        Err(_) => None,
    }
}

fn ipv6(text: &str) -> Option<IpAddr> {
    match text.parse::<Ipv6Addr>() {
        Ok(address) => Some(IpAddr::V6(address)),
        Err(_) => None,
    }
}

// With a port in decimal digits.
fn with_port(address: Option<IpAddr>, port: &str) -> Option<(IpAddr, u16)> {
    if !port.bytes().all(|byte| byte.is_ascii_digit()) {
        return None;
    }
    match (address, port.parse::<u16>()) {
        (Some(address), Ok(port)) => Some((address, port)),
        _ => None,
    }
}
