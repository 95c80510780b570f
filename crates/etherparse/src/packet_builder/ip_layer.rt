//! IP headers as a part of a packet.

ghost use Rattle.std.specs.Prelude.{◌≡◌, ◌+◌, ◌≤◌, ◌++◌, length, vec_len, vec_capacity, OnOk, IsOk, MatchOption, Ok};
ghost use Rattle.std.specs.Prelude.{Err, IfOk, IfErr};
ghost use Rattle.ep_packet.specs.IpHeaders.{ether_type_of, ip_headers_len, with_payload_len};
ghost use Rattle.ep_packet.specs.Transport.{transport_len};
ghost use Rattle.ep_packet.specs.declared.net.ip_headers.IpHeaders.{IpHeaders};
ghost use Rattle.etherparse.specs.Built.{ip_bytes, seal_refusal, with_last_number, with_message_checksum};
ghost use Rattle.etherparse.specs.PacketState.{alone};

use super::appended_headers::{append_ipv4, append_ipv6};
use super::chosen_ip::IpHeader;
use super::transport_checksums::{seal_over_ipv4, seal_over_ipv6};
use crate::err::packet::BuildWriteError;
use ep_base::err::ValueTooBigError;
use ep_base::{EtherType, IpNumber};
use ep_packet::{IpHeaders, TransportHeader};

/// The IP headers of a packet that is written.
pub trait IpLayer: Drop {
    // What they are.
    ghost headers: { Self → IpHeaders };

    fn ether_type(&self) -> EtherType
        ensures { result.0 ≡ ether_type_of (headers self.now) };

    fn len(&self) -> usize
        ensures value { result ≡ ip_headers_len (headers self.now) }
        ensures small { result ≤ 9268 };

    // Sets the length field to that of so many bytes after them, where it can hold it.
    fn set_payload_len(&mut self, len: usize) -> Result<(), ValueTooBigError<usize>>
        ensures ok { IfOk (with_payload_len (headers self.old) len)
            (λ new. (result ≡ Ok tt) × (headers self.new ≡ new)) }
        ensures err { IfErr (with_payload_len (headers self.old) len) (λ e. result ≡ Err e) };

    // The transport header gets its length and checksum.
    fn seal(&self, transport: &mut TransportHeader, payload: &[u8]) -> Result<(), BuildWriteError>
        requires { transport_len transport.old + length payload.now ≤ 65535 }
        ensures refusal { MatchOption (seal_refusal (headers self.now) transport.old) (IsOk result)
            (λ e. result ≡ Err e) }
        ensures ok { OnOk result (transport.new ≡ with_message_checksum (headers self.now)
            payload.now transport.old) }
        ensures len { OnOk result (transport_len transport.new ≡ transport_len transport.old) };

    // Appends them, made to name one another and the last one this number. There is capacity for
    // them.
    fn append(&mut self, number: IpNumber, buffer: &mut Vec<u8>)
        requires { vec_len buffer.old + ip_headers_len (headers self.old)
            ≤ vec_capacity buffer.old }
        ensures items { buffer.new.items ≡ buffer.old.items ++ ip_bytes (with_last_number
            (headers self.old) number.0) }
        ensures len { vec_len buffer.new ≡ vec_len buffer.old + ip_headers_len (headers self.old) }
        ensures capacity { vec_capacity buffer.old ≤ vec_capacity buffer.new };
}

impl IpLayer for IpHeader {
    ghost headers = { alone };

    #[inline(always)]
    fn ether_type(&self) -> EtherType {
        match self {
            IpHeader::Ipv4(_) => EtherType::IPV4,
            IpHeader::Ipv6(_) => EtherType::IPV6,
        }
    }

    #[inline(always)]
    fn len(&self) -> usize {
        match self {
            IpHeader::Ipv4(header) => header.header_len(),
            IpHeader::Ipv6(header) => header.header_len(),
        }
    }

    #[inline(always)]
    fn set_payload_len(&mut self, len: usize) -> Result<(), ValueTooBigError<usize>> {
        match self {
            IpHeader::Ipv4(header) => header.set_payload_len(len),
            IpHeader::Ipv6(header) => header.set_payload_length(len),
        }
    }

    #[inline(always)]
    fn seal(&self, transport: &mut TransportHeader, payload: &[u8]) -> Result<(), BuildWriteError> {
        match self {
            IpHeader::Ipv4(header) => seal_over_ipv4(transport, header, payload),
            IpHeader::Ipv6(header) => seal_over_ipv6(transport, header, payload),
        }
    }

    #[inline(always)]
    fn append(&mut self, number: IpNumber, buffer: &mut Vec<u8>) {
        match self {
            IpHeader::Ipv4(header) => {
                header.protocol = number;
                header.write(buffer).unwrap();
            }
            IpHeader::Ipv6(header) => {
                header.next_header = number;
                header.write(buffer).unwrap();
            }
        }
    }
}

impl IpLayer for IpHeaders {
    ghost headers = { λ headers. headers };

    fn ether_type(&self) -> EtherType {
        match self {
            IpHeaders::Ipv4(_, _) => EtherType::IPV4,
            IpHeaders::Ipv6(_, _) => EtherType::IPV6,
        }
    }

    fn len(&self) -> usize {
        match self {
            IpHeaders::Ipv4(header, extensions) => header.header_len() + extensions.header_len(),
            IpHeaders::Ipv6(header, extensions) => header.header_len() + extensions.header_len(),
        }
    }

    fn set_payload_len(&mut self, len: usize) -> Result<(), ValueTooBigError<usize>> {
        IpHeaders::set_payload_len(self, len)
    }

    fn seal(&self, transport: &mut TransportHeader, payload: &[u8]) -> Result<(), BuildWriteError> {
        match self {
            IpHeaders::Ipv4(header, _) => seal_over_ipv4(transport, header, payload),
            IpHeaders::Ipv6(header, _) => seal_over_ipv6(transport, header, payload),
        }
    }

    fn append(&mut self, number: IpNumber, buffer: &mut Vec<u8>) {
        match self {
            IpHeaders::Ipv4(header, extensions) => append_ipv4(header, extensions, number, buffer),
            IpHeaders::Ipv6(header, extensions) => append_ipv6(header, extensions, number, buffer),
        }
    }
}
