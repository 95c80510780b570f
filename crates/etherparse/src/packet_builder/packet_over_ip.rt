//! A packet over IP headers, written whole, with the lengths in its IP headers.

ghost use Rattle.std.specs.Prelude.{◌≡◌, ◌≢◌, ◌+◌, ◌≤◌, ◌++◌, length, vec_len, vec_capacity, Err, MatchOption, IfOk};
ghost use Rattle.std.specs.Prelude.{IsOk, IsOkUnless, OnOk, OnErr};
ghost use Rattle.std.specs.Option.{option_and_then, option_map};
ghost use Rattle.ep_packet.specs.IpHeaders.{ip_headers_len, with_exts};
ghost use Rattle.ep_packet.specs.Transport.{transport_len};
ghost use Rattle.etherparse.specs.Built.{build_refusal, len_if, len_refusal, message_len, packet_with_number};
ghost use Rattle.etherparse.specs.Built.{seal_refusal, size_of, with_lengths, with_message_checksum};
ghost use Rattle.etherparse.specs.PacketState.{packet_over};
ghost use Rattle.etherparse.specs.declared.err.packet.build_write_error.BuildWriteError.TheVariants.{Memory};

use super::appended_headers::{append_link, append_transport, append_vlan};
use super::ip_layer::IpLayer;
use super::prefix::Prefix;
use crate::err::packet::BuildWriteError;
use ep_base::IpNumber;
use ep_packet::TransportHeader;

// Appends the packet of these headers, of which those of the network layer name this number last.
// Where it is refused, or no memory is left, the buffer keeps its bytes.
#[inline(always)]
pub(super) fn write_over<I: IpLayer>(
    prefix: Prefix,
    mut ip: I,
    number: IpNumber,
    transport_header: Option<TransportHeader>,
    payload: &[u8],
    buffer: &mut Vec<u8>,
) -> Result<(), BuildWriteError>
    ensures refusal { MatchOption (build_refusal (packet_over prefix transport_header (I.headers ip))
        (length payload.now)) (IsOkUnless result Memory) (λ e. result ≡ Err e) }
    ensures ok { OnOk result (buffer.new.items ≡ buffer.old.items ++ packet_with_number
        (packet_over prefix transport_header (I.headers ip)) number.0 payload.now) }
    ensures len { OnOk result (vec_len buffer.new ≡ vec_len buffer.old
        + size_of (packet_over prefix transport_header (I.headers ip)) (length payload.now)) }
    ensures err { OnErr result (buffer.new.items ≡ buffer.old.items) }
    ensures memory { vec_len buffer.old
        + size_of (packet_over prefix transport_header (I.headers ip)) (length payload.now)
        ≤ vec_capacity buffer.old → result ≢ Err Memory }
{
    let headers_len = prefix.len() + ip.len() + transport_len(&transport_header);
    measure(&mut ip, &transport_header, payload.len())?;
    let transport = sealed(transport_header, &ip, payload)?;
    if buffer.reserve(headers_len + payload.len()).is_err() {
        return Err(BuildWriteError::Memory);
    }
    let ether_type = ip.ether_type();
    append_link(prefix.link_header, &prefix.vlan_header, ether_type, buffer);
    append_vlan(prefix.vlan_header, ether_type, buffer);
    ip.append(number, buffer);
    append_transport(&transport, buffer);
    buffer.extend_from_slice(payload).unwrap();
    Ok(())
}

// The transport header with its length and checksum.
#[inline(always)]
fn sealed<I: IpLayer>(
    transport: Option<TransportHeader>,
    ip: &I,
    payload: &[u8],
) -> Result<Option<TransportHeader>, BuildWriteError>
    requires { len_if transport_len transport + length payload.now ≤ 65535 }
    ensures refusal { MatchOption (option_and_then (seal_refusal (I.headers ip.now)) transport)
        (IsOk result) (λ e. result ≡ Err e) }
    ensures ok { IfOk result (λ header. header
        ≡ option_map (with_message_checksum (I.headers ip.now) payload.now) transport) }
    ensures len { IfOk result (λ header. len_if transport_len header
        ≡ len_if transport_len transport) }
{
    let Some(mut header) = transport else {
        return Ok(None);
    };
    ip.seal(&mut header, payload)?;
    Ok(Some(header))
}

// Sets the length of what follows the IP header, where its length field can hold it.
#[inline(always)]
fn measure<I: IpLayer>(
    ip: &mut I,
    transport: &Option<TransportHeader>,
    payload_len: usize,
) -> Result<(), BuildWriteError>
    ensures refusal { MatchOption (len_refusal transport.now payload_len (I.headers ip.old)) (IsOk result)
        (λ e. result ≡ Err e) }
    ensures ok { OnOk result (I.headers ip.new
        ≡ with_lengths (I.headers ip.old) (message_len transport.now payload_len)) }
    ensures len { OnOk result (ip_headers_len (I.headers ip.new)
        ≡ ip_headers_len (I.headers ip.old)) }
    ensures short { OnOk result (message_len transport.now payload_len ≤ 65535) }
{
    let len = len_after(transport, payload_len);
    match ip.set_payload_len(len) {
        Ok(()) => Ok(()),
        Err(error) => Err(BuildWriteError::PayloadLen(error)),
    }
}

// How many bytes follow the IP headers, or the greatest number.
#[inline(always)]
fn len_after(transport: &Option<TransportHeader>, payload_len: usize) -> usize
    ensures { result ≡ with_exts payload_len (len_if transport_len transport.now) }
{
    payload_len.saturating_add(transport_len(transport))
}

#[inline(always)]
pub(super) fn transport_len(transport: &Option<TransportHeader>) -> usize
    ensures value { result ≡ len_if transport_len transport.now }
    ensures small { result ≤ 60 }
{
    match transport {
        Some(header) => header_len(header),
        None => 0,
    }
}

#[inline(always)]
fn header_len(transport: &TransportHeader) -> usize
    ensures value { result ≡ transport_len transport.now }
    ensures small { result ≤ 60 }
{
    match transport {
        TransportHeader::Udp(header) => header.header_len(),
        TransportHeader::Tcp(header) => header.header_len(),
        TransportHeader::Icmpv4(header) => header.header_len(),
        TransportHeader::Icmpv6(header) => header.header_len(),
    }
}
