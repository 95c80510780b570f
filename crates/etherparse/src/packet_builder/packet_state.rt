//! The headers that were chosen, and the packet that is written of them.

ghost use Rattle.std.specs.Prelude.{◌≡◌, ◌≢◌, ◌+◌, ◌^◌, ◌<◌, ◌≤◌, ◌++◌, length, vec_len, vec_capacity, Err};
ghost use Rattle.std.specs.Prelude.{MatchOption, IsSome, OnOk, OnErr, IsOkUnless};
ghost use Rattle.std.specs.Option.{option_map};
ghost use Rattle.ep_link.specs.Arp.{packet_len_in};
ghost use Rattle.ep_packet.specs.IpHeaders.{ip_headers_len};
ghost use Rattle.etherparse.specs.Built.{arp_size_of, packet_with_number, build_refusal, built_arp, len_if, number_in};
ghost use Rattle.etherparse.specs.Built.{size_of};
ghost use Rattle.etherparse.specs.BuiltSteps.{no_headers};
ghost use Rattle.etherparse.specs.PacketState.{chosen, headers_of};
ghost use Rattle.etherparse.specs.declared.err.packet.build_write_error.BuildWriteError.TheVariants.{Memory};

use super::appended_headers::{append_link, append_vlan};
use super::chosen_ip::ChosenIp;
use super::ip_layer::IpLayer;
use super::last_step::LastStep;
use super::packet_over_ip::{transport_len, write_over};
use super::prefix::Prefix;
use crate::err::packet::BuildWriteError;
use ep_base::{EtherType, IpNumber};
use ep_link::ArpPacket;
use ep_packet::TransportHeader;

/// The headers that were chosen so far.
#[derive(Drop)]
pub struct PacketState {
    pub(super) prefix: Prefix,
    pub(super) ip: Option<ChosenIp>,
    pub(super) arp_packet: Option<ArpPacket>,
    pub(super) transport_header: Option<TransportHeader>,
}

impl PacketState {
    #[inline(always)]
    pub(super) fn empty() -> PacketState
        ensures { chosen result ≡ no_headers }
    {
        PacketState {
            prefix: Prefix {
                link_header: None,
                vlan_header: None,
            },
            ip: None,
            arp_packet: None,
            transport_header: None,
        }
    }

    // The length of the packet that this is with a payload of so many bytes.
    pub(super) fn size(&self, payload_len: usize) -> usize
        requires { size_of (chosen self.now) payload_len < 2 ^ 64 }
        ensures { result ≡ size_of (chosen self.now) payload_len }
    {
        self.headers_len() + payload_len
    }

    // The length of link header, tags, IP headers and transport header.
    fn headers_len(&self) -> usize
        ensures value { result ≡ size_of (chosen self.now) 0 }
        ensures small { result ≤ 10000 }
    {
        self.prefix.len() + ip_len(&self.ip) + transport_len(&self.transport_header)
    }

    // The length of the packet that holds an ARP packet.
    pub(super) fn arp_size(&self) -> usize
        ensures { result ≡ arp_size_of (chosen self.now) }
    {
        self.prefix.len() + arp_len(&self.arp_packet)
    }

    // The number by which IP headers name the transport header.
    #[inline(always)]
    pub(super) fn number(&self) -> IpNumber
        ensures { result.0 ≡ number_in self.now.transport_header }
    {
        match &self.transport_header {
            Some(TransportHeader::Udp(_)) => IpNumber::UDP,
            Some(TransportHeader::Tcp(_)) => IpNumber::TCP,
            Some(TransportHeader::Icmpv4(_)) => IpNumber::ICMP,
            Some(TransportHeader::Icmpv6(_)) => IpNumber::IPV6_ICMP,
            None => IpNumber::IPV6_NO_NEXT_HEADER,
        }
    }

    // Appends the packet, whose headers of the network layer name this number last. Where it is
    // refused, or no memory is left, the buffer keeps its bytes.
    //
    // Each last step has a function of its own: one that several steps share isn't inlined, and the
    // 9 kilobytes of extension headers are then cleared and moved for each packet.
    #[inline(always)]
    pub(super) fn write<L: LastStep>(
        self,
        buffer: &mut Vec<u8>,
        number: IpNumber,
        payload: &[u8],
    ) -> Result<(), BuildWriteError>
        requires { IsSome (chosen self).ip_headers }
        ensures refusal { MatchOption (build_refusal (chosen self) (length payload.now))
            (IsOkUnless result Memory) (λ e. result ≡ Err e) }
        ensures ok { OnOk result (buffer.new.items ≡ buffer.old.items
            ++ packet_with_number (chosen self) number.0 payload.now) }
        ensures len { OnOk result (vec_len buffer.new
            ≡ vec_len buffer.old + size_of (chosen self) (length payload.now)) }
        ensures err { OnErr result (buffer.new.items ≡ buffer.old.items) }
        ensures memory { vec_len buffer.old + size_of (chosen self) (length payload.now)
            ≤ vec_capacity buffer.old → result ≢ Err Memory }
    {
        let PacketState {
            prefix,
            ip,
            arp_packet: _,
            transport_header,
        } = self;
        match ip {
            Some(ChosenIp::Alone(header)) => {
                write_over(prefix, header, number, transport_header, payload, buffer)
            }
            Some(ChosenIp::Given(headers)) => {
                write_over(prefix, headers, number, transport_header, payload, buffer)
            }
            None => unreachable!(),
        }
    }

    // Appends the packet, which holds an ARP packet. Where no memory is left, the buffer keeps its
    // bytes.
    pub(super) fn write_arp(self, buffer: &mut Vec<u8>) -> Result<(), BuildWriteError>
        requires { IsSome self.arp_packet }
        ensures outcome { IsOkUnless result Memory }
        ensures ok { OnOk result (buffer.new.items ≡ buffer.old.items ++ built_arp (chosen self)) }
        ensures len { OnOk result (vec_len buffer.new ≡ vec_len buffer.old
            + arp_size_of (chosen self)) }
        ensures err { OnErr result (buffer.new.items ≡ buffer.old.items) }
        ensures memory { vec_len buffer.old + arp_size_of (chosen self) ≤ vec_capacity buffer.old
            → result ≢ Err Memory }
    {
        if buffer.reserve(self.arp_size()).is_err() {
            return Err(BuildWriteError::Memory);
        }
        let PacketState {
            prefix,
            arp_packet,
            ..
        } = self;
        let Some(arp) = arp_packet else {
            unreachable!()
        };
        append_link(
            prefix.link_header,
            &prefix.vlan_header,
            EtherType::ARP,
            buffer,
        );
        append_vlan(prefix.vlan_header, EtherType::ARP, buffer);
        arp.write(buffer).unwrap();
        Ok(())
    }
}

fn ip_len(ip: &Option<ChosenIp>) -> usize
    ensures value { result ≡ len_if ip_headers_len (option_map headers_of ip.now) }
    ensures small { result ≤ 9268 }
{
    match ip {
        Some(ChosenIp::Alone(header)) => header.len(),
        Some(ChosenIp::Given(headers)) => headers.len(),
        None => 0,
    }
}

fn arp_len(arp: &Option<ArpPacket>) -> usize
    ensures value { result ≡ len_if packet_len_in arp.now }
    ensures small { result ≤ 1028 }
{
    match arp {
        Some(packet) => packet.packet_len(),
        None => 0,
    }
}
