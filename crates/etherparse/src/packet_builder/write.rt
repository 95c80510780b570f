//! The last calls: the packet of a payload is written, or its length returned.

ghost use Rattle.std.specs.Prelude.{◌≡◌, ◌≢◌, ◌+◌, ◌^◌, ◌<◌, ◌≤◌, ◌++◌, length, vec_len, vec_capacity, Err};
ghost use Rattle.std.specs.Prelude.{MatchOption, IsOkUnless, OnOk, OnErr};
ghost use Rattle.etherparse.specs.Built.{arp_size_of, packet_with_number, build_refusal, built_arp, number_in, size_of};
ghost use Rattle.etherparse.specs.declared.err.packet.build_write_error.BuildWriteError.TheVariants.{Memory};

use super::last_step::TransportStep;
use super::step::PacketBuilderStep;
use crate::err::packet::BuildWriteError;
use ep_base::IpNumber;
use ep_link::ArpPacket;
use ep_packet::IpHeaders;

impl PacketBuilderStep<IpHeaders> {
    /// Appends the packet, whose IP headers name this number last and carry this payload.
    ///
    /// Refused with `PayloadLen` is a payload that is too long for the length field of the IP
    /// header. On any error the buffer keeps its bytes.
    #[inline(always)]
    pub fn write(
        self,
        buffer: &mut Vec<u8>,
        last_next_header_ip_number: IpNumber,
        payload: &[u8],
    ) -> Result<(), BuildWriteError>
        ensures refusal { MatchOption (build_refusal self (length payload.now))
            (IsOkUnless result Memory) (λ e. result ≡ Err e) }
        ensures ok { OnOk result (buffer.new.items ≡ buffer.old.items
            ++ packet_with_number self last_next_header_ip_number.0 payload.now) }
        ensures len { OnOk result (vec_len buffer.new
            ≡ vec_len buffer.old + size_of self (length payload.now)) }
        ensures err { OnErr result (buffer.new.items ≡ buffer.old.items) }
        // Memory is needed only where the capacity is too small.
        ensures memory { vec_len buffer.old + size_of self (length payload.now)
            ≤ vec_capacity buffer.old → result ≢ Err Memory }
    {
        let state = self.state;
        state.write::<IpHeaders>(buffer, last_next_header_ip_number, payload)
    }

    /// The length of the packet with a payload of so many bytes.
    pub fn size(&self, payload_size: usize) -> usize
        requires { size_of self.now payload_size < 2 ^ 64 }
        ensures { result ≡ size_of self.now payload_size }
    {
        self.state.size(payload_size)
    }
}

impl<L: TransportStep> PacketBuilderStep<L> {
    /// Appends the packet with this payload.
    ///
    /// Refused are, in this order, with `PayloadLen` a payload that is too long for the length
    /// field of the IP header, and with `Icmpv6InIpv4` ICMPv6 over IPv4. On any error the buffer
    /// keeps its bytes.
    #[inline(always)]
    pub fn write(self, buffer: &mut Vec<u8>, payload: &[u8]) -> Result<(), BuildWriteError>
        ensures refusal { MatchOption (build_refusal self (length payload.now))
            (IsOkUnless result Memory) (λ e. result ≡ Err e) }
        ensures ok { OnOk result (buffer.new.items ≡ buffer.old.items
            ++ packet_with_number self (number_in self.transport_header) payload.now) }
        ensures len { OnOk result (vec_len buffer.new
            ≡ vec_len buffer.old + size_of self (length payload.now)) }
        ensures err { OnErr result (buffer.new.items ≡ buffer.old.items) }
        // Memory is needed only where the capacity is too small.
        ensures memory { vec_len buffer.old + size_of self (length payload.now)
            ≤ vec_capacity buffer.old → result ≢ Err Memory }
    {
        let state = self.state;
        let number = state.number();
        state.write::<L>(buffer, number, payload)
    }

    /// The length of the packet with a payload of so many bytes.
    pub fn size(&self, payload_size: usize) -> usize
        requires { size_of self.now payload_size < 2 ^ 64 }
        ensures { result ≡ size_of self.now payload_size }
    {
        self.state.size(payload_size)
    }
}

impl PacketBuilderStep<ArpPacket> {
    /// Appends the packet. Where no memory is left for it, the buffer keeps its bytes.
    #[inline(always)]
    pub fn write(self, buffer: &mut Vec<u8>) -> Result<(), BuildWriteError>
        ensures outcome { IsOkUnless result Memory }
        ensures ok { OnOk result (buffer.new.items ≡ buffer.old.items ++ built_arp self) }
        ensures len { OnOk result (vec_len buffer.new ≡ vec_len buffer.old + arp_size_of self) }
        ensures err { OnErr result (buffer.new.items ≡ buffer.old.items) }
        // Memory is needed only where the capacity is too small.
        ensures memory { vec_len buffer.old + arp_size_of self ≤ vec_capacity buffer.old
            → result ≢ Err Memory }
    {
        let state = self.state;
        state.write_arp(buffer)
    }

    /// The length of the packet.
    pub fn size(&self) -> usize
        ensures { result ≡ arp_size_of self.now }
    {
        self.state.arp_size()
    }
}
