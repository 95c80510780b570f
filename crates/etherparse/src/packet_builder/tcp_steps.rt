//! The steps after a TCP header: its flags and options.

ghost use Rattle.std.specs.Prelude.{◌≡◌, ◌<◌, ◌≤◌, true, length, Ok, Err, IfOk, IfErr};
ghost use Rattle.ep_tcpudp.specs.Options.{options_of_elements};
ghost use Rattle.ep_tcpudp.specs.TcpOptions.{whole_options};
ghost use Rattle.ep_tcpudp.specs.declared.transport.tcp_option_write_error.TcpOptionWriteError.TheVariants.{NotEnoughSpace};
ghost use Rattle.etherparse.specs.BuiltSteps.{with_tcp};

use super::step::PacketBuilderStep;
use ep_packet::TransportHeader;
use ep_tcpudp::{TcpHeader, TcpOptionElement, TcpOptionWriteError, TcpOptions};

impl PacketBuilderStep<TcpHeader> {
    /// With the flag `ns`.
    #[inline(always)]
    pub fn ns(self) -> PacketBuilderStep<TcpHeader>
        ensures { result ≡ with_tcp (λ h. record h { ns = true }) self }
    {
        let mut state = self.state;
        if let Some(TransportHeader::Tcp(header)) = &mut state.transport_header {
            header.ns = true;
        }
        PacketBuilderStep::of(state)
    }

    /// With the flag `fin`.
    #[inline(always)]
    pub fn fin(self) -> PacketBuilderStep<TcpHeader>
        ensures { result ≡ with_tcp (λ h. record h { fin = true }) self }
    {
        let mut state = self.state;
        if let Some(TransportHeader::Tcp(header)) = &mut state.transport_header {
            header.fin = true;
        }
        PacketBuilderStep::of(state)
    }

    /// With the flag `syn`.
    #[inline(always)]
    pub fn syn(self) -> PacketBuilderStep<TcpHeader>
        ensures { result ≡ with_tcp (λ h. record h { syn = true }) self }
    {
        let mut state = self.state;
        if let Some(TransportHeader::Tcp(header)) = &mut state.transport_header {
            header.syn = true;
        }
        PacketBuilderStep::of(state)
    }

    /// With the flag `rst`.
    #[inline(always)]
    pub fn rst(self) -> PacketBuilderStep<TcpHeader>
        ensures { result ≡ with_tcp (λ h. record h { rst = true }) self }
    {
        let mut state = self.state;
        if let Some(TransportHeader::Tcp(header)) = &mut state.transport_header {
            header.rst = true;
        }
        PacketBuilderStep::of(state)
    }

    /// With the flag `psh`.
    #[inline(always)]
    pub fn psh(self) -> PacketBuilderStep<TcpHeader>
        ensures { result ≡ with_tcp (λ h. record h { psh = true }) self }
    {
        let mut state = self.state;
        if let Some(TransportHeader::Tcp(header)) = &mut state.transport_header {
            header.psh = true;
        }
        PacketBuilderStep::of(state)
    }

    /// With the flag `ack` and this acknowledgment number.
    #[inline(always)]
    pub fn ack(self, acknowledgment_number: u32) -> PacketBuilderStep<TcpHeader>
        ensures { result ≡ with_tcp
            (λ h. record h { ack = true; acknowledgment_number = acknowledgment_number }) self }
    {
        let mut state = self.state;
        if let Some(TransportHeader::Tcp(header)) = &mut state.transport_header {
            header.ack = true;
            header.acknowledgment_number = acknowledgment_number;
        }
        PacketBuilderStep::of(state)
    }

    /// With the flag `urg` and this urgent pointer.
    #[inline(always)]
    pub fn urg(self, urgent_pointer: u16) -> PacketBuilderStep<TcpHeader>
        ensures { result ≡ with_tcp
            (λ h. record h { urg = true; urgent_pointer = urgent_pointer }) self }
    {
        let mut state = self.state;
        if let Some(TransportHeader::Tcp(header)) = &mut state.transport_header {
            header.urg = true;
            header.urgent_pointer = urgent_pointer;
        }
        PacketBuilderStep::of(state)
    }

    /// With the flag `ece`.
    #[inline(always)]
    pub fn ece(self) -> PacketBuilderStep<TcpHeader>
        ensures { result ≡ with_tcp (λ h. record h { ece = true }) self }
    {
        let mut state = self.state;
        if let Some(TransportHeader::Tcp(header)) = &mut state.transport_header {
            header.ece = true;
        }
        PacketBuilderStep::of(state)
    }

    /// With the flag `cwr`.
    #[inline(always)]
    pub fn cwr(self) -> PacketBuilderStep<TcpHeader>
        ensures { result ≡ with_tcp (λ h. record h { cwr = true }) self }
    {
        let mut state = self.state;
        if let Some(TransportHeader::Tcp(header)) = &mut state.transport_header {
            header.cwr = true;
        }
        PacketBuilderStep::of(state)
    }

    /// With these elements as the options, as [`TcpHeader::set_options`] sets them.
    ///
    /// Elements that need more than 40 bytes are refused.
    pub fn options(
        self,
        options: &[TcpOptionElement],
    ) -> Result<PacketBuilderStep<TcpHeader>, TcpOptionWriteError>
        ensures ok { IfOk (options_of_elements options.now)
            (λ bytes. result ≡ Ok (with_tcp (λ h. record h { options = bytes }) self)) }
        ensures err { IfErr (options_of_elements options.now) (λ e. result ≡ Err e) }
    {
        let options = TcpOptions::try_from_elements(options)?;
        Ok(self.with_options(options))
    }

    /// With these bytes as the options, filled up with 0 to whole words.
    ///
    /// More than 40 bytes are refused with their number.
    pub fn options_raw(
        self,
        options: &[u8],
    ) -> Result<PacketBuilderStep<TcpHeader>, TcpOptionWriteError>
        ensures ok { length options.now ≤ 40
            → result ≡ Ok (with_tcp (λ h. record h { options = whole_options options.now }) self) }
        ensures err { 40 < length options.now → result ≡ Err (NotEnoughSpace (length options.now)) }
    {
        let options = TcpOptions::try_from_slice(options)?;
        Ok(self.with_options(options))
    }

    #[inline(always)]
    fn with_options(self, options: TcpOptions) -> PacketBuilderStep<TcpHeader>
        ensures { result ≡ with_tcp (λ h. record h { options = options }) self }
    {
        let mut state = self.state;
        if let Some(TransportHeader::Tcp(header)) = &mut state.transport_header {
            header.options = options;
        }
        PacketBuilderStep::of(state)
    }
}
