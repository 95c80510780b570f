//! The bytes of a TCP segment, or of its header alone, as a view.

ghost use Rattle.std.specs.Prelude.{◌≡◌, ◌≤◌, ◌*◌, List, ◌++◌, ℕ, nat_eq};
ghost use Rattle.std.specs.Cmp.Lexicographic.{pointwise};
ghost use Rattle.std.specs.Cmp.Rules.{comparing};
ghost use Rattle.std.proofs.Common.{rules};
ghost use Rattle.ep_base.specs.MessageSum.{SumsWords};
ghost use Rattle.ep_base.specs.Sum.{fold, total};
ghost use Rattle.ep_tcpudp.specs.Tcp.{ReadableTcp, source_port_of, destination_port_of, sequence_number_of};
ghost use Rattle.ep_tcpudp.specs.Tcp.{acknowledgment_number_of, data_offset_of, ns_of, fin_of, syn_of, rst_of, psh_of};
ghost use Rattle.ep_tcpudp.specs.Tcp.{ack_of, urg_of, ece_of, cwr_of, window_size_of, checksum_of, urgent_pointer_of};
ghost use Rattle.ep_tcpudp.specs.Tcp.{options_of, tcp_header_of, data_offset, header_len};
ghost use Rattle.ep_tcpudp.specs.TcpChecksum.{with_checksum};
ghost use Rattle.ep_tcpudp.specs.TcpOptions.{IsTcpOptions};

use super::view_kind::ViewKind;
use crate::{TcpHeader, TcpOptions, TcpOptionsIterator};
use ep_base::checksum::{Sum16BitWords, message_sum};
use std::fmt;
use std::marker::{Model, PhantomData};

/// The bytes of a TCP segment (RFC 9293, section 3.1), or of its header alone, borrowed. A contract
/// sees the value as those bytes.
#[derive(Clone, Drop)]
pub struct TcpView<'a, P: ViewKind> {
    pub(super) slice: &'a [u8],
    view_kind: PhantomData<P>,
}

impl<'a, P: ViewKind> Model for TcpView<'a, P> {
    ghost Value = { List ℕ };

    ghost view = { λ tcp. tcp.slice.now };

    ghost invariant = { λ tcp. ReadableTcp tcp.slice.now × P.holds tcp.slice.now };
}

#[tactic(auto, using(ep_base::proofs::Bits::flag_tests))]
impl<'a, P: ViewKind> TcpView<'a, P> {
    #[inline(always)]
    pub(super) fn of(slice: &'a [u8]) -> TcpView<'a, P>
        requires readable { ReadableTcp slice.now }
        requires holds { P.holds slice.now }
        ensures { result ≡ slice.now }
    {
        TcpView {
            slice,
            view_kind: PhantomData,
        }
    }

    /// The port that the segment comes from.
    pub fn source_port(&self) -> u16
        ensures { result ≡ source_port_of self.now }
    {
        u16::from_be_bytes([self.slice[0], self.slice[1]])
    }

    /// The port that it goes to.
    pub fn destination_port(&self) -> u16
        ensures { result ≡ destination_port_of self.now }
    {
        u16::from_be_bytes([self.slice[2], self.slice[3]])
    }

    /// The number of the first byte of the payload in the stream, or, where `syn` is set, the
    /// initial number, which is one less.
    pub fn sequence_number(&self) -> u32
        ensures { result ≡ sequence_number_of self.now }
    {
        u32::from_be_bytes([self.slice[4], self.slice[5], self.slice[6], self.slice[7]])
    }

    /// The number that the sender expects next; it counts where `ack` is set.
    pub fn acknowledgment_number(&self) -> u32
        ensures { result ≡ acknowledgment_number_of self.now }
    {
        u32::from_be_bytes([self.slice[8], self.slice[9], self.slice[10], self.slice[11]])
    }

    /// The header's length in words of 4 bytes, from 5 to 15.
    pub fn data_offset(&self) -> u8
        ensures value { result ≡ data_offset_of self.now }
        ensures least { 5 ≤ result }
        ensures small { result ≤ 15 }
    {
        self.slice[12] >> 4
    }

    /// The flag ns, against concealed congestion notifications (RFC 3540).
    pub fn ns(&self) -> bool
        ensures { result ≡ ns_of self.now }
    {
        self.slice[12] & 1 != 0
    }

    /// The flag fin: the sender has no more data.
    pub fn fin(&self) -> bool
        ensures { result ≡ fin_of self.now }
    {
        self.slice[13] & 1 != 0
    }

    /// The flag syn: sequence numbers are agreed on.
    pub fn syn(&self) -> bool
        ensures { result ≡ syn_of self.now }
    {
        self.slice[13] & 2 != 0
    }

    /// The flag rst: the connection is reset.
    pub fn rst(&self) -> bool
        ensures { result ≡ rst_of self.now }
    {
        self.slice[13] & 4 != 0
    }

    /// The flag psh: the data is to be passed on at once.
    pub fn psh(&self) -> bool
        ensures { result ≡ psh_of self.now }
    {
        self.slice[13] & 8 != 0
    }

    /// The flag ack: the acknowledgment number counts.
    pub fn ack(&self) -> bool
        ensures { result ≡ ack_of self.now }
    {
        self.slice[13] & 16 != 0
    }

    /// The flag urg: the urgent pointer counts.
    pub fn urg(&self) -> bool
        ensures { result ≡ urg_of self.now }
    {
        self.slice[13] & 32 != 0
    }

    /// The flag ece: congestion was met (RFC 3168, section 6.1).
    pub fn ece(&self) -> bool
        ensures { result ≡ ece_of self.now }
    {
        self.slice[13] & 64 != 0
    }

    /// The flag cwr: the sender has slowed down (RFC 3168, section 6.1).
    pub fn cwr(&self) -> bool
        ensures { result ≡ cwr_of self.now }
    {
        self.slice[13] & 128 != 0
    }

    /// How many bytes more the sender takes.
    pub fn window_size(&self) -> u16
        ensures { result ≡ window_size_of self.now }
    {
        u16::from_be_bytes([self.slice[14], self.slice[15]])
    }

    /// The checksum, as it is.
    pub fn checksum(&self) -> u16
        ensures { result ≡ checksum_of self.now }
    {
        u16::from_be_bytes([self.slice[16], self.slice[17]])
    }

    /// Where the urgent data ends, from the sequence number on; it counts where `urg` is set.
    pub fn urgent_pointer(&self) -> u16
        ensures { result ≡ urgent_pointer_of self.now }
    {
        u16::from_be_bytes([self.slice[18], self.slice[19]])
    }

    /// The options: the bytes between the first 20 bytes and the payload.
    pub fn options(&self) -> &'a [u8]
        ensures bytes { result.now ≡ options_of self.now }
        ensures options { IsTcpOptions result.now }
    {
        &self.slice[TcpHeader::MIN_LEN..4 * usize::from(self.data_offset())]
    }

    /// The elements that the options encode, one after the other.
    pub fn options_iterator(&self) -> TcpOptionsIterator<'a>
        ensures { result ≡ options_of self.now }
    {
        TcpOptionsIterator::from_slice(self.options())
    }

    /// The fields. The reserved bits are dropped.
    pub fn to_header(&self) -> TcpHeader
        ensures fields { result ≡ tcp_header_of self.now }
        ensures offset { data_offset result ≡ data_offset_of self.now }
        ensures len { header_len result ≡ 4 * data_offset_of self.now }
    {
        let _header = &self.slice;
        let options = TcpOptions::from_words(self.options());
        TcpHeader {
            source_port: self.source_port(),
            destination_port: self.destination_port(),
            sequence_number: self.sequence_number(),
            acknowledgment_number: self.acknowledgment_number(),
            ns: self.ns(),
            fin: self.fin(),
            syn: self.syn(),
            rst: self.rst(),
            psh: self.psh(),
            ack: self.ack(),
            urg: self.urg(),
            ece: self.ece(),
            cwr: self.cwr(),
            window_size: self.window_size(),
            checksum: self.checksum(),
            urgent_pointer: self.urgent_pointer(),
            options,
        }
    }

    // The sum of the bytes with the checksum as 0, after a pseudo header with this sum.
    pub(super) fn sum_after(&self, pseudo: Sum16BitWords) -> Sum16BitWords
        ensures { (prefix : List ℕ) → SumsWords pseudo prefix
            → result ≡ fold (total (prefix ++ with_checksum self.now 0)) }
    {
        message_sum(pseudo, &self.slice[..16], &self.slice[18..])
    }
}

impl<'a, P: ViewKind> fmt::Debug for TcpView<'a, P> {
    fn fmt<W: fmt::Write>(&self, f: &mut fmt::Formatter<W>) -> fmt::Result {
        f.debug_struct(P::VIEW).field("slice", &self.slice).finish()
    }
}

impl<'a, P: ViewKind> PartialEq for TcpView<'a, P> {
    ghost eq = { pointwise nat_eq };

    ghost laws = { Prim.search (comparing, rules) };

    fn eq(&self, other: &Self) -> bool {
        self.slice == other.slice
    }
}

impl<'a, P: ViewKind> Eq for TcpView<'a, P> {
    ghost laws = { Prim.search (comparing, rules) };
}
