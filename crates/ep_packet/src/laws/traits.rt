//! What `Clone`, `PartialEq`, `Ord` and `Hash` of the types here mean, each clause about the
//! relation that the type's own impl names. `laws::hashes` has the hashes of errors.
ghost use Rattle.std.specs.Prelude.{◌≡◌, ◌↔◌, ◌++◌, IsTrue, List, pos, ℕ};
ghost use Rattle.std.specs.Cmp.Lexicographic.{slice_cmp};
ghost use Rattle.std.specs.Hash as fed;
ghost use Rattle.std.specs.Ordering.{nat_cmp};
ghost use Rattle.ep_base.specs.Traits.{CopyIsValue, CopyNeverFails, HashIsOf, IsPlainData};
ghost use Rattle.ep_packet.specs.Class.{as_class, fragment_values};
ghost use Rattle.ep_packet.specs.LaxPacketHeaders.{lax_headers_parsed};
ghost use Rattle.ep_packet.specs.LaxPayload.{lax_payload_parsed};
ghost use Rattle.ep_packet.specs.PacketHeaders.{headers_parsed};
ghost use Rattle.ep_packet.specs.Payload.{hashed_as, ordered_as, payload_parsed};
ghost use Rattle.ep_packet.specs.Readable.{as_read};
ghost use Rattle.ep_packet.specs.declared.addresses.Addresses.TheVariants as version;
ghost use Rattle.ep_packet.specs.declared.class.Class.{Class as ClassValue};
ghost use Rattle.ep_packet.specs.declared.class.Class.TheVariants as returned;
ghost use Rattle.ep_packet.specs.declared.class.IpFragment.{IpFragment as IpFragmentValue};
ghost use Rattle.ep_packet.specs.declared.class.WholeMessage.{WholeMessage as WholeValue};
ghost use Rattle.ep_packet.specs.declared.lax_packet_headers.LaxPacketHeaders.{LaxPacketHeaders};
ghost use Rattle.ep_packet.specs.declared.lax_payload_slice.LaxPayloadSlice.{LaxPayloadSlice};
ghost use Rattle.ep_packet.specs.declared.message.Message.{Message as MessageValue};
ghost use Rattle.ep_packet.specs.declared.packet_headers.PacketHeaders.{PacketHeaders};
ghost use Rattle.ep_packet.specs.declared.payload_slice.PayloadSlice.{PayloadSlice};
ghost use Rattle.ep_packet.specs.declared.sliced_fragment.SlicedFragment.{SlicedFragment as SlicedFragmentValue};

use crate::err::ip::HeadersWriteError;
use crate::err::net::NetSetNextHeaderError;
use crate::err::packet::{SliceError, TransportChecksumError};
use crate::{
    Addresses, Class, IpFragment, IpHeaders, LaxNetSlice, LaxPacketHeaders, LaxPayloadSlice,
    LaxSlicedPacket, Message, NetHeaders, NetSlice, PacketHeaders, PayloadSlice, SlicedFragment,
    SlicedPacket, TransportHeader, TransportSlice, WholeMessage,
};
use ep_base::laws::traits::Value;
use std::hash::Hash;

/// A copy is the value and takes no memory. Equal are the values that are the same: all fields of a
/// header, all bytes of a slice.
pub fn types_are_plain_data<'a>()
    ensures addresses { IsPlainData ⟦<Addresses as Value>⟧ }
    ensures transport_header { IsPlainData ⟦<TransportHeader as Value>⟧ }
    ensures transport_slice { IsPlainData ⟦<TransportSlice<'a> as Value>⟧ }
    ensures headers_write_error { IsPlainData ⟦<HeadersWriteError as Value>⟧ }
    ensures slice_error { IsPlainData ⟦<SliceError as Value>⟧ }
    ensures transport_checksum_error { IsPlainData ⟦<TransportChecksumError as Value>⟧ }
    ensures net_set_next_header_error { IsPlainData ⟦<NetSetNextHeaderError as Value>⟧ }
{
    ep_base::laws::traits::types_are_plain_data();
    ep_ext::laws::traits::types_are_plain_data();
    ep_icmp::laws::traits::types_are_plain_data();
    ep_ip::laws::traits::types_are_plain_data();
    ep_ipslice::laws::traits::types_are_plain_data();
    ep_link::laws::traits::types_are_plain_data();
    ep_tag::laws::traits::types_are_plain_data();
    ep_tcpudp::laws::traits::types_are_plain_data();
}

/// So are headers and packets of the network layer.
pub fn net_is_plain_data<'a>()
    ensures ip_headers { IsPlainData ⟦<IpHeaders as Value>⟧ }
    ensures net_headers { IsPlainData ⟦<NetHeaders as Value>⟧ }
    ensures net_slice { IsPlainData ⟦<NetSlice<'a> as Value>⟧ }
{
    ep_ext::laws::traits::types_are_plain_data();
    ep_ext::laws::traits::chains_are_plain_data();
    ep_ip::laws::traits::types_are_plain_data();
    ep_ipslice::laws::traits::types_are_plain_data();
    ep_link::laws::traits::types_are_plain_data();
}

/// So are sliced packets.
pub fn packets_are_plain_data<'a>()
    ensures { IsPlainData ⟦<SlicedPacket<'a> as Value>⟧ }
{
    types_are_plain_data();
    net_is_plain_data();
    ep_link::laws::traits::types_are_plain_data();
    ep_tag::laws::traits::types_are_plain_data();
}

/// So are packets of the network layer that are there as far as they go, and such packets.
pub fn lax_net_is_plain_data<'a>()
    ensures { IsPlainData ⟦<LaxNetSlice<'a> as Value>⟧ }
{
    ep_ipslice::laws::traits::types_are_plain_data();
    ep_link::laws::traits::types_are_plain_data();
}

pub fn lax_packets_are_plain_data<'a>()
    ensures { IsPlainData ⟦<LaxSlicedPacket<'a> as Value>⟧ }
{
    types_are_plain_data();
    lax_net_is_plain_data();
    ep_base::laws::traits::types_are_plain_data();
    ep_link::laws::traits::types_are_plain_data();
    ep_tag::laws::traits::types_are_plain_data();
}

/// A copy of a message is the message and takes no memory.
pub fn copies_of_messages_are_values<'a>()
    ensures copies { CopyIsValue ⟦<Message<'a> as Clone>⟧.is_clone }
    ensures never_fails { CopyNeverFails ⟦<Message<'a> as Clone>⟧.is_infallible }
{}

/// Messages are equal where they are of one protocol and have the same bytes.
pub fn equal_messages_are_read_alike<'a>()
    ensures { (a b : MessageValue) → IsTrue (⟦<Message<'a> as PartialEq>⟧.eq a b)
        ↔ (as_read a ≡ as_read b) }
{}

/// A copy of a fragment is the fragment and takes no memory. The same holds for whole messages and
/// for classes.
pub fn copies_of_fragments_are_values<'a>()
    ensures copies { CopyIsValue ⟦<SlicedFragment<'a> as Clone>⟧.is_clone }
    ensures never_fails { CopyNeverFails ⟦<SlicedFragment<'a> as Clone>⟧.is_infallible }
    ensures cut { CopyIsValue ⟦<IpFragment<'a> as Clone>⟧.is_clone }
    ensures cut_never_fails { CopyNeverFails ⟦<IpFragment<'a> as Clone>⟧.is_infallible }
    ensures whole { CopyIsValue ⟦<WholeMessage<'a> as Clone>⟧.is_clone }
    ensures whole_never_fails { CopyNeverFails ⟦<WholeMessage<'a> as Clone>⟧.is_infallible }
    ensures class { CopyIsValue ⟦<Class<'a> as Clone>⟧.is_clone }
    ensures class_never_fails { CopyNeverFails ⟦<Class<'a> as Clone>⟧.is_infallible }
{
    types_are_plain_data();
    copies_of_messages_are_values();
    ep_base::laws::traits::types_are_plain_data();
    ep_tag::laws::traits::types_are_plain_data();
}

/// Fragments are equal if all their fields are, and classes if they are of one variant and have the
/// same values: of a whole message addresses, number, bytes and how it is read, of a fragment also
/// what identifies its datagram.
pub fn classes_are_equal_by_value<'a>()
    ensures parts { (a b : SlicedFragmentValue) → IsTrue (⟦<SlicedFragment<'a> as PartialEq>⟧.eq a b)
        ↔ (fragment_values a ≡ fragment_values b) }
    ensures cut { (a b : IpFragmentValue) → IsTrue (⟦<IpFragment<'a> as PartialEq>⟧.eq a b)
        ↔ (as_class (returned.Cut a) ≡ as_class (returned.Cut b)) }
    ensures whole { (a b : WholeValue) → IsTrue (⟦<WholeMessage<'a> as PartialEq>⟧.eq a b)
        ↔ (as_class (returned.Whole a) ≡ as_class (returned.Whole b)) }
    ensures class { (a b : ClassValue) → IsTrue (⟦<Class<'a> as PartialEq>⟧.eq a b)
        ↔ (as_class a ≡ as_class b) }
{
    types_are_plain_data();
    equal_messages_are_read_alike();
    ep_base::laws::traits::types_are_plain_data();
    ep_tag::laws::traits::types_are_plain_data();
}

/// Addresses feed a hasher their version, as it is declared, and then source and destination, each
/// with its number of bytes.
pub fn addresses_hash_all_fields()
    ensures v4 { (source destination : List ℕ) → ⟦<Addresses as Hash>⟧.hash_input
        (version.V4 source destination)
        ≡ fed.isize (pos 0) ++ fed.slice fed.u8 source ++ fed.slice fed.u8 destination }
    ensures v6 { (source destination : List ℕ) → ⟦<Addresses as Hash>⟧.hash_input
        (version.V6 source destination)
        ≡ fed.isize (pos 1) ++ fed.slice fed.u8 source ++ fed.slice fed.u8 destination }
{}

/// A copy of a payload has the same value.
pub fn copies_of_payloads_are_values<'a>()
    ensures value { (value copy : PayloadSlice) → ⟦<PayloadSlice<'a> as Clone>⟧.is_clone value copy
        → payload_parsed copy ≡ payload_parsed value }
    ensures fails { CopyNeverFails ⟦<PayloadSlice<'a> as Clone>⟧.is_infallible }
{}

/// Payloads are equal if they have the same value. They are ordered by their variants, in the order
/// of declaration, then by their fields; a hasher is fed the variant and all fields.
pub fn payloads_compare_by_value<'a>()
    ensures equal { (a b : PayloadSlice) → IsTrue (⟦<PayloadSlice<'a> as PartialEq>⟧.eq a b)
        ↔ (payload_parsed a ≡ payload_parsed b) }
    ensures order { (a b : PayloadSlice) → ⟦<PayloadSlice<'a> as Ord>⟧.cmp a b
        ≡ slice_cmp nat_cmp (ordered_as (payload_parsed a)) (ordered_as (payload_parsed b)) }
    ensures hash { HashIsOf (λ p. hashed_as (payload_parsed p))
        ⟦<PayloadSlice<'a> as Hash>⟧.hash_input }
{
    ep_ipslice::laws::traits::types_are_plain_data();
    ep_tag::laws::traits::types_are_plain_data();
}

/// Headers of a packet are equal if their link headers, tags, other headers and payloads are. A
/// copy of them takes no memory.
pub fn packet_headers_compare_by_value<'a>()
    ensures copies { (value copy : PacketHeaders)
        → ⟦<PacketHeaders<'a> as Clone>⟧.is_clone value copy
        → headers_parsed copy ≡ headers_parsed value }
    ensures fails { CopyNeverFails ⟦<PacketHeaders<'a> as Clone>⟧.is_infallible }
    ensures equal { (a b : PacketHeaders) → IsTrue (⟦<PacketHeaders<'a> as PartialEq>⟧.eq a b)
        ↔ (headers_parsed a ≡ headers_parsed b) }
{
    types_are_plain_data();
    net_is_plain_data();
    copies_of_payloads_are_values();
    payloads_compare_by_value();
    ep_link::laws::traits::types_are_plain_data();
    ep_tag::laws::traits::types_are_plain_data();
}

/// A copy of a payload that is there as far as it goes has the same value, and takes no memory. Such
/// payloads are equal if they have the same value.
pub fn lax_payloads_compare_by_value<'a>()
    ensures copies { (value copy : LaxPayloadSlice)
        → ⟦<LaxPayloadSlice<'a> as Clone>⟧.is_clone value copy
        → lax_payload_parsed copy ≡ lax_payload_parsed value }
    ensures fails { CopyNeverFails ⟦<LaxPayloadSlice<'a> as Clone>⟧.is_infallible }
    ensures equal { (a b : LaxPayloadSlice) → IsTrue (⟦<LaxPayloadSlice<'a> as PartialEq>⟧.eq a b)
        ↔ (lax_payload_parsed a ≡ lax_payload_parsed b) }
{
    ep_ipslice::laws::traits::lax_payloads_are_equal_by_value();
    ep_link::laws::traits::types_are_plain_data();
    ep_tag::laws::traits::types_are_plain_data();
}

/// The same of headers of a packet, as far as it is there: equal are those whose link headers, tags,
/// other headers, payloads and faults are.
pub fn lax_headers_compare_by_value<'a>()
    ensures copies { (value copy : LaxPacketHeaders)
        → ⟦<LaxPacketHeaders<'a> as Clone>⟧.is_clone value copy
        → lax_headers_parsed copy ≡ lax_headers_parsed value }
    ensures fails { CopyNeverFails ⟦<LaxPacketHeaders<'a> as Clone>⟧.is_infallible }
    ensures equal { (a b : LaxPacketHeaders) → IsTrue (⟦<LaxPacketHeaders<'a> as PartialEq>⟧.eq a b)
        ↔ (lax_headers_parsed a ≡ lax_headers_parsed b) }
{
    types_are_plain_data();
    net_is_plain_data();
    lax_payloads_compare_by_value();
    ep_base::laws::traits::types_are_plain_data();
    ep_link::laws::traits::types_are_plain_data();
    ep_tag::laws::traits::types_are_plain_data();
}
