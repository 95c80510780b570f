//! What `Hash` of the errors here and of payloads feeds a hasher: the index of the variant in the
//! order of declaration, and then the fields.
ghost use Rattle.std.specs.Prelude.{◌≡◌, ◌++◌, [], ◌∷◌, pos};
ghost use Rattle.std.specs.Hash as fed;
ghost use Rattle.ep_base.specs.Traits.{VariantFeeds};
ghost use Rattle.ep_packet.specs.Payload.{hashed_as};
ghost use Rattle.ep_packet.specs.Payload.Payload.{Empty, Tcp};
ghost use Rattle.ep_packet.specs.declared.err.ip.headers_write_error.HeadersWriteError.TheVariants as write;
ghost use Rattle.ep_packet.specs.declared.err.net.net_set_next_header_error.NetSetNextHeaderError.TheVariants as next;
ghost use Rattle.ep_packet.specs.declared.err.packet.slice_error.SliceError.TheVariants as packet;
ghost use Rattle.ep_packet.specs.declared.err.packet.transport_checksum_error.TransportChecksumError.TheVariants as checksum;

use crate::err::ip::HeadersWriteError;
use crate::err::net::NetSetNextHeaderError;
use crate::err::packet::{SliceError, TransportChecksumError};
use ep_base::err::{LenError, ValueTooBigError};
use ep_ext::err::{ip_auth, ipv4_exts, ipv6_exts};
use ep_ip::err::{ipv4, ipv6};
use ep_ipslice::err::ip;
use ep_link::err::linux_sll;
use ep_tag::err::macsec;
use ep_tcpudp::err::tcp;
use std::hash::Hash;

/// Why there is no packet: too few bytes, or the header of a layer that breaks its format.
pub fn slice_errors_hash_all_fields()
    ensures len { VariantFeeds ⟦<SliceError as Hash>⟧.hash_input
        0 packet.Len ⟦<LenError as Hash>⟧.hash_input }
    ensures linux_sll { VariantFeeds ⟦<SliceError as Hash>⟧.hash_input
        1 packet.LinuxSll ⟦<linux_sll::HeaderError as Hash>⟧.hash_input }
    ensures macsec { VariantFeeds ⟦<SliceError as Hash>⟧.hash_input
        2 packet.Macsec ⟦<macsec::HeaderError as Hash>⟧.hash_input }
    ensures ip { VariantFeeds ⟦<SliceError as Hash>⟧.hash_input
        3 packet.Ip ⟦<ip::HeaderError as Hash>⟧.hash_input }
    ensures ipv4 { VariantFeeds ⟦<SliceError as Hash>⟧.hash_input
        4 packet.Ipv4 ⟦<ipv4::HeaderError as Hash>⟧.hash_input }
    ensures ipv6 { VariantFeeds ⟦<SliceError as Hash>⟧.hash_input
        5 packet.Ipv6 ⟦<ipv6::HeaderError as Hash>⟧.hash_input }
    ensures ipv4_exts { VariantFeeds ⟦<SliceError as Hash>⟧.hash_input
        6 packet.Ipv4Exts ⟦<ip_auth::HeaderError as Hash>⟧.hash_input }
    ensures ipv6_exts { VariantFeeds ⟦<SliceError as Hash>⟧.hash_input
        7 packet.Ipv6Exts ⟦<ipv6_exts::HeaderError as Hash>⟧.hash_input }
    ensures tcp { VariantFeeds ⟦<SliceError as Hash>⟧.hash_input
        8 packet.Tcp ⟦<tcp::HeaderError as Hash>⟧.hash_input }
{}

/// Why headers were not written: out of memory, or why they don't follow one another. The error of
/// setting a next header number has one variant, which feeds nothing.
pub fn write_errors_hash_all_fields()
    ensures memory { ⟦<HeadersWriteError as Hash>⟧.hash_input write.Memory ≡ fed.isize (pos 0) }
    ensures ipv4 { VariantFeeds ⟦<HeadersWriteError as Hash>⟧.hash_input
        1 write.Ipv4Exts ⟦<ipv4_exts::ExtsWalkError as Hash>⟧.hash_input }
    ensures ipv6 { VariantFeeds ⟦<HeadersWriteError as Hash>⟧.hash_input
        2 write.Ipv6Exts ⟦<ipv6_exts::ExtsWalkError as Hash>⟧.hash_input }
    ensures next { ⟦<NetSetNextHeaderError as Hash>⟧.hash_input next.ArpHeader ≡ [] }
{}

/// Why there is no checksum: the length that is too great, or ICMPv6 over IPv4.
pub fn checksum_errors_hash_all_fields()
    ensures len { VariantFeeds ⟦<TransportChecksumError as Hash>⟧.hash_input
        0 checksum.PayloadLen ⟦<ValueTooBigError<usize> as Hash>⟧.hash_input }
    ensures icmpv6 { ⟦<TransportChecksumError as Hash>⟧.hash_input checksum.Icmpv6InIpv4
        ≡ fed.isize (pos 1) }
{}

/// What a payload feeds a hasher: the index of the variant, as Rust's derive feeds it, and for
/// bytes their number, then each.
pub fn payload_hashes_at_literals()
    ensures empty { hashed_as Empty ≡ fed.isize (pos 0) }
    ensures bytes { hashed_as (Tcp (1 ∷ 2 ∷ []))
        ≡ fed.isize (pos 5) ++ fed.usize 2 ++ fed.u8 1 ++ fed.u8 2 }
{}
