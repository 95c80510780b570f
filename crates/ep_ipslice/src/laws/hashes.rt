//! What `Hash` of the errors here feeds a hasher: which variant one is, as they are declared, and
//! then what it holds.
ghost use Rattle.std.specs.Hash as fed;
ghost use Rattle.ep_base.specs.Traits.{VariantFeeds};
ghost use Rattle.ep_ipslice.specs.declared.err.ip.header_error.HeaderError.TheVariants as header;
ghost use Rattle.ep_ipslice.specs.declared.err.ip.headers_error.HeadersError.TheVariants as headers;
ghost use Rattle.ep_ipslice.specs.declared.err.ip.headers_slice_error.HeadersSliceError.TheVariants as headers_slice;
ghost use Rattle.ep_ipslice.specs.declared.err.ip.slice_error.SliceError.TheVariants as packet;
ghost use Rattle.ep_ipslice.specs.declared.err.ipv4.slice_error.SliceError.TheVariants as ipv4_packet;
ghost use Rattle.ep_ipslice.specs.declared.err.ipv6.slice_error.SliceError.TheVariants as ipv6_packet;

use crate::err::{ip, ipv4, ipv6};
use ep_base::err;
use ep_ext::err::{ip_auth, ipv6_exts};
use std::hash::Hash;

/// Why there is no packet of one version: too few bytes, a fault of the header, or one of the
/// extension headers.
pub fn packet_errors_hash_all_fields()
    ensures ipv4_len { VariantFeeds ⟦<ipv4::SliceError as Hash>⟧.hash_input
        0 ipv4_packet.Len ⟦<err::LenError as Hash>⟧.hash_input }
    ensures ipv4_header { VariantFeeds ⟦<ipv4::SliceError as Hash>⟧.hash_input
        1 ipv4_packet.Header ⟦<ep_ip::err::ipv4::HeaderError as Hash>⟧.hash_input }
    ensures ipv4_exts { VariantFeeds ⟦<ipv4::SliceError as Hash>⟧.hash_input
        2 ipv4_packet.Exts ⟦<ip_auth::HeaderError as Hash>⟧.hash_input }
    ensures ipv6_len { VariantFeeds ⟦<ipv6::SliceError as Hash>⟧.hash_input
        0 ipv6_packet.Len ⟦<err::LenError as Hash>⟧.hash_input }
    ensures ipv6_header { VariantFeeds ⟦<ipv6::SliceError as Hash>⟧.hash_input
        1 ipv6_packet.Header ⟦<ep_ip::err::ipv6::HeaderError as Hash>⟧.hash_input }
    ensures ipv6_exts { VariantFeeds ⟦<ipv6::SliceError as Hash>⟧.hash_input
        2 ipv6_packet.Exts ⟦<ipv6_exts::HeaderError as Hash>⟧.hash_input }
{}

/// Why there is no packet of either version, or no headers of one: too few bytes, or what is wrong
/// with the content.
pub fn ip_errors_hash_all_fields()
    ensures len { VariantFeeds ⟦<ip::SliceError as Hash>⟧.hash_input
        0 packet.Len ⟦<err::LenError as Hash>⟧.hash_input }
    ensures content { VariantFeeds ⟦<ip::SliceError as Hash>⟧.hash_input
        1 packet.IpHeaders ⟦<ip::HeadersError as Hash>⟧.hash_input }
    ensures headers_len { VariantFeeds ⟦<ip::HeadersSliceError as Hash>⟧.hash_input
        0 headers_slice.Len ⟦<err::LenError as Hash>⟧.hash_input }
    ensures headers_content { VariantFeeds ⟦<ip::HeadersSliceError as Hash>⟧.hash_input
        1 headers_slice.Content ⟦<ip::HeadersError as Hash>⟧.hash_input }
{}

/// What is wrong with the content of headers: with the number that is wrong of a base header, with
/// the error of extension headers.
pub fn content_errors_hash_all_fields()
    ensures version { VariantFeeds ⟦<ip::HeaderError as Hash>⟧.hash_input
        0 header.UnsupportedIpVersion fed.u8 }
    ensures length { VariantFeeds ⟦<ip::HeaderError as Hash>⟧.hash_input
        1 header.Ipv4HeaderLengthSmallerThanHeader fed.u8 }
    ensures base { VariantFeeds ⟦<ip::HeadersError as Hash>⟧.hash_input
        0 headers.Ip ⟦<ip::HeaderError as Hash>⟧.hash_input }
    ensures ipv4 { VariantFeeds ⟦<ip::HeadersError as Hash>⟧.hash_input
        1 headers.Ipv4Ext ⟦<ip_auth::HeaderError as Hash>⟧.hash_input }
    ensures ipv6 { VariantFeeds ⟦<ip::HeadersError as Hash>⟧.hash_input
        2 headers.Ipv6Ext ⟦<ipv6_exts::HeaderError as Hash>⟧.hash_input }
{}
