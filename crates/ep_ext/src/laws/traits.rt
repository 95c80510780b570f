//! What `Clone` and `PartialEq` of the types here mean, each clause about the relation that the
//! type's own impl names.
ghost use Rattle.ep_base.specs.Traits.{IsPlainData};

use crate::err::{ip_auth, ip_exts, ipv4_exts, ipv6_exts};
use crate::{
    IpAuthHeader, IpAuthHeaderSlice, Ipv4Extensions, Ipv6ExtSlot, Ipv6Extensions,
    Ipv6FragmentHeader, Ipv6FragmentHeaderSlice, Ipv6RawExtHeader, Ipv6RawExtHeaderSlice,
    Ipv6RoutingExtensions,
};
use ep_base::laws::traits::Value;

/// A copy is the value and takes no memory. Equal are the values that are the same: all fields of
/// headers or of an error, all bytes of a slice.
pub fn types_are_plain_data<'a>()
    ensures ipv6_raw_ext_header { IsPlainData ⟦<Ipv6RawExtHeader as Value>⟧ }
    ensures ipv6_fragment_header { IsPlainData ⟦<Ipv6FragmentHeader as Value>⟧ }
    ensures ip_auth_header { IsPlainData ⟦<IpAuthHeader as Value>⟧ }
    ensures ipv6_raw_ext_header_slice { IsPlainData ⟦<Ipv6RawExtHeaderSlice<'a> as Value>⟧ }
    ensures ipv6_fragment_header_slice { IsPlainData ⟦<Ipv6FragmentHeaderSlice<'a> as Value>⟧ }
    ensures ip_auth_header_slice { IsPlainData ⟦<IpAuthHeaderSlice<'a> as Value>⟧ }
    ensures ipv4_extensions { IsPlainData ⟦<Ipv4Extensions as Value>⟧ }
    ensures ipv6_routing_extensions { IsPlainData ⟦<Ipv6RoutingExtensions as Value>⟧ }
    ensures ipv6_ext_slot { IsPlainData ⟦<Ipv6ExtSlot as Value>⟧ }
    ensures ip_auth_header_error { IsPlainData ⟦<ip_auth::HeaderError as Value>⟧ }
    ensures icv_len_error { IsPlainData ⟦<ip_auth::IcvLenError as Value>⟧ }
    ensures ipv4_exts_walk_error { IsPlainData ⟦<ipv4_exts::ExtsWalkError as Value>⟧ }
    ensures ipv4_header_write_error { IsPlainData ⟦<ipv4_exts::HeaderWriteError as Value>⟧ }
    ensures ipv6_exts_walk_error { IsPlainData ⟦<ipv6_exts::ExtsWalkError as Value>⟧ }
    ensures ipv6_header_error { IsPlainData ⟦<ipv6_exts::HeaderError as Value>⟧ }
    ensures ipv6_header_write_error { IsPlainData ⟦<ipv6_exts::HeaderWriteError as Value>⟧ }
    ensures ext_payload_len_error { IsPlainData ⟦<ipv6_exts::ExtPayloadLenError as Value>⟧ }
    ensures ip_exts_walk_error { IsPlainData ⟦<ip_exts::ExtsWalkError as Value>⟧ }
    ensures ip_header_error { IsPlainData ⟦<ip_exts::HeaderError as Value>⟧ }
{
    ep_base::laws::traits::types_are_plain_data();
}

/// So are all extension headers of a packet.
pub fn chains_are_plain_data()
    ensures { IsPlainData ⟦<Ipv6Extensions as Value>⟧ }
{
    types_are_plain_data();
}
