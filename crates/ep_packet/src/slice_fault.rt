//! The errors of each layer as those of all layers, with offsets from an earlier start.
ghost use Rattle.std.specs.Prelude.{◌≡◌, IfSome};
ghost use Rattle.std.specs.Option.{option_map};
ghost use Rattle.ep_packet.specs.LaxTags.{stop_by};
ghost use Rattle.ep_packet.specs.Readable.{tcp_fault};
ghost use Rattle.ep_packet.specs.SliceFault.{CanMove, bounded_by, offset_by, of_ip, of_ipv4, of_ipv6, of_linux_sll};
ghost use Rattle.ep_packet.specs.SliceFault.{of_macsec, within};

use crate::err::packet::SliceError;
use ep_base::LenSource;
use ep_base::err::{Layer, LenError};
use ep_ipslice::err::{ip, ipv4, ipv6};
use ep_link::err::linux_sll;
use ep_tag::err::macsec;
use ep_tcpudp::err::tcp;

pub(crate) fn of_linux_sll(error: linux_sll::HeaderSliceError) -> SliceError
    ensures { result ≡ of_linux_sll error }
{
    match error {
        linux_sll::HeaderSliceError::Len(error) => SliceError::Len(error),
        linux_sll::HeaderSliceError::Content(error) => SliceError::LinuxSll(error),
    }
}

pub(crate) fn of_macsec(error: macsec::HeaderSliceError) -> SliceError
    ensures { result ≡ of_macsec error }
{
    match error {
        macsec::HeaderSliceError::Len(error) => SliceError::Len(error),
        macsec::HeaderSliceError::Content(error) => SliceError::Macsec(error),
    }
}

pub(crate) fn of_ipv4(error: ipv4::SliceError) -> SliceError
    ensures { result ≡ of_ipv4 error }
{
    match error {
        ipv4::SliceError::Len(error) => SliceError::Len(error),
        ipv4::SliceError::Header(error) => SliceError::Ipv4(error),
        ipv4::SliceError::Exts(error) => SliceError::Ipv4Exts(error),
    }
}

pub(crate) fn of_ipv6(error: ipv6::SliceError) -> SliceError
    ensures { result ≡ of_ipv6 error }
{
    match error {
        ipv6::SliceError::Len(error) => SliceError::Len(error),
        ipv6::SliceError::Header(error) => SliceError::Ipv6(error),
        ipv6::SliceError::Exts(error) => SliceError::Ipv6Exts(error),
    }
}

pub(crate) fn of_ip(error: ip::SliceError) -> SliceError
    ensures { result ≡ of_ip error }
{
    match error {
        ip::SliceError::Len(error) => SliceError::Len(error),
        ip::SliceError::IpHeaders(ip::HeadersError::Ip(error)) => SliceError::Ip(error),
        ip::SliceError::IpHeaders(ip::HeadersError::Ipv4Ext(error)) => SliceError::Ipv4Exts(error),
        ip::SliceError::IpHeaders(ip::HeadersError::Ipv6Ext(error)) => SliceError::Ipv6Exts(error),
    }
}

pub(crate) fn of_tcp(error: tcp::HeaderSliceError) -> SliceError
    ensures { result ≡ tcp_fault error }
{
    match error {
        tcp::HeaderSliceError::Len(error) => SliceError::Len(error),
        tcp::HeaderSliceError::Content(error) => SliceError::Tcp(error),
    }
}

/// The same error of a layer that starts `offset` bytes later.
pub(crate) fn moved(error: SliceError, offset: usize) -> SliceError
    requires { CanMove error offset }
    ensures { result ≡ offset_by offset error }
{
    match error {
        SliceError::Len(error) => SliceError::Len(error.add_offset(offset)),
        content => content,
    }
}

/// The same error of a layer that starts `offset` bytes later, with that layer, if there is one.
pub(crate) fn stop_moved(
    stop: Option<(SliceError, Layer)>,
    offset: usize,
) -> Option<(SliceError, Layer)>
    requires { IfSome stop (λ s. CanMove s.0 offset) }
    ensures { result ≡ option_map (stop_by offset) stop }
{
    match stop {
        Some((error, layer)) => Some((moved(error, offset), layer)),
        None => None,
    }
}

/// The same error in an IP payload that `source` bounds.
pub(crate) fn within(error: SliceError, source: LenSource) -> SliceError
    ensures { result ≡ within source error }
{
    match error {
        SliceError::Len(error) => SliceError::Len(LenError {
            len_source: bounded_by(source, error.len_source),
            ..error
        }),
        content => content,
    }
}

fn bounded_by(outer: LenSource, own: LenSource) -> LenSource
    ensures { result ≡ bounded_by outer own }
{
    match own {
        LenSource::Slice => outer,
        own => own,
    }
}
