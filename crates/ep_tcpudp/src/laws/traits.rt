//! What `Clone` and `PartialEq` of the types here mean, and `Hash` of the errors, each clause about
//! the relation that the type's own impl names. `laws::tcp` has the order and the hash of options.

ghost use Rattle.std.specs.Prelude.{◌≡◌, ◌++◌, ℕ, pos};
ghost use Rattle.std.specs.Hash as fed;
ghost use Rattle.ep_base.specs.Traits.{IsPlainData, VariantFeeds};
ghost use Rattle.ep_tcpudp.specs.declared.err.tcp.header_error.HeaderError.TheVariants as fault;
ghost use Rattle.ep_tcpudp.specs.declared.transport.tcp_option_read_error.TcpOptionReadError.TheVariants as wrong;
ghost use Rattle.ep_tcpudp.specs.declared.transport.tcp_option_write_error.TcpOptionWriteError.TheVariants as space;

use crate::err::tcp::HeaderError;
use crate::{
    TcpHeader, TcpHeaderSlice, TcpOptionElement, TcpOptionReadError, TcpOptionWriteError,
    TcpOptions, TcpOptionsIterator, TcpSlice, UdpHeader, UdpHeaderSlice, UdpSlice,
};
use ep_base::laws::traits::Value;
use std::hash::Hash;

/// A copy is the value and takes no memory. Equal are the values that are the same: of headers,
/// elements and errors all fields, of slices and options the bytes, of iterators what is left.
pub fn types_are_plain_data<'a>()
    ensures udp_header { IsPlainData ⟦<UdpHeader as Value>⟧ }
    ensures udp_header_slice { IsPlainData ⟦<UdpHeaderSlice<'a> as Value>⟧ }
    ensures udp_slice { IsPlainData ⟦<UdpSlice<'a> as Value>⟧ }
    ensures tcp_header { IsPlainData ⟦<TcpHeader as Value>⟧ }
    ensures tcp_header_slice { IsPlainData ⟦<TcpHeaderSlice<'a> as Value>⟧ }
    ensures tcp_slice { IsPlainData ⟦<TcpSlice<'a> as Value>⟧ }
    ensures tcp_options { IsPlainData ⟦<TcpOptions as Value>⟧ }
    ensures tcp_options_iterator { IsPlainData ⟦<TcpOptionsIterator<'a> as Value>⟧ }
    ensures tcp_option_element { IsPlainData ⟦<TcpOptionElement as Value>⟧ }
    ensures tcp_option_read_error { IsPlainData ⟦<TcpOptionReadError as Value>⟧ }
    ensures tcp_option_write_error { IsPlainData ⟦<TcpOptionWriteError as Value>⟧ }
    ensures header_error { IsPlainData ⟦<HeaderError as Value>⟧ }
{
    ep_base::laws::traits::types_are_plain_data();
}

/// A hasher is fed all fields of an error, and before them, where there are several, which of the
/// errors it is, as they are declared.
pub fn errors_hash_all_fields()
    ensures header { (data_offset : ℕ) → ⟦<HeaderError as Hash>⟧.hash_input
        (fault.DataOffsetTooSmall data_offset) ≡ fed.u8 data_offset }
    ensures end { (kind needed left : ℕ) → ⟦<TcpOptionReadError as Hash>⟧.hash_input
        (wrong.UnexpectedEndOfSlice kind needed left)
        ≡ fed.isize (pos 0) ++ fed.u8 kind ++ fed.u8 needed ++ fed.usize left }
    ensures size { (kind size : ℕ) → ⟦<TcpOptionReadError as Hash>⟧.hash_input
        (wrong.UnexpectedSize kind size) ≡ fed.isize (pos 1) ++ fed.u8 kind ++ fed.u8 size }
    ensures unknown { VariantFeeds ⟦<TcpOptionReadError as Hash>⟧.hash_input
        2 wrong.UnknownId fed.u8 }
    ensures space { (needed : ℕ) → ⟦<TcpOptionWriteError as Hash>⟧.hash_input
        (space.NotEnoughSpace needed) ≡ fed.usize needed }
{}
