//! Laws of the extension headers that one value holds.
ghost use Rattle.std.specs.Prelude.{◌≡◌, ◌≢◌, Ok, ℕ, List, ◌∷◌, ◌++◌, IsOkAnd, false, None, [], length};
ghost use Rattle.ep_ext.specs.Follow.{Follows, IsReadAgain, has_slot, walk_fault};
ghost use Rattle.ep_ext.specs.Slot.{slot_of};
ghost use Rattle.ep_ext.specs.Ipv4Exts.{NamesAfter, auth_number, ipv4_exts_of, ipv4_exts_encoding};
ghost use Rattle.ep_ext.specs.Chain.{Chain, Row, fault_of};
ghost use Rattle.ep_ext.specs.Value.{Piece, bytes_of, value_of};
ghost use Rattle.ep_ext.specs.declared.net.ipv4_extensions.Ipv4Extensions.{Ipv4Extensions as Ipv4Value};
ghost use Rattle.ep_ext.specs.declared.net.ipv6_extensions.Ipv6Extensions.{Ipv6Extensions as Ipv6Value};

use crate::err::ip_auth;
use crate::err::ipv6_exts::{ExtsWalkError, HeaderSliceError};
use crate::{Ipv4Extensions, Ipv6Extensions, Ipv6RoutingExtensions};
use ep_base::IpNumber;

/// Headers of a value that all follow one another, up to a number that has no slot, are read again
/// from their bytes, whatever follows these: they are headers in a row and that rest, without a
/// fault, and the headers of that value alone.
pub fn written_chain_reads_back()
    ensures { (value : Ipv6Value) (first : ℕ) (pieces : List Piece) (last : ℕ) (rest : List ℕ)
        → IsReadAgain value → Follows value first pieces last
        → walk_fault value pieces last ≡ None → has_slot last ≡ false
        → Chain slot_of first (bytes_of pieces ++ rest) pieces last rest
        × (fault_of slot_of pieces last rest ≡ None) × (value_of pieces ≡ value) }
{}

/// The same of the call that reads: what `write` appends from a first number is read again from that
/// number.
pub fn read_call_gives_written_chain<'a>(
    headers: &Ipv6Extensions,
    first: IpNumber,
    slice: &'a [u8],
) -> Result<(Ipv6Extensions, IpNumber, &'a [u8]), HeaderSliceError>
    ensures { (pieces : List Piece) (last : ℕ) (rest : List ℕ)
        → Follows headers.now first.0 pieces last → walk_fault headers.now pieces last ≡ None
        → has_slot last ≡ false → slice.now ≡ bytes_of pieces ++ rest
        → IsOkAnd result (λ r. (r.0 ≡ headers.now) × (r.1.0 ≡ last) × (r.2.now ≡ rest)) }
{
    written_chain_reads_back();
    headers.has_whole_headers();
    Ipv6Extensions::from_slice(first, slice)
}

/// Headers that all follow one another have the length of all together.
pub fn written_chain_has_header_len(headers: &Ipv6Extensions) -> usize
    ensures { (first : ℕ) (pieces : List Piece) (last : ℕ)
        → Follows headers.now first pieces last → walk_fault headers.now pieces last ≡ None
        → length (bytes_of pieces) ≡ result }
{
    headers.header_len()
}

/// A value that was read from headers in a row names them in that row: the number after it is the
/// row's.
pub fn read_chain_is_followed(
    headers: &Ipv6Extensions,
    first: IpNumber,
) -> Result<IpNumber, ExtsWalkError>
    ensures { (pieces : List Piece) (last : ℕ) → Row slot_of [] first.0 pieces last
        → headers.now ≡ value_of pieces → IsOkAnd result (λ number. number.0 ≡ last) }
{
    headers.next_header(first)
}

/// After `set_next_headers` the first number leads through every header that is held to the last
/// number.
pub fn set_next_headers_names_every_header(
    headers: &mut Ipv6Extensions,
    last: IpNumber,
) -> Result<IpNumber, ExtsWalkError>
    ensures { IsOkAnd result (λ number. number.0 ≡ last.0) }
{
    let first = headers.set_next_headers(last);
    headers.next_header(first)
}

/// What `Ipv4Extensions::write` appends from a first number is read again from that number,
/// whatever follows it. Where no header is held the first number must name none.
pub fn written_ipv4_chain_reads_back<'a>(
    headers: &Ipv4Extensions,
    first: IpNumber,
    slice: &'a [u8],
) -> Result<(Ipv4Extensions, IpNumber, &'a [u8]), ip_auth::HeaderSliceError>
    ensures { (number : IpNumber) (rest : List ℕ) → NamesAfter headers.now first.0 (Ok number)
        → (headers.now.auth ≡ None → first.0 ≢ auth_number)
        → slice.now ≡ ipv4_exts_encoding headers.now ++ rest
        → IsOkAnd result (λ r. (r.0 ≡ headers.now) × (r.1.0 ≡ number.0) × (r.2.now ≡ rest)) }
{
    headers.has_whole_header();
    Ipv4Extensions::from_slice(first, slice)
}

/// No headers are the default, in both versions.
pub fn default_holds_no_header()
    ensures ipv4 { (value : Ipv4Value) → ⟦<Ipv4Extensions as Default>⟧.is_default value
        → value ≡ ipv4_exts_of None }
    ensures ipv6 { (value : Ipv6Value) → ⟦<Ipv6Extensions as Default>⟧.is_default value
        → value ≡ value_of [] }
{}

/// The least and the greatest length in bytes: of the extension headers of IPv4, of those of IPv6,
/// and of a routing header with its final destination options.
pub fn chain_lengths() -> [usize; 6]
    ensures { result ≡ 0 ∷ 1028 ∷ 0 ∷ 9228 ∷ 8 ∷ 4096 ∷ [] }
{
    [
        Ipv4Extensions::MIN_LEN,
        Ipv4Extensions::MAX_LEN,
        Ipv6Extensions::MIN_LEN,
        Ipv6Extensions::MAX_LEN,
        Ipv6RoutingExtensions::MIN_LEN,
        Ipv6RoutingExtensions::MAX_LEN,
    ]
}
