//! Laws of TCP (RFC 9293, section 3.1).

ghost use Rattle.std.specs.Prelude.{◌≡◌, ℕ, List, ◌++◌, IfOk, IsOkAnd, Ok, fold};
ghost use Rattle.std.specs.Cmp.Lexicographic.{slice_cmp};
ghost use Rattle.std.specs.Hash as fed;
ghost use Rattle.std.specs.Ordering.{nat_cmp};
ghost use Rattle.ep_base.specs.Bytes.{IsBytes};
ghost use Rattle.ep_base.specs.Prefixes.{TakesPrefix};
ghost use Rattle.ep_tcpudp.specs.Elements.{ItemsAreEncoded, NoOtherItems};
ghost use Rattle.ep_tcpudp.specs.Options.{ElementsComeBack};
ghost use Rattle.ep_tcpudp.specs.Tcp.{IsTcpHeader, ReadableTcp, tcp_header_of, encoding, with_reserved_bits_zero};
ghost use Rattle.ep_tcpudp.specs.TcpChecksum.{SealedTcpSumsToAllOnes, SealedSegmentSumsToAllOnes};
ghost use Rattle.ep_tcpudp.specs.TcpFault.{header_at, segment_at};

use crate::err::tcp::HeaderSliceError;
use crate::{TcpHeader, TcpOptions};
use ep_base::laws::checksum_sums_to_all_ones;
use std::cmp::Ordering;
use std::hash::{Hash, Hasher};

/// A receiver that sums a pseudo header, a header with the checksum that belongs to it and the
/// payload finds all ones; so it does with the bytes of a segment, whatever its reserved bits.
pub fn sealed_sums_to_all_ones()
    ensures header { SealedTcpSumsToAllOnes }
    ensures segment { SealedSegmentSumsToAllOnes }
{
    checksum_sums_to_all_ones();
}

/// The bytes of a header are a header, and encode its fields. Fields that were parsed are encoded
/// as the bytes that they were parsed from, but for the reserved bits, which are 0.
pub fn headers_are_their_bytes(header: &TcpHeader)
    ensures encoded { IsTcpHeader (encoding header.now) }
    ensures read { tcp_header_of (encoding header.now) ≡ header.now }
    ensures encoded_again { (bytes : List ℕ) → IsTcpHeader bytes → IsBytes bytes
        → encoding (tcp_header_of bytes) ≡ with_reserved_bits_zero bytes }
{
    let _bytes = header.to_bytes();
}

/// What is found at the start of bytes is a header, and a prefix of the bytes; a prefix that is a
/// header is found.
pub fn headers_are_found()
    ensures { (bytes : List ℕ) → TakesPrefix IsTcpHeader bytes (header_at bytes) }
{}

/// What is found are all of the bytes, which begin with a whole header; bytes that begin with one are
/// found.
pub fn segments_are_found()
    ensures found { (bytes : List ℕ) → IfOk (segment_at bytes)
        (λ segment. ReadableTcp bytes × (segment ≡ bytes)) }
    ensures only { (bytes : List ℕ) → ReadableTcp bytes → segment_at bytes ≡ Ok bytes }
{}

/// What `to_bytes` gives is read again, whatever follows it.
pub fn header_is_read_again<'a>(
    header: &TcpHeader,
    slice: &'a [u8],
) -> Result<(TcpHeader, &'a [u8]), HeaderSliceError>
    ensures { (rest : List ℕ) → slice.now ≡ encoding header.now ++ rest
        → IsOkAnd result (λ r. (r.0 ≡ header.now) × (r.1.now ≡ rest)) }
{
    let _bytes = header.to_bytes();
    TcpHeader::from_slice(slice)
}

/// The lengths of a TCP header and of its options in bytes, and its lengths in words of 4 bytes.
pub fn header_lengths()
    ensures least { TcpHeader.MIN_LEN ≡ 20 }
    ensures greatest { TcpHeader.MAX_LEN ≡ 60 }
    ensures options { TcpOptions.MAX_LEN ≡ 40 }
    ensures least_words { TcpHeader.MIN_DATA_OFFSET ≡ 5 }
    ensures greatest_words { TcpHeader.MAX_DATA_OFFSET ≡ 15 }
{}

/// Options are ordered as their bytes.
pub fn options_are_ordered_as_bytes(a: &TcpOptions, b: &TcpOptions) -> Ordering
    ensures { result ≡ slice_cmp nat_cmp a.now b.now }
{
    a.cmp(b)
}

/// Options feed a hasher what the slice of their bytes does.
pub fn options_hash_as_bytes<H: Hasher>(options: &TcpOptions, state: &mut H)
    ensures { state.new ≡ fold H.write state.old (fed.slice fed.u8 options.now) }
{
    options.hash(state);
}

/// What elements were written as is read as these elements and nothing more; of a selective
/// acknowledgement, the blocks that are there come first.
pub fn elements_come_back()
    ensures { ElementsComeBack }
{}

/// The bytes of options are read as the elements that they start with, up to the end of the list,
/// and then as the fault that it ends with, if there is one; and there is no other way to read
/// them.
pub fn items_are_elements()
    ensures encoded { ItemsAreEncoded }
    ensures no_other { NoOtherItems }
{}
