//! The extension headers of an IPv6 packet from a reader with a limit.

ghost use Rattle.std.specs.Prelude.{◌≡◌, ◌≤◌, ◌-◌, ℕ, List, [], ◌++◌, IfOk, IfErr, MatchResult, Some, length};
ghost use Rattle.ep_base.specs.Bytes.{num};
ghost use Rattle.ep_ext.specs.Chain.{IsPiece};
ghost use Rattle.ep_ext.specs.Limited.{at_next_layer, Takes};
ghost use Rattle.ep_ext.specs.ReadsExts.{IsExtsLimitedIo, IsWholeRow, ReadsRowWithin, RefusesExtWithin};
ghost use Rattle.ep_ext.specs.ReadsExts.{RefusesRowWithin, auth_exts_error, bytes_error, read_layer};
ghost use Rattle.ep_ext.specs.Value.{Piece, bytes_of, with_header_in_slot, value_of};

use super::passed::Passed;
use super::{IpAuthHeader, Ipv6ExtSlot, Ipv6Extensions, Ipv6FragmentHeader, Ipv6RawExtHeader};
use crate::err::io::LimitedReadError;
use crate::err::ip_auth;
use crate::err::ipv6_exts::{HeaderError, HeaderLimitedReadError};
use crate::io::LimitedReader;
use ep_base::IpNumber;
use std::io::Read;

impl Ipv6Extensions {
    /// Reads the extension headers in a row of which the first has the number `first`, as `read`
    /// does, from a reader with a limit. Each header is a layer of its own: `Ipv6ExtHeader`,
    /// `Ipv6FragHeader` or `IpAuthHeader`.
    ///
    /// A header that goes beyond the limit is refused with `Len`, before the bytes beyond are read:
    /// first the 8 bytes (12 of an authentication header) that hold its length, then all of them.
    pub fn read_limited<R: Read>(
        reader: &mut LimitedReader<R>,
        first: IpNumber,
    ) -> Result<(Ipv6Extensions, IpNumber), HeaderLimitedReadError>
        // The reader gave headers in a row within its limit, and they are read so.
        ensures found { IfOk result (ReadsRowWithin R.remaining first.0 reader.old reader.new) }
        // Where headers in a row are next and within the limit, they are read, or a read failed.
        ensures only { (pieces : List Piece) (last : ℕ) (rest : List ℕ)
            → IsWholeRow first.0 pieces last
            → R.remaining reader.old.reader ≡ Some (bytes_of pieces ++ rest)
            → length (bytes_of pieces) ≤ reader.old.max_len - reader.old.read_len
            → MatchResult result (λ r. (r.0 ≡ value_of pieces) × (r.1.0 ≡ last)
            × (R.remaining reader.new.reader ≡ Some rest)) IsExtsLimitedIo }
        // Else a read failed, the limit is too low, or the next is no header.
        ensures err { IfErr result
            (λ e. RefusesRowWithin R.remaining first.0 reader.old e reader.new) }
    {
        Self::read_row_within(reader, first)
    }

    fn read_row_within<R: Read>(
        reader: &mut LimitedReader<R>,
        first: IpNumber,
    ) -> Result<(Ipv6Extensions, IpNumber), HeaderLimitedReadError>
        ensures found { IfOk result (ReadsRowWithin R.remaining first.0 reader.old reader.new) }
        ensures err { IfErr result
            (λ e. RefusesRowWithin R.remaining first.0 reader.old e reader.new) }
    {
        let mut extensions = Ipv6Extensions::default();
        match extensions.fill_within(reader, first) {
            Ok(number) => Ok((extensions, number)),
            Err(error) => Err(error),
        }
    }

    // Reads the headers in a row into their slots.
    fn fill_within<R: Read>(
        &mut self,
        reader: &mut LimitedReader<R>,
        first: IpNumber,
    ) -> Result<IpNumber, HeaderLimitedReadError>
        requires { self.old ≡ value_of [] }
        ensures found { IfOk result
            (λ n. ReadsRowWithin R.remaining first.0 reader.old reader.new (self.new, n)) }
        ensures err { IfErr result
            (λ e. RefusesRowWithin R.remaining first.0 reader.old e reader.new) }
    {
        let mut passed = Passed::nothing();
        let mut number = first;
        'pieces: while let Some(slot) = passed.slot_of(number) {
            match self.read_within(reader, slot) {
                Ok(next) => {
                    number = next;
                    passed = passed.with(slot);
                }
                Err(error) => return Err(error),
            }
        }
        if number == IpNumber::IPV6_HEADER_HOP_BY_HOP {
            let fault = HeaderError::HopByHopNotAtStart;
            return Err(HeaderLimitedReadError::Content(fault));
        }
        Ok(number)
    }

    // Reads a header into its slot, and returns the number that it names.
    fn read_within<R: Read>(
        &mut self,
        reader: &mut LimitedReader<R>,
        slot: Ipv6ExtSlot,
    ) -> Result<IpNumber, HeaderLimitedReadError>
        ensures found { IfOk result (λ n. (header : List ℕ) × IsPiece slot header
            × Takes R.remaining (at_next_layer reader.old (read_layer slot)) header reader.new
            × (n.0 ≡ num header 0 1) × (self.new ≡ with_header_in_slot self.old slot header)) }
        ensures err { IfErr result (λ e. (number : ℕ)
            → RefusesExtWithin R.remaining (Some slot) number reader.old e reader.new) }
    {
        match slot {
            Ipv6ExtSlot::Fragment => match Ipv6FragmentHeader::read_limited(reader) {
                Ok(header) => {
                    let next = header.next_header;
                    self.fragment = Some(header);
                    Ok(next)
                }
                Err(error) => Err(of_bytes(error)),
            },
            Ipv6ExtSlot::Authentication => match IpAuthHeader::read_limited(reader) {
                Ok(header) => {
                    let next = header.next_header;
                    self.auth = Some(header);
                    Ok(next)
                }
                Err(error) => Err(of_auth(error)),
            },
            _ => match Ipv6RawExtHeader::read_limited(reader) {
                Ok(header) => Ok(self.put_raw(slot, header)),
                Err(error) => Err(of_bytes(error)),
            },
        }
    }
}

fn of_bytes(error: LimitedReadError) -> HeaderLimitedReadError
    ensures { result ≡ bytes_error error }
{
    match error {
        LimitedReadError::Io(error) => HeaderLimitedReadError::Io(error),
        LimitedReadError::Len(error) => HeaderLimitedReadError::Len(error),
    }
}

fn of_auth(error: ip_auth::HeaderLimitedReadError) -> HeaderLimitedReadError
    ensures { result ≡ auth_exts_error error }
{
    match error {
        ip_auth::HeaderLimitedReadError::Io(error) => HeaderLimitedReadError::Io(error),
        ip_auth::HeaderLimitedReadError::Len(error) => HeaderLimitedReadError::Len(error),
        ip_auth::HeaderLimitedReadError::Content(error) => HeaderLimitedReadError::Content(
            HeaderError::IpAuth(error),
        ),
    }
}
