//! The extension headers of an IPv6 packet from a reader.

ghost use Rattle.std.specs.Prelude.{◌≡◌, ℕ, List, [], ◌++◌, IfOk, IfErr, MatchResult, Some};
ghost use Rattle.std.specs.Io.KnownBytes.{Consumes};
ghost use Rattle.ep_base.specs.Bytes.{num};
ghost use Rattle.ep_ext.specs.Chain.{IsPiece};
ghost use Rattle.ep_ext.specs.ReadsExts.{IsExtsIo, IsWholeRow, ReadsRow, RefusesExt, RefusesRow};
ghost use Rattle.ep_ext.specs.Value.{Piece, bytes_of, with_header_in_slot, value_of};

use super::passed::Passed;
use super::{IpAuthHeader, Ipv6ExtSlot, Ipv6Extensions, Ipv6FragmentHeader, Ipv6RawExtHeader};
use crate::err::ip_auth;
use crate::err::ipv6_exts::{HeaderError, HeaderReadError};
use ep_base::IpNumber;
use std::io::Read;

impl Ipv6Extensions {
    /// Reads the extension headers in a row of which the first has the number `first`, as
    /// `from_slice` takes them from a slice, and leaves what follows them. The result has the
    /// number after the headers too.
    ///
    /// It refuses a number 0 after a header with `HopByHopNotAtStart` before it reads further, and
    /// an authentication header of a length field of 0 after its 12 bytes. `Io` comes where a read
    /// fails or the reader ends within a header; then some bytes of the header may have been read.
    pub fn read<R: Read>(
        reader: &mut R,
        first: IpNumber,
    ) -> Result<(Ipv6Extensions, IpNumber), HeaderReadError>
        // The reader gave headers in a row, and they are read so.
        ensures found { IfOk result
            (ReadsRow first.0 (R.remaining reader.old) (R.remaining reader.new)) }
        // Where headers in a row are next, they are read, or a read failed.
        ensures only { (pieces : List Piece) (last : ℕ) (rest : List ℕ)
            → IsWholeRow first.0 pieces last
            → R.remaining reader.old ≡ Some (bytes_of pieces ++ rest)
            → MatchResult result (λ r. (r.0 ≡ value_of pieces) × (r.1.0 ≡ last)
            × (R.remaining reader.new ≡ Some rest)) IsExtsIo }
        // Else a read failed, or the next is no header.
        ensures err { IfErr result
            (λ e. RefusesRow first.0 (R.remaining reader.old) e (R.remaining reader.new)) }
    {
        Self::read_row(reader, first)
    }

    fn read_row<R: Read>(
        reader: &mut R,
        first: IpNumber,
    ) -> Result<(Ipv6Extensions, IpNumber), HeaderReadError>
        ensures found { IfOk result
            (ReadsRow first.0 (R.remaining reader.old) (R.remaining reader.new)) }
        ensures err { IfErr result
            (λ e. RefusesRow first.0 (R.remaining reader.old) e (R.remaining reader.new)) }
    {
        let mut extensions = Ipv6Extensions::default();
        match extensions.fill_from(reader, first) {
            Ok(number) => Ok((extensions, number)),
            Err(error) => Err(error),
        }
    }

    // Reads the headers in a row into their slots.
    fn fill_from<R: Read>(
        &mut self,
        reader: &mut R,
        first: IpNumber,
    ) -> Result<IpNumber, HeaderReadError>
        requires { self.old ≡ value_of [] }
        ensures found { IfOk result
            (λ n. ReadsRow first.0 (R.remaining reader.old)
            (R.remaining reader.new) (self.new, n)) }
        ensures err { IfErr result
            (λ e. RefusesRow first.0 (R.remaining reader.old) e (R.remaining reader.new)) }
    {
        let mut passed = Passed::nothing();
        let mut number = first;
        'pieces: while let Some(slot) = passed.slot_of(number) {
            match self.read_at(reader, slot) {
                Ok(next) => {
                    number = next;
                    passed = passed.with(slot);
                }
                Err(error) => return Err(error),
            }
        }
        if number == IpNumber::IPV6_HEADER_HOP_BY_HOP {
            return Err(HeaderReadError::Content(HeaderError::HopByHopNotAtStart));
        }
        Ok(number)
    }

    // Reads a header into its slot, and returns the number that it names.
    fn read_at<R: Read>(
        &mut self,
        reader: &mut R,
        slot: Ipv6ExtSlot,
    ) -> Result<IpNumber, HeaderReadError>
        ensures found { IfOk result (λ n. (header : List ℕ) × IsPiece slot header
            × Consumes (R.remaining reader.old) (R.remaining reader.new) header
            × (n.0 ≡ num header 0 1) × (self.new ≡ with_header_in_slot self.old slot header)) }
        ensures err { IfErr result (λ e. (number : ℕ)
            → RefusesExt (Some slot) number (R.remaining reader.old) e (R.remaining reader.new)) }
    {
        match slot {
            Ipv6ExtSlot::Fragment => match Ipv6FragmentHeader::read(reader) {
                Ok(header) => {
                    let next = header.next_header;
                    self.fragment = Some(header);
                    Ok(next)
                }
                Err(error) => Err(HeaderReadError::Io(error)),
            },
            Ipv6ExtSlot::Authentication => match IpAuthHeader::read(reader) {
                Ok(header) => {
                    let next = header.next_header;
                    self.auth = Some(header);
                    Ok(next)
                }
                Err(ip_auth::HeaderReadError::Io(error)) => Err(HeaderReadError::Io(error)),
                Err(ip_auth::HeaderReadError::Content(error)) => Err(HeaderReadError::Content(
                    HeaderError::IpAuth(error),
                )),
            },
            _ => match Ipv6RawExtHeader::read(reader) {
                Ok(header) => Ok(self.put_raw(slot, header)),
                Err(error) => Err(HeaderReadError::Io(error)),
            },
        }
    }
}
