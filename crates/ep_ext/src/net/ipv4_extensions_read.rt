//! The extension headers of an IPv4 packet from a reader.

ghost use Rattle.std.specs.Prelude.{◌≡◌, ◌≤◌, ◌-◌, ℕ, List, ◌++◌, length, IfOk, IfErr, MatchResult, Option, Some};
ghost use Rattle.ep_ext.specs.Ipv4Exts.{IsAuthAfter, auth_bytes, auth_number, ipv4_exts_of, number_after};
ghost use Rattle.ep_ext.specs.Limited.{at_next_layer};
ghost use Rattle.ep_ext.specs.Reads.{IsAuthIo, IsAuthLimitedIo, RefusesAuth, RefusesAuthWithin};
ghost use Rattle.ep_ext.specs.ReadsIpv4Exts.{ReadsAuthAfter, ReadsAuthWithin};

use super::{IpAuthHeader, Ipv4Extensions};
use crate::err::ip_auth::{HeaderLimitedReadError, HeaderReadError};
use crate::io::LimitedReader;
use ep_base::IpNumber;
use ep_base::err::Layer;
use std::io::Read;

impl Ipv4Extensions {
    /// Reads the authentication header after the number 51, as `IpAuthHeader::read` does, and
    /// leaves what follows it; after any other number it reads nothing. The result has the number
    /// after the header too, or `first`.
    pub fn read<R: Read>(
        reader: &mut R,
        first: IpNumber,
    ) -> Result<(Ipv4Extensions, IpNumber), HeaderReadError>
        ensures found { IfOk result
            (ReadsAuthAfter first.0 (R.remaining reader.old) (R.remaining reader.new)) }
        // Where a header is next, or none is named, it is read, or a read failed.
        ensures only { (auth : Option (List ℕ)) (rest : List ℕ) → IsAuthAfter first.0 auth
            → R.remaining reader.old ≡ Some (auth_bytes auth ++ rest)
            → MatchResult result (λ r. (r.0 ≡ ipv4_exts_of auth)
            × (r.1.0 ≡ number_after first.0 auth)
            × (R.remaining reader.new ≡ Some rest)) IsAuthIo }
        // Else a read failed, or what was read is no header.
        ensures err { IfErr result (λ e. (first.0 ≡ auth_number)
            × RefusesAuth (R.remaining reader.old) e (R.remaining reader.new)) }
    {
        if first != IpNumber::AUTHENTICATION_HEADER {
            return Ok((Ipv4Extensions { auth: None }, first));
        }
        match IpAuthHeader::read(reader) {
            Ok(header) => Ok(of_header(header)),
            Err(error) => Err(error),
        }
    }

    /// Reads the authentication header after the number 51 as the next layer of a reader with a
    /// limit, as `IpAuthHeader::read_limited` does; after any other number it leaves the reader as
    /// it is.
    pub fn read_limited<R: Read>(
        reader: &mut LimitedReader<R>,
        first: IpNumber,
    ) -> Result<(Ipv4Extensions, IpNumber), HeaderLimitedReadError>
        ensures found { IfOk result (ReadsAuthWithin R.remaining first.0 reader.old reader.new) }
        // Where a header is next and within the limit, or none is named, it is read, or a read
        // failed.
        ensures only { (auth : Option (List ℕ)) (rest : List ℕ) → IsAuthAfter first.0 auth
            → R.remaining reader.old.reader ≡ Some (auth_bytes auth ++ rest)
            → length (auth_bytes auth) ≤ reader.old.max_len - reader.old.read_len
            → MatchResult result (λ r. (r.0 ≡ ipv4_exts_of auth)
            × (r.1.0 ≡ number_after first.0 auth)
            × (R.remaining reader.new.reader ≡ Some rest)) IsAuthLimitedIo }
        // Else a read failed, the limit is too low, or what was read is no header.
        ensures err { IfErr result (λ e. (first.0 ≡ auth_number)
            × RefusesAuthWithin R.remaining (at_next_layer reader.old Layer.IpAuthHeader) e
            reader.new) }
    {
        if first != IpNumber::AUTHENTICATION_HEADER {
            return Ok((Ipv4Extensions { auth: None }, first));
        }
        match IpAuthHeader::read_limited(reader) {
            Ok(header) => Ok(of_header(header)),
            Err(error) => Err(error),
        }
    }
}

// The value of a header and the number that it names.
fn of_header(header: IpAuthHeader) -> (Ipv4Extensions, IpNumber)
    ensures { result ≡ (record { auth = Some header }, header.next_header) }
{
    let next = header.next_header;
    (Ipv4Extensions { auth: Some(header) }, next)
}
