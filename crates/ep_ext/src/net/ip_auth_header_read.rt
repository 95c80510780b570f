//! An authentication header from a reader.

ghost use Rattle.std.specs.Prelude.{◌≡◌, ℕ, List, ◌++◌, IfOk, IfErr, MatchResult, Some, length, take, ◌≤◌, ◌-◌};
ghost use Rattle.std.specs.Io.KnownBytes.{Consumes};
ghost use Rattle.ep_ext.specs.Auth.{IsAuth, auth_of};
ghost use Rattle.ep_ext.specs.Limited.{at_next_layer, Takes};
ghost use Rattle.ep_ext.specs.Reads.{RefusesAuth, RefusesAuthWithin, IsAuthIo, IsAuthLimitedIo};

use super::{IpAuthHeader, IpAuthHeaderSlice};
use crate::err::ip_auth::{HeaderError, HeaderLimitedReadError, HeaderReadError};
use crate::io::LimitedReader;
use ep_base::err::Layer;
use std::io::Read;

impl IpAuthHeader {
    /// Reads a header, and leaves what follows it. `Content` is the refusal of a length byte of 0,
    /// after 12 bytes; `Io` comes where a read fails or the reader ends within the header, and then
    /// some bytes of the header may have been read.
    pub fn read<R: Read>(reader: &mut R) -> Result<IpAuthHeader, HeaderReadError>
        // The reader gave a header, and it is read so.
        ensures found { IfOk result (λ h. (header : List ℕ) × IsAuth header
            × Consumes (R.remaining reader.old) (R.remaining reader.new) header
            × (h ≡ auth_of header)) }
        // Where a header is next, it is read, or a read failed.
        ensures only { (header rest : List ℕ) → IsAuth header
            → R.remaining reader.old ≡ Some (header ++ rest)
            → MatchResult result (λ h. (h ≡ auth_of header)
            × (R.remaining reader.new ≡ Some rest)) IsAuthIo }
        // Else a read failed, or what was read is no header.
        ensures err { IfErr result
            (λ e. RefusesAuth (R.remaining reader.old) e (R.remaining reader.new)) }
    {
        let mut bytes = [0; Self::MAX_LEN];
        match read_bytes(reader, &mut bytes) {
            Ok(len) => Ok(IpAuthHeaderSlice::of_bytes(&bytes[..len]).to_header()),
            Err(error) => Err(error),
        }
    }

    /// Reads a header as the next layer, `IpAuthHeader`, of a reader with a limit, and leaves what
    /// follows it. Refused are, in this order, a limit below 12 bytes, a length byte of 0, and a
    /// limit below the length by the length byte, each with nothing read beyond; `Io` is as in
    /// `read`.
    pub fn read_limited<R: Read>(
        reader: &mut LimitedReader<R>,
    ) -> Result<IpAuthHeader, HeaderLimitedReadError>
        ensures found { IfOk result (λ h. (header : List ℕ) × IsAuth header
            × Takes R.remaining (at_next_layer reader.old Layer.IpAuthHeader) header reader.new
            × (h ≡ auth_of header)) }
        ensures only { (header rest : List ℕ) → IsAuth header
            → R.remaining reader.old.reader ≡ Some (header ++ rest)
            → length header ≤ reader.old.max_len - reader.old.read_len
            → MatchResult result (λ h. (h ≡ auth_of header)
            × (R.remaining reader.new.reader ≡ Some rest)) IsAuthLimitedIo }
        // Else a read failed, the limit is too low, or what was read is no header.
        ensures err { IfErr result (λ e.
            RefusesAuthWithin R.remaining (at_next_layer reader.old Layer.IpAuthHeader) e
            reader.new) }
    {
        reader.start_layer(Layer::IpAuthHeader);
        let mut bytes = [0; Self::MAX_LEN];
        match read_bytes_limited(reader, &mut bytes) {
            Ok(len) => Ok(IpAuthHeaderSlice::of_bytes(&bytes[..len]).to_header()),
            Err(error) => Err(error),
        }
    }
}

// Reads the bytes of a header into `bytes` from its start, and returns how many they are.
fn read_bytes<R: Read>(reader: &mut R, bytes: &mut [u8]) -> Result<usize, HeaderReadError>
    requires { length bytes.old ≡ 1028 }
    ensures found { IfOk result (λ len. (len ≤ 1028) × IsAuth (take len bytes.new)
        × Consumes (R.remaining reader.old) (R.remaining reader.new) (take len bytes.new)) }
    ensures err { IfErr result
        (λ e. RefusesAuth (R.remaining reader.old) e (R.remaining reader.new)) }
{
    match reader.read_exact(&mut bytes[..12]) {
        Ok(()) => {}
        Err(error) => return Err(HeaderReadError::Io(error)),
    }
    if bytes[1] == 0 {
        return Err(HeaderReadError::Content(HeaderError::ZeroPayloadLen));
    }
    let len = IpAuthHeader::len_by(bytes[1]);
    match reader.read_exact(&mut bytes[12..len]) {
        Ok(()) => Ok(len),
        Err(error) => Err(HeaderReadError::Io(error)),
    }
}

// The same of a reader with a limit.
fn read_bytes_limited<R: Read>(
    reader: &mut LimitedReader<R>,
    bytes: &mut [u8],
) -> Result<usize, HeaderLimitedReadError>
    requires { length bytes.old ≡ 1028 }
    ensures found { IfOk result (λ len. (len ≤ 1028) × IsAuth (take len bytes.new)
        × Takes R.remaining reader.old (take len bytes.new) reader.new) }
    ensures err { IfErr result (λ e. RefusesAuthWithin R.remaining reader.old e reader.new) }
{
    match reader.read_exact(&mut bytes[..12]) {
        Ok(()) => {}
        Err(error) => return Err(error.into()),
    }
    if bytes[1] == 0 {
        return Err(HeaderLimitedReadError::Content(HeaderError::ZeroPayloadLen));
    }
    let len = IpAuthHeader::len_by(bytes[1]);
    match reader.read_exact(&mut bytes[12..len]) {
        Ok(()) => Ok(len),
        Err(error) => Err(error.into()),
    }
}
