//! A raw extension header from a reader.

ghost use Rattle.std.specs.Prelude.{◌≡◌, ℕ, List, ◌++◌, IfOk, IfErr, Some, length, take, ◌≤◌, ◌-◌, MatchResult};
ghost use Rattle.std.specs.Io.KnownBytes.{Consumes};
ghost use Rattle.ep_ext.specs.Limited.{at_next_layer, Takes};
ghost use Rattle.ep_ext.specs.Raw.{IsRawExt, raw_of, raw_len};
ghost use Rattle.ep_ext.specs.Reads.{RefusesHeader, IsIo};

use super::Ipv6RawExtHeader;
use crate::err::io::LimitedReadError;
use crate::io::LimitedReader;
use ep_base::err::Layer;
use std::io;
use std::io::Read;

impl Ipv6RawExtHeader {
    /// Reads a header, and leaves what follows it. It fails where a read fails or the reader ends
    /// within the header; then some bytes of the header may have been read.
    pub fn read<R: Read>(reader: &mut R) -> io::Result<Ipv6RawExtHeader>
        // The reader gave a header, and it is read so.
        ensures found { IfOk result (λ h. (header : List ℕ) × IsRawExt header
            × Consumes (R.remaining reader.old) (R.remaining reader.new) header
            × (h ≡ raw_of header)) }
        // Where a header is next, it is read, or a read failed.
        ensures only { (header rest : List ℕ) → IsRawExt header
            → R.remaining reader.old ≡ Some (header ++ rest)
            → IfOk result (λ h. (h ≡ raw_of header) × (R.remaining reader.new ≡ Some rest)) }
    {
        let mut bytes = [0; Self::MAX_LEN];
        let len = read_bytes(reader, &mut bytes)?;
        Ok(Self::of_bytes(&bytes[..len]))
    }

    /// Reads a header as the next layer, `Ipv6ExtHeader`, of a reader with a limit, and leaves what
    /// follows it. Refused are, in this order, a limit below 8 bytes, and one below the length by
    /// the length byte, each with nothing read beyond; `Io` is as in `read`.
    pub fn read_limited<R: Read>(
        reader: &mut LimitedReader<R>,
    ) -> Result<Ipv6RawExtHeader, LimitedReadError>
        ensures found { IfOk result (λ h. (header : List ℕ) × IsRawExt header
            × Takes R.remaining (at_next_layer reader.old Layer.Ipv6ExtHeader) header reader.new
            × (h ≡ raw_of header)) }
        ensures only { (header rest : List ℕ) → IsRawExt header
            → R.remaining reader.old.reader ≡ Some (header ++ rest)
            → length header ≤ reader.old.max_len - reader.old.read_len
            → MatchResult result (λ h. (h ≡ raw_of header)
            × (R.remaining reader.new.reader ≡ Some rest)) IsIo }
        // Else a read failed, or the limit is too low.
        ensures err { IfErr result (λ e.
            RefusesHeader R.remaining 8 raw_len (at_next_layer reader.old Layer.Ipv6ExtHeader) e
            reader.new) }
    {
        reader.start_layer(Layer::Ipv6ExtHeader);
        let mut bytes = [0; Self::MAX_LEN];
        match read_bytes_limited(reader, &mut bytes) {
            Ok(len) => Ok(Self::of_bytes(&bytes[..len])),
            Err(error) => Err(error),
        }
    }
}

// Reads the bytes of a header into `bytes` from its start, and returns how many they are.
fn read_bytes<R: Read>(reader: &mut R, bytes: &mut [u8]) -> io::Result<usize>
    requires { length bytes.old ≡ 2048 }
    ensures { IfOk result (λ len. (len ≤ 2048) × IsRawExt (take len bytes.new)
        × Consumes (R.remaining reader.old) (R.remaining reader.new) (take len bytes.new)) }
{
    reader.read_exact(&mut bytes[..8])?;
    let len = Ipv6RawExtHeader::len_by(bytes[1]);
    reader.read_exact(&mut bytes[8..len])?;
    Ok(len)
}

// The same of a reader with a limit.
fn read_bytes_limited<R: Read>(
    reader: &mut LimitedReader<R>,
    bytes: &mut [u8],
) -> Result<usize, LimitedReadError>
    requires { length bytes.old ≡ 2048 }
    ensures found { IfOk result (λ len. (len ≤ 2048) × IsRawExt (take len bytes.new)
        × Takes R.remaining reader.old (take len bytes.new) reader.new) }
    ensures err { IfErr result (λ e. RefusesHeader R.remaining 8 raw_len reader.old e reader.new) }
{
    reader.read_exact(&mut bytes[..8])?;
    let len = Ipv6RawExtHeader::len_by(bytes[1]);
    match reader.read_exact(&mut bytes[8..len]) {
        Ok(()) => Ok(len),
        Err(error) => Err(error),
    }
}
