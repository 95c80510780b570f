//! A fragment header from a reader.

ghost use Rattle.std.specs.Prelude.{◌≡◌, ℕ, List, ◌++◌, IfOk, IfErr, MatchResult, Some, ◌≤◌, ◌-◌};
ghost use Rattle.std.specs.Io.KnownBytes.{Consumes};
ghost use Rattle.ep_ext.specs.Fragment.{IsFragment, fragment_header_of};
ghost use Rattle.ep_ext.specs.Limited.{at_next_layer, Takes, Refuses};
ghost use Rattle.ep_ext.specs.Reads.{IsIo};

use super::{Ipv6FragmentHeader, Ipv6FragmentHeaderSlice};
use crate::err::io::LimitedReadError;
use crate::io::LimitedReader;
use ep_base::err::Layer;
use std::io;
use std::io::Read;

impl Ipv6FragmentHeader {
    /// Reads a header, and leaves what follows it. It fails where a read fails or the reader ends
    /// within the header; then some bytes of the header may have been read.
    pub fn read<R: Read>(reader: &mut R) -> io::Result<Ipv6FragmentHeader>
        // The reader gave a header, and it is read so.
        ensures found { IfOk result (λ h. (header : List ℕ) × IsFragment header
            × Consumes (R.remaining reader.old) (R.remaining reader.new) header
            × (h ≡ fragment_header_of header)) }
        // Where a header is next, it is read, or a read failed.
        ensures only { (header rest : List ℕ) → IsFragment header
            → R.remaining reader.old ≡ Some (header ++ rest)
            → IfOk result (λ h. (h ≡ fragment_header_of header) × (R.remaining reader.new ≡ Some rest)) }
    {
        let mut bytes = [0; Self::LEN];
        match reader.read_exact(&mut bytes) {
            Ok(()) => Ok(Ipv6FragmentHeaderSlice::of_bytes(&bytes).to_header()),
            Err(error) => Err(error),
        }
    }

    /// Reads a header as the next layer, `Ipv6FragHeader`, of a reader with a limit, and leaves
    /// what follows it. A limit below 8 bytes is refused with nothing read; `Io` is as in `read`.
    pub fn read_limited<R: Read>(
        reader: &mut LimitedReader<R>,
    ) -> Result<Ipv6FragmentHeader, LimitedReadError>
        ensures found { IfOk result (λ h. (header : List ℕ) × IsFragment header
            × Takes R.remaining (at_next_layer reader.old Layer.Ipv6FragHeader) header reader.new
            × (h ≡ fragment_header_of header)) }
        ensures only { (header rest : List ℕ) → IsFragment header
            → R.remaining reader.old.reader ≡ Some (header ++ rest)
            → 8 ≤ reader.old.max_len - reader.old.read_len
            → MatchResult result (λ h. (h ≡ fragment_header_of header)
            × (R.remaining reader.new.reader ≡ Some rest)) IsIo }
        // Else a read failed, or the limit is too low.
        ensures err { IfErr result
            (λ e. Refuses (at_next_layer reader.old Layer.Ipv6FragHeader) 8 e reader.new) }
    {
        reader.start_layer(Layer::Ipv6FragHeader);
        let mut bytes = [0; Self::LEN];
        match reader.read_exact(&mut bytes) {
            Ok(()) => Ok(Ipv6FragmentHeaderSlice::of_bytes(&bytes).to_header()),
            Err(error) => Err(error),
        }
    }
}
