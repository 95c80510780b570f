//! Where bytes are.
ghost use Rattle.std.specs.Prelude.{◌≡◌, ◌+◌, ◌<◌, ◌≤◌, ◌^◌, length};
ghost use Rattle.etherparse_structs.specs.Part.{no_part, options_part, part_after, part_at, part_bytes};

/// Where bytes are in those that were passed.
#[repr(C)]
#[derive(Drop)]
pub struct EpPart {
    /// The offset of the first byte.
    pub offset: usize,
    /// How many bytes.
    pub len: usize,
}

impl EpPart {
    /// These bytes, of which the first has this offset.
    pub(crate) fn of(offset: usize, bytes: &[u8]) -> EpPart
        ensures { result ≡ part_at offset bytes.now }
    {
        EpPart {
            offset,
            len: bytes.len(),
        }
    }

    pub(crate) fn none() -> EpPart
        ensures { result ≡ no_part }
    {
        EpPart { offset: 0, len: 0 }
    }

    /// The bytes of this part, as far as these bytes have it.
    pub(crate) fn bytes_in<'a>(&self, bytes: &'a [u8]) -> &'a [u8]
        ensures bytes { result.now ≡ part_bytes bytes.now self.now }
        ensures most { length result.now ≤ self.now.len }
        ensures fits { self.now.offset + length result.now < 2 ^ 64 }
    {
        if bytes.len() <= self.offset {
            return &[];
        }
        let from = &bytes[self.offset..];
        if from.len() <= self.len {
            return from;
        }
        &from[..self.len]
    }

    /// Takes this many bytes from the start.
    pub(crate) fn take_first(&mut self, count: usize)
        requires some { count ≤ self.old.len }
        requires fits { self.old.offset + count < 2 ^ 64 }
        ensures { self.new ≡ part_after count self.old }
    {
        self.offset += count;
        self.len -= count;
    }

    /// What a header has after its first bytes.
    pub(crate) fn after_first(&self, count: usize) -> EpPart
        requires { count ≤ 40 }
        ensures { result ≡ options_part count self.now }
    {
        if self.len <= count || self.offset > usize::MAX - count {
            return EpPart::none();
        }
        EpPart {
            offset: self.offset + count,
            len: self.len - count,
        }
    }
}
