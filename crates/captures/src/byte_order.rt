//! The two orders of a number's bytes.
ghost use Rattle.std.specs.Prelude.{◌≡◌, ◌+◌, ◌≤◌, length};
ghost use Rattle.captures.specs.Numbers.{half, word};

/// Which byte of a number comes first.
#[derive(Clone, Copy)]
pub(crate) enum ByteOrder {
    /// The high byte.
    Big,
    /// The low byte.
    Little,
}

impl ByteOrder {
    /// The number that the two bytes at an offset encode.
    pub(crate) fn half(self, bytes: &[u8], at: usize) -> u16
        requires { at + 2 ≤ length bytes.now }
        ensures { result ≡ half self bytes.now at }
    {
        let encoded = [bytes[at], bytes[at + 1]];
        match self {
            ByteOrder::Big => u16::from_be_bytes(encoded),
            ByteOrder::Little => u16::from_le_bytes(encoded),
        }
    }

    /// The number that the four bytes at an offset encode.
    pub(crate) fn word(self, bytes: &[u8], at: usize) -> u32
        requires { at + 4 ≤ length bytes.now }
        ensures { result ≡ word self bytes.now at }
    {
        let encoded = [bytes[at], bytes[at + 1], bytes[at + 2], bytes[at + 3]];
        match self {
            ByteOrder::Big => u32::from_be_bytes(encoded),
            ByteOrder::Little => u32::from_le_bytes(encoded),
        }
    }
}
