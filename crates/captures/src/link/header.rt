//! The Ethernet II header that replaces a link's own.
ghost use Rattle.std.specs.Prelude.{◌≡◌, ◌≤◌, ◌+◌, ◌*◌, ◌++◌, ◌∷◌, [], length, take};
ghost use Rattle.hex.specs.Hex.{encode_lower};
ghost use Rattle.captures.specs.Framed.{ethernet_header};

use crate::text::line::append;

/// The bytes of an Ethernet II header.
pub(crate) const HEADER_LEN: usize = 14;

const BLOCK_LEN: usize = 16;

/// An Ethernet II header that replaces a link's own. Its destination is zeros.
#[derive(Clone, Copy, Debug, PartialEq, Eq)]
pub struct Header {
    /// The sender's address, zeros where the link gives none of six bytes.
    pub source: [u8; 6],
    /// The type of what follows the header.
    pub ether_type: u16,
}

impl Header {
    pub(crate) fn len(&self) -> usize
        ensures len { result ≡ length (ethernet_header self.now.source self.now.ether_type) }
        ensures few { result ≡ HEADER_LEN }
    {
        HEADER_LEN
    }

    /// Its bytes: a destination of zeros, the source and the ether type.
    pub fn to_bytes(&self) -> [u8; 14]
        ensures { result ≡ ethernet_header self.now.source self.now.ether_type }
    {
        let source = &self.source;
        let ether_type = self.ether_type.to_be_bytes();
        [
            0,
            0,
            0,
            0,
            0,
            0,
            source[0],
            source[1],
            source[2],
            source[3],
            source[4],
            source[5],
            ether_type[0],
            ether_type[1],
        ]
    }

    /// Puts its hex digits after the first `used` bytes, and returns how many are used then.
    #[inline(never)]
    pub(crate) fn append_hex(self, out: &mut [u8], used: usize) -> usize
        requires { used + 2 * length (ethernet_header self.source self.ether_type) ≤ length out.old }
        ensures end { result ≡ used + 2 * length (ethernet_header self.source self.ether_type) }
        ensures text { take result out.new ≡ take used out.old
            ++ encode_lower (ethernet_header self.source self.ether_type) }
    {
        let mut digits = [0; 2 * BLOCK_LEN];
        digits::encode(&self.block(), &mut digits);
        append(out, used, &digits[..2 * HEADER_LEN])
    }

    // Its bytes, and zeros after them: a block is encoded at once.
    fn block(&self) -> [u8; BLOCK_LEN]
        ensures { result ≡ ethernet_header self.now.source self.now.ether_type ++ 0 ∷ 0 ∷ [] }
    {
        let [a, b, c, d, e, f, g, h, i, j, k, l, m, n] = self.to_bytes();
        [a, b, c, d, e, f, g, h, i, j, k, l, m, n, 0, 0]
    }
}
