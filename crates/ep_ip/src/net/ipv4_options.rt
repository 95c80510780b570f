//! The options of IPv4 headers.

ghost use Rattle.std.specs.Prelude.{◌≡◌, ℕ, List, [], length, ◌==◌};
ghost use Rattle.std.specs.Borrow.{sem};
ghost use Rattle.ep_ip.specs.Ipv4Options.{IsIpv4Options, IsIpv4OptionsOf};

use crate::err::ipv4::BadOptionsLen;
use arrayvec::ArrayVec;
use std::marker::Model;

/// The options of an IPv4 header: whole words of 4 bytes, at most ten of them
/// (RFC 791, section 3.1). A contract sees them as their bytes.
///
/// What the bytes mean, and how the last word is padded, is not tested.
#[derive(Clone, Debug, PartialEq, Eq, Hash, PartialOrd, Ord, Drop)]
pub struct Ipv4Options {
    bytes: ArrayVec<u8, 40>,
}

impl Model for Ipv4Options {
    ghost Value = { List ℕ };

    ghost view = { λ options. options.bytes.items };

    ghost invariant = { λ options. IsIpv4Options options.bytes.items };

    ghost inverse = { λ bytes. record { bytes = record { items = bytes } } };
}

impl Ipv4Options {
    ghost use Rattle.ep_ip.specs.Ipv4Lends.{lends_bytes};

    /// The greatest length in bytes.
    pub const MAX_LEN: u8 = 40;

    /// No options.
    pub fn new() -> Self
        ensures { result ≡ [] }
    {
        Ipv4Options {
            bytes: ArrayVec::new(),
        }
    }

    // The options of these bytes, whose length was tested before.
    pub(crate) fn from_words(words: &[u8]) -> Self
        requires { IsIpv4Options words.now }
        ensures { result ≡ words.now }
    {
        let mut bytes = ArrayVec::new();
        bytes.try_extend_from_slice(words).unwrap();
        Ipv4Options { bytes }
    }

    /// The bytes.
    pub fn as_slice(&self) -> &[u8]
        ensures bytes { result.now ≡ self.now }
        ensures options { IsIpv4Options self.now }
    {
        self.bytes.as_slice()
    }

    /// The bytes, for writing. Their number stays.
    pub fn as_mut_slice(&mut self) -> &mut [u8]
        ensures* writes_back { sem 𝓛 (lends_bytes self.entry result) }
        ensures bytes { result.now ≡ self.old }
    {
        self.bytes.as_mut_slice()
    }

    /// The number of bytes.
    pub fn len(&self) -> usize
        ensures len { result ≡ length self.now }
        ensures options { IsIpv4Options self.now }
    {
        self.bytes.len()
    }

    /// The number of bytes, which is at most 40.
    pub fn len_u8(&self) -> u8
        ensures len { result ≡ length self.now }
        ensures options { IsIpv4Options self.now }
    {
        self.len() as u8
    }

    /// Whether there are none.
    pub fn is_empty(&self) -> bool
        ensures { result ≡ (length self.now == 0) }
    {
        self.bytes.is_empty()
    }
}

impl Default for Ipv4Options {
    ghost is_default = { λ options. options ≡ [] };

    fn default() -> Self {
        Ipv4Options::new()
    }
}

impl TryFrom<&[u8]> for Ipv4Options {
    type Error = BadOptionsLen;

    ghost try_from_gives = { λ bytes r. IsIpv4OptionsOf bytes.now r };

    fn try_from(bytes: &[u8]) -> Result<Self, BadOptionsLen> {
        if bytes.len() > 40 || bytes.len() % 4 != 0 {
            return Err(BadOptionsLen {
                bad_len: bytes.len(),
            });
        }
        Ok(Ipv4Options::from_words(bytes))
    }
}

impl From<[u8; 0]> for Ipv4Options {
    ghost from_gives = { λ bytes options. options ≡ bytes };

    fn from(bytes: [u8; 0]) -> Self {
        Ipv4Options::from_words(&bytes)
    }
}

impl From<[u8; 4]> for Ipv4Options {
    ghost from_gives = { λ bytes options. options ≡ bytes };

    fn from(bytes: [u8; 4]) -> Self {
        Ipv4Options::from_words(&bytes)
    }
}

impl From<[u8; 8]> for Ipv4Options {
    ghost from_gives = { λ bytes options. options ≡ bytes };

    fn from(bytes: [u8; 8]) -> Self {
        Ipv4Options::from_words(&bytes)
    }
}

impl From<[u8; 12]> for Ipv4Options {
    ghost from_gives = { λ bytes options. options ≡ bytes };

    fn from(bytes: [u8; 12]) -> Self {
        Ipv4Options::from_words(&bytes)
    }
}

impl From<[u8; 16]> for Ipv4Options {
    ghost from_gives = { λ bytes options. options ≡ bytes };

    fn from(bytes: [u8; 16]) -> Self {
        Ipv4Options::from_words(&bytes)
    }
}

impl From<[u8; 20]> for Ipv4Options {
    ghost from_gives = { λ bytes options. options ≡ bytes };

    fn from(bytes: [u8; 20]) -> Self {
        Ipv4Options::from_words(&bytes)
    }
}

impl From<[u8; 24]> for Ipv4Options {
    ghost from_gives = { λ bytes options. options ≡ bytes };

    fn from(bytes: [u8; 24]) -> Self {
        Ipv4Options::from_words(&bytes)
    }
}

impl From<[u8; 28]> for Ipv4Options {
    ghost from_gives = { λ bytes options. options ≡ bytes };

    fn from(bytes: [u8; 28]) -> Self {
        Ipv4Options::from_words(&bytes)
    }
}

impl From<[u8; 32]> for Ipv4Options {
    ghost from_gives = { λ bytes options. options ≡ bytes };

    fn from(bytes: [u8; 32]) -> Self {
        Ipv4Options::from_words(&bytes)
    }
}

impl From<[u8; 36]> for Ipv4Options {
    ghost from_gives = { λ bytes options. options ≡ bytes };

    fn from(bytes: [u8; 36]) -> Self {
        Ipv4Options::from_words(&bytes)
    }
}

impl From<[u8; 40]> for Ipv4Options {
    ghost from_gives = { λ bytes options. options ≡ bytes };

    fn from(bytes: [u8; 40]) -> Self {
        Ipv4Options::from_words(&bytes)
    }
}
