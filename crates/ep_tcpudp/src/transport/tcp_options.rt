//! The options of a TCP header as a value.

ghost use Rattle.std.specs.Prelude.{◌≡◌, ◌-◌, ◌^◌, min, ℕ, List, [], length, ◌==◌};
ghost use Rattle.std.specs.Borrow.{sem};
ghost use Rattle.ep_tcpudp.specs.Options.{elements_bytes, options_of_elements};
ghost use Rattle.ep_tcpudp.specs.TcpOptions.{IsTcpOptions, options_of_bytes, whole_options};

use crate::{TcpOptionElement, TcpOptionWriteError, TcpOptionsIterator};
use arrayvec::ArrayVec;
use std::marker::Model;

/// The options of a TCP header: whole words of 4 bytes, at most ten of them (RFC 9293, section
/// 3.1). A contract sees them as their bytes.
#[derive(Clone, Debug, PartialEq, Eq, Hash, PartialOrd, Ord, Drop)]
pub struct TcpOptions {
    bytes: ArrayVec<u8, 40>,
}

impl Model for TcpOptions {
    ghost Value = { List ℕ };

    ghost view = { λ options. options.bytes.items };

    ghost invariant = { λ options. IsTcpOptions options.bytes.items };

    ghost inverse = { λ bytes. record { bytes = record { items = bytes } } };
}

impl TcpOptions {
    ghost use Rattle.ep_tcpudp.specs.TcpLends.{lends_bytes};

    /// The greatest length in bytes.
    pub const MAX_LEN: usize = 40;

    /// No options.
    pub fn new() -> Self
        ensures { result ≡ [] }
    {
        TcpOptions {
            bytes: ArrayVec::new(),
        }
    }

    /// The options that these bytes are. Where the last word isn't whole, it is filled up with 0,
    /// the option that ends the list. What the bytes mean is ignored.
    ///
    /// More than 40 bytes are refused with their number.
    pub fn try_from_slice(slice: &[u8]) -> Result<TcpOptions, TcpOptionWriteError>
        ensures { result ≡ options_of_bytes slice.now }
    {
        if slice.len() > TcpOptions::MAX_LEN {
            return Err(TcpOptionWriteError::NotEnoughSpace(slice.len()));
        }
        let mut bytes = ArrayVec::new();
        bytes.try_extend_from_slice(slice).unwrap();
        Ok(TcpOptions::filled(bytes))
    }

    /// The options of these elements in a row. Where the last word isn't whole, it is filled up
    /// with 0, the option that ends the list. Of a selective acknowledgement, the blocks that are
    /// there are written in their order.
    ///
    /// Elements that need more than 40 bytes are refused with the number of bytes.
    pub fn try_from_elements(
        elements: &[TcpOptionElement],
    ) -> Result<TcpOptions, TcpOptionWriteError>
        ensures { result ≡ options_of_elements elements.now }
    {
        let len = elements_len(elements);
        if len > TcpOptions::MAX_LEN {
            return Err(TcpOptionWriteError::NotEnoughSpace(len));
        }
        let mut bytes = ArrayVec::new();
        for element in elements {
            element.write_to(&mut bytes);
        }
        Ok(TcpOptions::filled(bytes))
    }

    /// The elements that the bytes encode, one after the other.
    pub fn elements_iter(&self) -> TcpOptionsIterator<'_>
        ensures { result ≡ self.now }
    {
        TcpOptionsIterator::from_slice(self.as_slice())
    }

    // These bytes, filled up to whole words.
    pub(crate) fn filled(mut bytes: ArrayVec<u8, 40>) -> Self
        ensures { result ≡ whole_options bytes.items }
    {
        let missing = (4 - bytes.len() % 4) % 4;
        bytes.try_extend_from_slice(&[0; 4][..missing]).unwrap();
        TcpOptions { bytes }
    }

    // The options of these bytes, whose length was tested before.
    pub(crate) fn from_words(words: &[u8]) -> Self
        requires { IsTcpOptions words.now }
        ensures { result ≡ words.now }
    {
        let mut bytes = ArrayVec::new();
        bytes.try_extend_from_slice(words).unwrap();
        TcpOptions { bytes }
    }

    /// The bytes.
    pub fn as_slice(&self) -> &[u8]
        ensures bytes { result.now ≡ self.now }
        ensures options { IsTcpOptions self.now }
    {
        self.bytes.as_slice()
    }

    /// The bytes, for writing. Their number stays.
    pub fn as_mut_slice(&mut self) -> &mut [u8]
        ensures* writes_back { sem 𝓛 (lends_bytes self.entry result) }
        ensures bytes { result.now ≡ self.old }
    {
        self.bytes.as_mut_slice()
    }

    /// The number of bytes.
    pub fn len(&self) -> usize
        ensures len { result ≡ length self.now }
        ensures options { IsTcpOptions self.now }
    {
        self.bytes.len()
    }

    /// The number of bytes, which is at most 40.
    pub fn len_u8(&self) -> u8
        ensures len { result ≡ length self.now }
        ensures options { IsTcpOptions self.now }
    {
        self.len() as u8
    }

    /// Whether there are none.
    pub fn is_empty(&self) -> bool
        ensures { result ≡ (length self.now == 0) }
    {
        self.bytes.is_empty()
    }
}

impl Default for TcpOptions {
    ghost is_default = { λ options. options ≡ [] };

    fn default() -> Self {
        TcpOptions::new()
    }
}

impl TryFrom<&[TcpOptionElement]> for TcpOptions {
    type Error = TcpOptionWriteError;

    ghost try_from_gives = { λ elements r. r ≡ options_of_elements elements.now };

    fn try_from(elements: &[TcpOptionElement]) -> Result<Self, TcpOptionWriteError> {
        TcpOptions::try_from_elements(elements)
    }
}

impl TryFrom<&[u8]> for TcpOptions {
    type Error = TcpOptionWriteError;

    ghost try_from_gives = { λ bytes r. r ≡ options_of_bytes bytes.now };

    fn try_from(bytes: &[u8]) -> Result<Self, TcpOptionWriteError> {
        TcpOptions::try_from_slice(bytes)
    }
}

impl From<[u8; 4]> for TcpOptions {
    ghost from_gives = { λ bytes options. options ≡ bytes };

    fn from(bytes: [u8; 4]) -> Self {
        TcpOptions::from_words(&bytes)
    }
}

impl From<[u8; 8]> for TcpOptions {
    ghost from_gives = { λ bytes options. options ≡ bytes };

    fn from(bytes: [u8; 8]) -> Self {
        TcpOptions::from_words(&bytes)
    }
}

impl From<[u8; 12]> for TcpOptions {
    ghost from_gives = { λ bytes options. options ≡ bytes };

    fn from(bytes: [u8; 12]) -> Self {
        TcpOptions::from_words(&bytes)
    }
}

impl From<[u8; 16]> for TcpOptions {
    ghost from_gives = { λ bytes options. options ≡ bytes };

    fn from(bytes: [u8; 16]) -> Self {
        TcpOptions::from_words(&bytes)
    }
}

impl From<[u8; 20]> for TcpOptions {
    ghost from_gives = { λ bytes options. options ≡ bytes };

    fn from(bytes: [u8; 20]) -> Self {
        TcpOptions::from_words(&bytes)
    }
}

impl From<[u8; 24]> for TcpOptions {
    ghost from_gives = { λ bytes options. options ≡ bytes };

    fn from(bytes: [u8; 24]) -> Self {
        TcpOptions::from_words(&bytes)
    }
}

impl From<[u8; 28]> for TcpOptions {
    ghost from_gives = { λ bytes options. options ≡ bytes };

    fn from(bytes: [u8; 28]) -> Self {
        TcpOptions::from_words(&bytes)
    }
}

impl From<[u8; 32]> for TcpOptions {
    ghost from_gives = { λ bytes options. options ≡ bytes };

    fn from(bytes: [u8; 32]) -> Self {
        TcpOptions::from_words(&bytes)
    }
}

impl From<[u8; 36]> for TcpOptions {
    ghost from_gives = { λ bytes options. options ≡ bytes };

    fn from(bytes: [u8; 36]) -> Self {
        TcpOptions::from_words(&bytes)
    }
}

impl From<[u8; 40]> for TcpOptions {
    ghost from_gives = { λ bytes options. options ≡ bytes };

    fn from(bytes: [u8; 40]) -> Self {
        TcpOptions::from_words(&bytes)
    }
}

// The number of bytes that these elements need, or the greatest number where it is above that.
fn elements_len(elements: &[TcpOptionElement]) -> usize
    ensures { result ≡ min (length (elements_bytes elements.now)) (2 ^ 64 - 1) }
{
    let mut len = 0usize;
    for element in elements {
        len = len.saturating_add(element.len());
    }
    len
}
