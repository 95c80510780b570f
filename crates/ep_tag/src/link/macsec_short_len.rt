//! The short length of MACsec headers.
ghost use Rattle.std.specs.Prelude.{◌≡◌, ℕ, ◌≤◌, Some};
ghost use Rattle.std.specs.Fmt.{decimal};
ghost use Rattle.ep_base.specs.Bounded.{IsBounded};
ghost use Rattle.ep_tag.specs.MacsecLen.{short_len_for};
ghost use Rattle.ep_base.specs.declared.err.value_type.ValueType.TheVariants as kind;

use ep_base::err::{ValueTooBigError, ValueType};
use std::fmt;
use std::marker::Model;

/// The short length of a MACsec header, 6 bits (IEEE 802.1AE, section 9.7): how many bytes the
/// header protects, the ether type of an unmodified payload among them; 0 where it doesn't say.
#[derive(Clone, Copy, Debug, PartialEq, Eq, Hash, PartialOrd, Ord)]
pub struct MacsecShortLen(u8);

impl Model for MacsecShortLen {
    ghost Value = { ℕ };

    ghost view = { λ len. len.0 };

    ghost invariant = { λ len. len.0 ≤ 63 };

    ghost inverse = { λ n. record { 0 = n } };
}

impl MacsecShortLen {
    /// The greatest number.
    pub const MAX_U8: u8 = 63;

    /// Short length 0, which bounds nothing.
    pub const ZERO: MacsecShortLen = MacsecShortLen(0);

    /// The short length of a number. A number above 63 is refused.
    pub fn try_new(value: u8) -> Result<MacsecShortLen, ValueTooBigError<u8>>
        ensures { IsBounded ValueType.MacsecShortLen 63 value result }
    {
        if value <= MacsecShortLen::MAX_U8 {
            Ok(MacsecShortLen(value))
        } else {
            Err(ValueTooBigError {
                actual: value,
                max_allowed: MacsecShortLen::MAX_U8,
                value_type: ValueType::MacsecShortLen,
            })
        }
    }

    /// The short length of a number of protected bytes: that number where it is below 48, else 0, which
    /// doesn't say it (IEEE 802.1AE, section 9.7).
    pub fn from_len(len: usize) -> MacsecShortLen
        ensures { result ≡ short_len_for len }
    {
        if len < 48 {
            MacsecShortLen(len as u8)
        } else {
            MacsecShortLen::ZERO
        }
    }

    /// The number, 0 to 63.
    pub fn value(self) -> u8
        ensures value { result ≡ self }
        ensures small { result ≤ 63 }
    {
        self.0
    }
}

impl Default for MacsecShortLen {
    ghost is_default = { λ len. len ≡ 0 };

    fn default() -> Self {
        MacsecShortLen::ZERO
    }
}

impl TryFrom<u8> for MacsecShortLen {
    type Error = ValueTooBigError<u8>;

    ghost try_from_gives = { IsBounded kind.MacsecShortLen 63 };

    fn try_from(value: u8) -> Result<Self, ValueTooBigError<u8>> {
        MacsecShortLen::try_new(value)
    }
}

impl From<MacsecShortLen> for u8 {
    ghost from_gives = { λ len n. (n ≡ len) × (n ≤ 63) };

    fn from(len: MacsecShortLen) -> u8 {
        len.value()
    }
}

impl fmt::Display for MacsecShortLen {
    ghost output = { λ len. Some (decimal len) };

    fn fmt<W: fmt::Write>(&self, f: &mut fmt::Formatter<W>) -> fmt::Result {
        let n = self.0;
        write!(f, "{n}")
    }
}
