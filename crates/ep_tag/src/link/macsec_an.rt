//! The association number of MACsec headers.
ghost use Rattle.std.specs.Prelude.{◌≡◌, ℕ, ◌≤◌, Some};
ghost use Rattle.std.specs.Fmt.{decimal};
ghost use Rattle.ep_base.specs.Bounded.{IsBounded};
ghost use Rattle.ep_base.specs.declared.err.value_type.ValueType.TheVariants as kind;

use ep_base::err::{ValueTooBigError, ValueType};
use std::fmt;
use std::marker::Model;

/// The association number of a MACsec header, 2 bits (IEEE 802.1AE, section 9.5): which of a
/// channel's secure associations protects the frame.
#[derive(Clone, Copy, Debug, PartialEq, Eq, Hash, PartialOrd, Ord)]
pub struct MacsecAn(u8);

impl Model for MacsecAn {
    ghost Value = { ℕ };

    ghost view = { λ an. an.0 };

    ghost invariant = { λ an. an.0 ≤ 3 };

    ghost inverse = { λ n. record { 0 = n } };
}

impl MacsecAn {
    /// The greatest number.
    pub const MAX_U8: u8 = 3;

    /// Association 0.
    pub const ZERO: MacsecAn = MacsecAn(0);

    /// The association number of a number. A number above 3 is refused.
    pub fn try_new(value: u8) -> Result<MacsecAn, ValueTooBigError<u8>>
        ensures { IsBounded ValueType.MacsecAn 3 value result }
    {
        if value <= MacsecAn::MAX_U8 {
            Ok(MacsecAn(value))
        } else {
            Err(ValueTooBigError {
                actual: value,
                max_allowed: MacsecAn::MAX_U8,
                value_type: ValueType::MacsecAn,
            })
        }
    }

    /// The number, 0 to 3.
    pub fn value(self) -> u8
        ensures value { result ≡ self }
        ensures small { result ≤ 3 }
    {
        self.0
    }
}

impl Default for MacsecAn {
    ghost is_default = { λ an. an ≡ 0 };

    fn default() -> Self {
        MacsecAn::ZERO
    }
}

impl TryFrom<u8> for MacsecAn {
    type Error = ValueTooBigError<u8>;

    ghost try_from_gives = { IsBounded kind.MacsecAn 3 };

    fn try_from(value: u8) -> Result<Self, ValueTooBigError<u8>> {
        MacsecAn::try_new(value)
    }
}

impl From<MacsecAn> for u8 {
    ghost from_gives = { λ an n. (n ≡ an) × (n ≤ 3) };

    fn from(an: MacsecAn) -> u8 {
        an.value()
    }
}

impl fmt::Display for MacsecAn {
    ghost output = { λ an. Some (decimal an) };

    fn fmt<W: fmt::Write>(&self, f: &mut fmt::Formatter<W>) -> fmt::Result {
        let n = self.0;
        write!(f, "{n}")
    }
}
