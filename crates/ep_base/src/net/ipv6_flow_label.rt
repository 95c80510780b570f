//! The flow label of IPv6 headers.

ghost use Rattle.std.specs.Prelude.{◌≡◌, ℕ, ◌≤◌, Some};
ghost use Rattle.std.specs.Fmt.{decimal};
ghost use Rattle.ep_base.specs.Bounded.{IsBounded};
ghost use Rattle.ep_base.specs.declared.err.value_type.ValueType.TheVariants as kind;

use crate::err::{ValueTooBigError, ValueType};
use std::fmt;
use std::marker::Model;

/// The flow label of an IPv6 header (RFC 8200, section 3; RFC 6437), 20 bits.
#[derive(Clone, Copy, Debug, PartialEq, Eq, Hash, PartialOrd, Ord)]
pub struct Ipv6FlowLabel(u32);

impl Model for Ipv6FlowLabel {
    ghost Value = { ℕ };

    ghost view = { λ label. label.0 };

    ghost invariant = { λ label. label.0 ≤ 1048575 };

    ghost inverse = { λ n. record { 0 = n } };
}

impl Ipv6FlowLabel {
    /// The greatest number.
    pub const MAX_U32: u32 = 1048575;

    /// Flow label 0.
    pub const ZERO: Ipv6FlowLabel = Ipv6FlowLabel(0);

    /// The flow label of a number. A number above 1048575 is refused.
    pub fn try_new(value: u32) -> Result<Ipv6FlowLabel, ValueTooBigError<u32>>
        ensures { IsBounded ValueType.Ipv6FlowLabel 1048575 value result }
    {
        if value <= Ipv6FlowLabel::MAX_U32 {
            Ok(Ipv6FlowLabel(value))
        } else {
            Err(ValueTooBigError {
                actual: value,
                max_allowed: Ipv6FlowLabel::MAX_U32,
                value_type: ValueType::Ipv6FlowLabel,
            })
        }
    }

    /// The number, 0 to 1048575.
    pub fn value(self) -> u32
        ensures value { result ≡ self }
        ensures small { result ≤ 1048575 }
    {
        self.0
    }
}

impl Default for Ipv6FlowLabel {
    ghost is_default = { λ label. label ≡ 0 };

    fn default() -> Self {
        Ipv6FlowLabel::ZERO
    }
}

impl TryFrom<u32> for Ipv6FlowLabel {
    type Error = ValueTooBigError<u32>;

    ghost try_from_gives = { IsBounded kind.Ipv6FlowLabel 1048575 };

    fn try_from(value: u32) -> Result<Self, ValueTooBigError<u32>> {
        Ipv6FlowLabel::try_new(value)
    }
}

impl From<Ipv6FlowLabel> for u32 {
    ghost from_gives = { λ label n. (n ≡ label) × (n ≤ 1048575) };

    fn from(label: Ipv6FlowLabel) -> u32 {
        label.value()
    }
}

impl fmt::Display for Ipv6FlowLabel {
    ghost output = { λ label. Some (decimal label) };

    fn fmt<W: fmt::Write>(&self, f: &mut fmt::Formatter<W>) -> fmt::Result {
        let n = self.0;
        write!(f, "{n}")
    }
}
