//! The priority code point of VLAN tags.
ghost use Rattle.std.specs.Prelude.{◌≡◌, ℕ, ◌≤◌, Some};
ghost use Rattle.std.specs.Fmt.{decimal};
ghost use Rattle.ep_base.specs.Bounded.{IsBounded};
ghost use Rattle.ep_base.specs.declared.err.value_type.ValueType.TheVariants as kind;

use ep_base::err::{ValueTooBigError, ValueType};
use std::fmt;
use std::marker::Model;

/// The priority code point of a VLAN tag, 3 bits (IEEE 802.1Q, section 6.9.3).
#[derive(Clone, Copy, Debug, PartialEq, Eq, Hash, PartialOrd, Ord)]
pub struct VlanPcp(u8);

impl Model for VlanPcp {
    ghost Value = { ℕ };

    ghost view = { λ pcp. pcp.0 };

    ghost invariant = { λ pcp. pcp.0 ≤ 7 };

    ghost inverse = { λ n. record { 0 = n } };
}

impl VlanPcp {
    /// The greatest number.
    pub const MAX_U8: u8 = 7;

    /// Priority 0, best effort.
    pub const ZERO: VlanPcp = VlanPcp(0);

    /// The priority of a number. A number above 7 is refused.
    pub fn try_new(value: u8) -> Result<VlanPcp, ValueTooBigError<u8>>
        ensures { IsBounded ValueType.VlanPcp 7 value result }
    {
        if value <= VlanPcp::MAX_U8 {
            Ok(VlanPcp(value))
        } else {
            Err(ValueTooBigError {
                actual: value,
                max_allowed: VlanPcp::MAX_U8,
                value_type: ValueType::VlanPcp,
            })
        }
    }

    /// The number, 0 to 7.
    pub fn value(self) -> u8
        ensures value { result ≡ self }
        ensures small { result ≤ 7 }
    {
        self.0
    }
}

impl Default for VlanPcp {
    ghost is_default = { λ pcp. pcp ≡ 0 };

    fn default() -> Self {
        VlanPcp::ZERO
    }
}

impl TryFrom<u8> for VlanPcp {
    type Error = ValueTooBigError<u8>;

    ghost try_from_gives = { IsBounded kind.VlanPcp 7 };

    fn try_from(value: u8) -> Result<Self, ValueTooBigError<u8>> {
        VlanPcp::try_new(value)
    }
}

impl From<VlanPcp> for u8 {
    ghost from_gives = { λ pcp n. (n ≡ pcp) × (n ≤ 7) };

    fn from(pcp: VlanPcp) -> u8 {
        pcp.value()
    }
}

impl fmt::Display for VlanPcp {
    ghost output = { λ pcp. Some (decimal pcp) };

    fn fmt<W: fmt::Write>(&self, f: &mut fmt::Formatter<W>) -> fmt::Result {
        let n = self.0;
        write!(f, "{n}")
    }
}
