//! The names of differentiated services code points.

ghost use Rattle.std.specs.Prelude.{◌≡◌, ◌==◌};
ghost use Rattle.std.proofs.Common.{rules};
ghost use Rattle.std.specs.Cmp.{partial_order_from_own_ties, unsigned_ties};
ghost use Rattle.std.specs.Cmp.Rules.{comparing, hashing};
ghost use Rattle.std.specs.Ordering.{as_partial_cmp, nat_cmp, on};
ghost use Rattle.std.specs.Hash as fed;
ghost use Rattle.ep_base.specs.IpDscpKnown.{code_point, IsKnown};

use super::{IpDscp, IpDscpUnknownValueError};
use std::cmp::Ordering;
use std::hash::{Hash, Hasher};

/// The differentiated services code points that have a name. They are ordered by code point.
#[derive(Clone, Copy, Debug)]
pub enum IpDscpKnown {
    /// Class selector 0 (RFC 2474).
    ClassSelector0 = 0,
    /// Class selector 1 (RFC 2474).
    ClassSelector1 = 8,
    /// Class selector 2 (RFC 2474).
    ClassSelector2 = 16,
    /// Class selector 3 (RFC 2474).
    ClassSelector3 = 24,
    /// Class selector 4 (RFC 2474).
    ClassSelector4 = 32,
    /// Class selector 5 (RFC 2474).
    ClassSelector5 = 40,
    /// Class selector 6 (RFC 2474).
    ClassSelector6 = 48,
    /// Class selector 7 (RFC 2474).
    ClassSelector7 = 56,
    /// Assured forwarding, class 1, low drop probability (RFC 2597).
    AfGroup1Low = 10,
    /// Assured forwarding, class 1, medium drop probability (RFC 2597).
    AfGroup1Medium = 12,
    /// Assured forwarding, class 1, high drop probability (RFC 2597).
    AfGroup1High = 14,
    /// Assured forwarding, class 2, low drop probability (RFC 2597).
    AfGroup2Low = 18,
    /// Assured forwarding, class 2, medium drop probability (RFC 2597).
    AfGroup2Medium = 20,
    /// Assured forwarding, class 2, high drop probability (RFC 2597).
    AfGroup2High = 22,
    /// Assured forwarding, class 3, low drop probability (RFC 2597).
    AfGroup3Low = 26,
    /// Assured forwarding, class 3, medium drop probability (RFC 2597).
    AfGroup3Medium = 28,
    /// Assured forwarding, class 3, high drop probability (RFC 2597).
    AfGroup3High = 30,
    /// Assured forwarding, class 4, low drop probability (RFC 2597).
    AfGroup4Low = 34,
    /// Assured forwarding, class 4, medium drop probability (RFC 2597).
    AfGroup4Medium = 36,
    /// Assured forwarding, class 4, high drop probability (RFC 2597).
    AfGroup4High = 38,
    /// Expedited forwarding (RFC 3246).
    ExpeditedForwarding = 46,
    /// Voice admit (RFC 5865).
    VoiceAdmit = 44,
    /// Lower effort (RFC 8622).
    LowerEffort = 1,
}

impl IpDscpKnown {
    /// The name of a code point. The 41 values without a name are refused.
    pub fn try_from_ip_dscp(value: IpDscp) -> Result<IpDscpKnown, IpDscpUnknownValueError>
        ensures { IsKnown value result }
    {
        match value.value() {
            0 => Ok(IpDscpKnown::ClassSelector0),
            8 => Ok(IpDscpKnown::ClassSelector1),
            16 => Ok(IpDscpKnown::ClassSelector2),
            24 => Ok(IpDscpKnown::ClassSelector3),
            32 => Ok(IpDscpKnown::ClassSelector4),
            40 => Ok(IpDscpKnown::ClassSelector5),
            48 => Ok(IpDscpKnown::ClassSelector6),
            56 => Ok(IpDscpKnown::ClassSelector7),
            10 => Ok(IpDscpKnown::AfGroup1Low),
            12 => Ok(IpDscpKnown::AfGroup1Medium),
            14 => Ok(IpDscpKnown::AfGroup1High),
            18 => Ok(IpDscpKnown::AfGroup2Low),
            20 => Ok(IpDscpKnown::AfGroup2Medium),
            22 => Ok(IpDscpKnown::AfGroup2High),
            26 => Ok(IpDscpKnown::AfGroup3Low),
            28 => Ok(IpDscpKnown::AfGroup3Medium),
            30 => Ok(IpDscpKnown::AfGroup3High),
            34 => Ok(IpDscpKnown::AfGroup4Low),
            36 => Ok(IpDscpKnown::AfGroup4Medium),
            38 => Ok(IpDscpKnown::AfGroup4High),
            46 => Ok(IpDscpKnown::ExpeditedForwarding),
            44 => Ok(IpDscpKnown::VoiceAdmit),
            1 => Ok(IpDscpKnown::LowerEffort),
            value => Err(IpDscpUnknownValueError { value }),
        }
    }

    // The code point.
    fn number(self) -> u8
        ensures { result ≡ code_point self }
    {
        self as u8
    }
}

impl TryFrom<IpDscp> for IpDscpKnown {
    type Error = IpDscpUnknownValueError;

    ghost try_from_gives = { IsKnown };

    fn try_from(value: IpDscp) -> Result<Self, IpDscpUnknownValueError> {
        IpDscpKnown::try_from_ip_dscp(value)
    }
}

impl From<IpDscpKnown> for u8 {
    ghost from_gives = { λ known n. n ≡ code_point known };

    fn from(known: IpDscpKnown) -> u8 {
        known.number()
    }
}

impl PartialEq for IpDscpKnown {
    ghost eq = { on code_point ◌==◌ };

    ghost laws = { Prim.search (comparing, rules) };

    fn eq(&self, other: &Self) -> bool {
        self.number() == other.number()
    }
}

impl Eq for IpDscpKnown {
    ghost laws = { Prim.search (comparing, rules) };
}

impl Ord for IpDscpKnown {
    ghost cmp = { on code_point nat_cmp };

    ghost total = { Prim.search (comparing, rules) };

    ghost matches_partial_cmp = { Prim.search (comparing, rules) };

    ghost matches_eq = { λ a b. unsigned_ties (code_point a) (code_point b) };

    fn cmp(&self, other: &Self) -> Ordering {
        self.number().cmp(&other.number())
    }
}

impl PartialOrd for IpDscpKnown {
    ghost partial_cmp = { as_partial_cmp (on code_point nat_cmp) };

    ghost laws = { partial_order_from_own_ties (Prim.search (comparing, rules))
        (λ a b. unsigned_ties (code_point a) (code_point b)) };

    fn partial_cmp(&self, other: &Self) -> Option<Ordering> {
        Some(self.cmp(other))
    }
}

impl Hash for IpDscpKnown {
    ghost hash_input = { λ known. fed.u8 (code_point known) };

    ghost respects_eq = { Prim.search (hashing, rules) };

    fn hash<H: Hasher>(&self, state: &mut H) {
        self.number().hash(state);
    }
}
