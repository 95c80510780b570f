//! The constants of the bounded numbers.
ghost use Rattle.std.specs.Prelude.{◌≡◌, [], ◌∷◌};

use crate::{MacsecAn, MacsecShortLen, VlanId, VlanPcp};

/// The constants of [`VlanId`], 12 bits.
pub fn vlan_id_constants() -> [VlanId; 1]
    ensures greatest { VlanId.MAX_U16 ≡ 4095 }
    ensures constants { result ≡ 0 ∷ [] }
{
    [VlanId::ZERO]
}

/// The constants of [`VlanPcp`], 3 bits.
pub fn vlan_pcp_constants() -> [VlanPcp; 1]
    ensures greatest { VlanPcp.MAX_U8 ≡ 7 }
    ensures constants { result ≡ 0 ∷ [] }
{
    [VlanPcp::ZERO]
}

/// The constants of [`MacsecAn`], 2 bits.
pub fn macsec_an_constants() -> [MacsecAn; 1]
    ensures greatest { MacsecAn.MAX_U8 ≡ 3 }
    ensures constants { result ≡ 0 ∷ [] }
{
    [MacsecAn::ZERO]
}

/// The constants of [`MacsecShortLen`], 6 bits.
pub fn macsec_short_len_constants() -> [MacsecShortLen; 1]
    ensures greatest { MacsecShortLen.MAX_U8 ≡ 63 }
    ensures constants { result ≡ 0 ∷ [] }
{
    [MacsecShortLen::ZERO]
}
