//! Why a destination can't be reached over IPv6.
ghost use Rattle.std.specs.Prelude.{◌≡◌, ◌≤◌, MatchOption};
ghost use Rattle.ep_icmp.specs.Icmpv6.{unreachable_code};

/// The code of a destination unreachable message (RFC 4443, section 3.1).
#[derive(Clone, Copy, Debug, PartialEq, Eq)]
pub enum DestUnreachableCode {
    /// No route leads to the destination (code 0).
    NoRoute,
    /// Policy prohibits traffic with the destination (code 1).
    Prohibited,
    /// The destination is beyond the scope of the source address (code 2).
    BeyondScope,
    /// The address can't be reached (code 3).
    Address,
    /// Nothing listens at the port (code 4).
    Port,
    /// The source address fails the policy (code 5).
    SourceAddressFailedPolicy,
    /// A route rejects the destination (code 6).
    RejectRoute,
}

impl DestUnreachableCode {
    pub(crate) fn from_u8(code_u8: u8) -> Option<DestUnreachableCode>
        ensures { MatchOption result (7 ≤ code_u8) (λ code. unreachable_code code ≡ code_u8) }
    {
        use DestUnreachableCode::*;
        let code = match code_u8 {
            0 => NoRoute,
            1 => Prohibited,
            2 => BeyondScope,
            3 => Address,
            4 => Port,
            5 => SourceAddressFailedPolicy,
            6 => RejectRoute,
            _ => return None,
        };
        Some(code)
    }

    pub(crate) fn code_u8(&self) -> u8
        ensures { result ≡ unreachable_code self.now }
    {
        *self as u8
    }
}
