//! Which limit was exceeded over IPv6.
ghost use Rattle.std.specs.Prelude.{◌≡◌, ◌≤◌, MatchOption};
ghost use Rattle.ep_icmp.specs.Icmpv6.{time_exceeded_code};

/// The code of a time exceeded message (RFC 4443, section 3.3).
#[derive(Clone, Copy, Debug, PartialEq, Eq)]
pub enum TimeExceededCode {
    /// The hop limit ended in transit (code 0).
    HopLimitExceeded,
    /// Not all fragments came in time (code 1).
    FragmentReassemblyTimeExceeded,
}

impl TimeExceededCode {
    pub(crate) fn from_u8(code_u8: u8) -> Option<TimeExceededCode>
        ensures { MatchOption result (2 ≤ code_u8) (λ code. time_exceeded_code code ≡ code_u8) }
    {
        use TimeExceededCode::*;
        let code = match code_u8 {
            0 => HopLimitExceeded,
            1 => FragmentReassemblyTimeExceeded,
            _ => return None,
        };
        Some(code)
    }

    pub(crate) fn code_u8(&self) -> u8
        ensures { result ≡ time_exceeded_code self.now }
    {
        *self as u8
    }
}
