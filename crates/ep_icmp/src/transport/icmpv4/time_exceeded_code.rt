//! Which time was exceeded over IPv4.
ghost use Rattle.std.specs.Prelude.{◌≡◌, ◌≤◌, MatchOption};
ghost use Rattle.ep_icmp.specs.Icmpv4.{time_exceeded_code};

/// The code of a time exceeded message (RFC 792, "Time Exceeded Message").
#[derive(Clone, Copy, Debug, PartialEq, Eq)]
pub enum TimeExceededCode {
    /// The time to live ended in transit (code 0).
    TtlExceededInTransit,
    /// Not all fragments came in time (code 1).
    FragmentReassemblyTimeExceeded,
}

impl TimeExceededCode {
    pub(crate) fn from_u8(code_u8: u8) -> Option<TimeExceededCode>
        ensures { MatchOption result (2 ≤ code_u8)
            (λ code. time_exceeded_code code ≡ code_u8) }
    {
        match code_u8 {
            0 => Some(TimeExceededCode::TtlExceededInTransit),
            1 => Some(TimeExceededCode::FragmentReassemblyTimeExceeded),
            _ => None,
        }
    }

    pub(crate) fn code_u8(&self) -> u8
        ensures { result ≡ time_exceeded_code self.now }
    {
        *self as u8
    }
}
