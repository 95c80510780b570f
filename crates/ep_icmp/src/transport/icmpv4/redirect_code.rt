//! For which traffic another gateway is the better one.
ghost use Rattle.std.specs.Prelude.{◌≡◌, ◌≤◌, MatchOption};
ghost use Rattle.ep_icmp.specs.Icmpv4.{redirect_code};

/// The code of a redirect message (RFC 792, "Redirect Message").
#[derive(Clone, Copy, Debug, PartialEq, Eq)]
pub enum RedirectCode {
    /// For the destination's network (code 0).
    RedirectForNetwork,
    /// For the destination's host (code 1).
    RedirectForHost,
    /// For the type of service and the network (code 2).
    RedirectForTypeOfServiceAndNetwork,
    /// For the type of service and the host (code 3).
    RedirectForTypeOfServiceAndHost,
}

impl RedirectCode {
    pub(crate) fn from_u8(code_u8: u8) -> Option<RedirectCode>
        ensures { MatchOption result (4 ≤ code_u8)
            (λ code. redirect_code code ≡ code_u8) }
    {
        use RedirectCode::*;
        let code = match code_u8 {
            0 => RedirectForNetwork,
            1 => RedirectForHost,
            2 => RedirectForTypeOfServiceAndNetwork,
            3 => RedirectForTypeOfServiceAndHost,
            _ => return None,
        };
        Some(code)
    }

    pub(crate) fn code_u8(&self) -> u8
        ensures { result ≡ redirect_code self.now }
    {
        *self as u8
    }
}
