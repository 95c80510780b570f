//! What is wrong with a header of an IPv6 packet.
ghost use Rattle.std.specs.Prelude.{◌≡◌, ◌≤◌, MatchOption};
ghost use Rattle.ep_icmp.specs.Icmpv6.{problem_code};

/// The code of a parameter problem message (RFC 4443, section 3.4).
#[derive(Clone, Copy, Debug, PartialEq, Eq)]
pub enum ParameterProblemCode {
    /// A field of a header has a fault (code 0).
    ErroneousHeaderField,
    /// The next header isn't known (code 1).
    UnrecognizedNextHeader,
    /// An option isn't known (code 2).
    UnrecognizedIpv6Option,
    /// The first fragment hasn't the whole chain of headers (RFC 7112, section 5) (code 3).
    Ipv6FirstFragmentIncompleteHeaderChain,
    /// The upper-layer header of a segment routing packet has a fault (RFC 8754, section 4.3.1.2)
    /// (code 4).
    SrUpperLayerHeaderError,
    /// An intermediate node doesn't know the next header (RFC 8883, section 3.1) (code 5).
    UnrecognizedNextHeaderByIntermediateNode,
    /// An extension header is too big (RFC 8883, section 3.2) (code 6).
    ExtensionHeaderTooBig,
    /// The chain of extension headers is too long (RFC 8883, section 3.3) (code 7).
    ExtensionHeaderChainTooLong,
    /// Extension headers are too many (RFC 8883, section 3.4) (code 8).
    TooManyExtensionHeaders,
    /// Options in an extension header are too many (RFC 8883, section 3.5) (code 9).
    TooManyOptionsInExtensionHeader,
    /// An option is too big (RFC 8883, section 3.6) (code 10).
    OptionTooBig,
}

impl ParameterProblemCode {
    pub(crate) fn from_u8(code_u8: u8) -> Option<ParameterProblemCode>
        ensures { MatchOption result (11 ≤ code_u8) (λ code. problem_code code ≡ code_u8) }
    {
        use ParameterProblemCode::*;
        let code = match code_u8 {
            0 => ErroneousHeaderField,
            1 => UnrecognizedNextHeader,
            2 => UnrecognizedIpv6Option,
            3 => Ipv6FirstFragmentIncompleteHeaderChain,
            4 => SrUpperLayerHeaderError,
            5 => UnrecognizedNextHeaderByIntermediateNode,
            6 => ExtensionHeaderTooBig,
            7 => ExtensionHeaderChainTooLong,
            8 => TooManyExtensionHeaders,
            9 => TooManyOptionsInExtensionHeader,
            10 => OptionTooBig,
            _ => return None,
        };
        Some(code)
    }

    pub(crate) fn code_u8(&self) -> u8
        ensures { result ≡ problem_code self.now }
    {
        *self as u8
    }
}
