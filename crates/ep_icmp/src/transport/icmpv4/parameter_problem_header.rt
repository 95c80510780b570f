//! What is wrong with an IPv4 header.
ghost use Rattle.std.specs.Prelude.{◌≡◌, ◌≤◌, MatchOption};
ghost use Rattle.ep_icmp.specs.Icmpv4.{HasPointer, ProblemFits, problem_code, problem_fields};
ghost use Rattle.ep_icmp.specs.Layout.{bytes_of_fields};

/// The code of a parameter problem message and what goes with it (RFC 792, "Parameter Problem
/// Message"; RFC 1122, section 3.2.2.5).
#[derive(Clone, Copy, Debug, PartialEq, Eq)]
pub enum ParameterProblemHeader {
    /// The fault is at this offset in the packet (code 0). The offset is byte 4.
    PointerIndicatesError(u8),
    /// An option that is required is missing (code 1).
    MissingRequiredOption,
    /// The length is wrong (code 2).
    BadLength,
}

impl ParameterProblemHeader {
    // The one with this code, if one has it, and for code 0 with this offset.
    pub(crate) fn from_values(code_u8: u8, pointer: u8) -> Option<ParameterProblemHeader>
        ensures { MatchOption result (3 ≤ code_u8)
            (λ header. (problem_code header ≡ code_u8) × HasPointer header pointer) }
    {
        match code_u8 {
            0 => Some(ParameterProblemHeader::PointerIndicatesError(pointer)),
            1 => Some(ParameterProblemHeader::MissingRequiredOption),
            2 => Some(ParameterProblemHeader::BadLength),
            _ => None,
        }
    }

    pub(crate) fn code_u8(&self) -> u8
        ensures { result ≡ problem_code self.now }
    {
        match self {
            ParameterProblemHeader::PointerIndicatesError(_) => 0,
            ParameterProblemHeader::MissingRequiredOption => 1,
            ParameterProblemHeader::BadLength => 2,
        }
    }

    // What follows the checksum.
    pub(crate) fn bytes5to8(&self) -> [u8; 4]
        ensures bytes { result ≡ bytes_of_fields (problem_fields self.now) }
        ensures fits { ProblemFits self.now }
    {
        match self {
            ParameterProblemHeader::PointerIndicatesError(pointer) => [*pointer, 0, 0, 0],
            _ => [0; 4],
        }
    }
}
