//! ICMP messages in words.

use crate::show::line::Line;
use crate::show::ndp::ndp;
use crate::show::{addresses, cut_off, groups};
use ep_icmp::icmpv4::{
    DestUnreachableHeader, ParameterProblemHeader, RedirectCode, TimeExceededCode,
};
use ep_icmp::icmpv6::mld::MldMessage;
use ep_icmp::icmpv6::ndp::NdpSlice;
use ep_icmp::{IcmpEchoHeader, Icmpv4Slice, Icmpv4Type, Icmpv6Slice, Icmpv6Type, icmpv6};
use std::alloc::AllocError;

/// The kind of a message over IPv4 (RFC 792). It has no contract: tests compare the texts.
pub fn over_ipv4(line: &mut Line<'_>, message: &Icmpv4Slice<'_>) -> Result<(), AllocError> {
    line.text(" ")?;
    kind_v4(line, message.icmp_type())
}

fn kind_v4(line: &mut Line<'_>, icmp_type: Icmpv4Type) -> Result<(), AllocError> {
    match icmp_type {
        Icmpv4Type::EchoRequest(header) => echo(line, "echo request", &header),
        Icmpv4Type::EchoReply(header) => echo(line, "echo reply", &header),
        Icmpv4Type::DestinationUnreachable(header) => unreachable_v4(line, &header),
        Icmpv4Type::Redirect(header) => {
            line.text("redirect to ")?;
            addresses::ipv4(line, &header.gateway_internet_address)?;
            line.text(redirected(header.code))
        }
        Icmpv4Type::TimeExceeded(TimeExceededCode::TtlExceededInTransit) => {
            line.text("time to live exceeded")
        }
        Icmpv4Type::TimeExceeded(TimeExceededCode::FragmentReassemblyTimeExceeded) => {
            line.text("reassembly time exceeded")
        }
        Icmpv4Type::ParameterProblem(header) => problem_v4(line, &header),
        Icmpv4Type::TimestampRequest(header) => {
            line.counted("timestamp request id ", header.id.into())?;
            line.counted(" seq ", header.seq.into())
        }
        Icmpv4Type::TimestampReply(header) => {
            line.counted("timestamp reply id ", header.id.into())?;
            line.counted(" seq ", header.seq.into())
        }
        Icmpv4Type::Unknown {
            type_u8,
            code_u8,
            ..
        } => numbered(line, name_v4(type_u8), type_u8, code_u8),
    }
}

/// The kind of a message over IPv6 (RFC 4443). It has no contract: tests compare the texts.
pub fn over_ipv6(line: &mut Line<'_>, message: &Icmpv6Slice<'_>) -> Result<(), AllocError> {
    line.text(" ")?;
    kind_v6(line, message.icmp_type())
}

/// What a message of neighbor discovery or multicast listener discovery says after its kind, or how
/// many bytes are missing. `false` where it is of another kind: then nothing is shown. It has no
/// contract: tests compare the texts.
#[inline(never)]
pub fn neighbors_or_groups(
    line: &mut Line<'_>,
    message: &Icmpv6Slice<'_>,
) -> Result<bool, AllocError> {
    match NdpSlice::from_icmpv6(message) {
        Some(Ok(message)) => {
            ndp(line, &message)?;
            return Ok(true);
        }
        Some(Err(error)) => {
            cut_off(line, error.required_len, error.len)?;
            return Ok(true);
        }
        None => {}
    }
    match MldMessage::from_icmpv6(message) {
        Some(Ok(message)) => {
            groups::mld(line, message)?;
            Ok(true)
        }
        Some(Err(error)) => {
            groups::too_short(line, &error)?;
            Ok(true)
        }
        None => Ok(false),
    }
}

fn kind_v6(line: &mut Line<'_>, icmp_type: Icmpv6Type) -> Result<(), AllocError> {
    match icmp_type {
        Icmpv6Type::EchoRequest(header) => echo(line, "echo request", &header),
        Icmpv6Type::EchoReply(header) => echo(line, "echo reply", &header),
        Icmpv6Type::DestinationUnreachable(code) => line.text(unreachable_v6(code)),
        Icmpv6Type::PacketTooBig { mtu } => line.counted("packet too big, mtu ", mtu.into()),
        Icmpv6Type::TimeExceeded(icmpv6::TimeExceededCode::HopLimitExceeded) => {
            line.text("hop limit exceeded")
        }
        Icmpv6Type::TimeExceeded(icmpv6::TimeExceededCode::FragmentReassemblyTimeExceeded) => {
            line.text("reassembly time exceeded")
        }
        Icmpv6Type::ParameterProblem(header) => {
            line.text(problem_v6(header.code))?;
            line.counted(" at byte ", header.pointer.into())
        }
        Icmpv6Type::Unknown {
            type_u8,
            code_u8,
            ..
        } => numbered(line, name_v6(type_u8), type_u8, code_u8),
    }
}

fn echo(line: &mut Line<'_>, word: &str, header: &IcmpEchoHeader) -> Result<(), AllocError> {
    line.text(word)?;
    line.counted(" id ", header.id.into())?;
    line.counted(" seq ", header.seq.into())
}

fn numbered(
    line: &mut Line<'_>,
    name: Option<&str>,
    type_u8: u8,
    code_u8: u8,
) -> Result<(), AllocError> {
    match name {
        Some(name) => line.text(name)?,
        None => line.counted("type ", type_u8.into())?,
    }
    if code_u8 == 0 {
        Ok(())
    } else {
        line.counted(" code ", code_u8.into())
    }
}

// The names of IANA's registry. A type that has known codes comes here with another one.
fn name_v4(type_u8: u8) -> Option<&'static str> {
    match type_u8 {
        0 => Some("echo reply"),
        3 => Some("unreachable"),
        4 => Some("source quench"),
        5 => Some("redirect"),
        8 => Some("echo request"),
        9 => Some("router advertisement"),
        10 => Some("router solicitation"),
        11 => Some("time exceeded"),
        12 => Some("parameter problem"),
        13 => Some("timestamp request"),
        14 => Some("timestamp reply"),
        15 => Some("information request"),
        16 => Some("information reply"),
        17 => Some("address mask request"),
        18 => Some("address mask reply"),
        _ => None,
    }
}

fn name_v6(type_u8: u8) -> Option<&'static str> {
    match type_u8 {
        1 => Some("unreachable"),
        2 => Some("packet too big"),
        3 => Some("time exceeded"),
        4 => Some("parameter problem"),
        128 => Some("echo request"),
        129 => Some("echo reply"),
        130 => Some("listener query"),
        131 => Some("listener report"),
        132 => Some("listener done"),
        133 => Some("router solicitation"),
        134 => Some("router advertisement"),
        135 => Some("neighbor solicitation"),
        136 => Some("neighbor advertisement"),
        137 => Some("redirect"),
        143 => Some("listener report v2"),
        _ => None,
    }
}

fn unreachable_v4(line: &mut Line<'_>, header: &DestUnreachableHeader) -> Result<(), AllocError> {
    let word = match header {
        DestUnreachableHeader::Network => "network unreachable",
        DestUnreachableHeader::Host => "host unreachable",
        DestUnreachableHeader::Protocol => "protocol unreachable",
        DestUnreachableHeader::Port => "port unreachable",
        DestUnreachableHeader::FragmentationNeeded { next_hop_mtu } => {
            return line.counted("fragmentation needed, mtu ", u64::from(*next_hop_mtu));
        }
        DestUnreachableHeader::SourceRouteFailed => "source route failed",
        DestUnreachableHeader::NetworkUnknown => "network unknown",
        DestUnreachableHeader::HostUnknown => "host unknown",
        DestUnreachableHeader::Isolated => "source host isolated",
        DestUnreachableHeader::NetworkProhibited => "network prohibited",
        DestUnreachableHeader::HostProhibited => "host prohibited",
        DestUnreachableHeader::TosNetwork => "network unreachable for this service",
        DestUnreachableHeader::TosHost => "host unreachable for this service",
        DestUnreachableHeader::FilterProhibited => "filtered",
        DestUnreachableHeader::HostPrecedenceViolation => "host precedence violation",
        DestUnreachableHeader::PrecedenceCutoff => "precedence cutoff",
    };
    line.text(word)
}

fn unreachable_v6(code: icmpv6::DestUnreachableCode) -> &'static str {
    match code {
        icmpv6::DestUnreachableCode::NoRoute => "no route",
        icmpv6::DestUnreachableCode::Prohibited => "prohibited",
        icmpv6::DestUnreachableCode::BeyondScope => "beyond scope of source address",
        icmpv6::DestUnreachableCode::Address => "address unreachable",
        icmpv6::DestUnreachableCode::Port => "port unreachable",
        icmpv6::DestUnreachableCode::SourceAddressFailedPolicy => "source address failed policy",
        icmpv6::DestUnreachableCode::RejectRoute => "route rejected",
    }
}

fn redirected(code: RedirectCode) -> &'static str {
    match code {
        RedirectCode::RedirectForNetwork => " for the network",
        RedirectCode::RedirectForHost => " for the host",
        RedirectCode::RedirectForTypeOfServiceAndNetwork => " for service and network",
        RedirectCode::RedirectForTypeOfServiceAndHost => " for service and host",
    }
}

fn problem_v4(line: &mut Line<'_>, header: &ParameterProblemHeader) -> Result<(), AllocError> {
    match header {
        ParameterProblemHeader::PointerIndicatesError(at) => {
            line.counted("parameter problem at byte ", u64::from(*at))
        }
        ParameterProblemHeader::MissingRequiredOption => {
            line.text("parameter problem: required option missing")
        }
        ParameterProblemHeader::BadLength => line.text("parameter problem: bad length"),
    }
}

fn problem_v6(code: icmpv6::ParameterProblemCode) -> &'static str {
    match code {
        icmpv6::ParameterProblemCode::ErroneousHeaderField => "erroneous header field",
        icmpv6::ParameterProblemCode::UnrecognizedNextHeader => "unknown next header",
        icmpv6::ParameterProblemCode::UnrecognizedIpv6Option => "unknown option",
        icmpv6::ParameterProblemCode::Ipv6FirstFragmentIncompleteHeaderChain => {
            "headers incomplete in first fragment"
        }
        icmpv6::ParameterProblemCode::SrUpperLayerHeaderError => "segment routing error",
        icmpv6::ParameterProblemCode::UnrecognizedNextHeaderByIntermediateNode => {
            "next header unknown on the way"
        }
        icmpv6::ParameterProblemCode::ExtensionHeaderTooBig => "extension header too big",
        icmpv6::ParameterProblemCode::ExtensionHeaderChainTooLong => "header chain too long",
        icmpv6::ParameterProblemCode::TooManyExtensionHeaders => "too many extension headers",
        icmpv6::ParameterProblemCode::TooManyOptionsInExtensionHeader => "too many options",
        icmpv6::ParameterProblemCode::OptionTooBig => "option too big",
    }
}
