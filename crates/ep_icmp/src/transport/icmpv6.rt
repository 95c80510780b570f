//! What the kinds of ICMPv6 messages carry (RFC 4443).

mod dest_unreachable_code;
pub mod mld;
pub mod ndp;
mod parameter_problem_code;
mod parameter_problem_header;
mod time_exceeded_code;

pub use dest_unreachable_code::DestUnreachableCode;
pub use parameter_problem_code::ParameterProblemCode;
pub use parameter_problem_header::ParameterProblemHeader;
pub use time_exceeded_code::TimeExceededCode;

/// Type: destination unreachable (RFC 4443, section 3.1).
pub const TYPE_DST_UNREACH: u8 = 1;

/// Type: packet too big (RFC 4443, section 3.2).
pub const TYPE_PACKET_TOO_BIG: u8 = 2;

/// Type: time exceeded (RFC 4443, section 3.3).
pub const TYPE_TIME_EXCEEDED: u8 = 3;

/// Type: parameter problem (RFC 4443, section 3.4).
pub const TYPE_PARAMETER_PROBLEM: u8 = 4;

/// Type: echo request (RFC 4443, section 4.1).
pub const TYPE_ECHO_REQUEST: u8 = 128;

/// Type: echo reply (RFC 4443, section 4.2).
pub const TYPE_ECHO_REPLY: u8 = 129;

/// Type: multicast listener query (RFC 2710, section 3).
pub const TYPE_MULTICAST_LISTENER_QUERY: u8 = 130;

/// Type: multicast listener report (RFC 2710, section 3).
pub const TYPE_MULTICAST_LISTENER_REPORT: u8 = 131;

/// Type: multicast listener done (RFC 2710, section 3).
pub const TYPE_MULTICAST_LISTENER_REDUCTION: u8 = 132;

/// Type: router solicitation (RFC 4861, section 4.1).
pub const TYPE_ROUTER_SOLICITATION: u8 = 133;

/// Type: router advertisement (RFC 4861, section 4.2).
pub const TYPE_ROUTER_ADVERTISEMENT: u8 = 134;

/// Type: neighbor solicitation (RFC 4861, section 4.3).
pub const TYPE_NEIGHBOR_SOLICITATION: u8 = 135;

/// Type: neighbor advertisement (RFC 4861, section 4.4).
pub const TYPE_NEIGHBOR_ADVERTISEMENT: u8 = 136;

/// Type: redirect (RFC 4861, section 4.5).
pub const TYPE_REDIRECT_MESSAGE: u8 = 137;

/// Type: router renumbering (RFC 2894).
pub const TYPE_ROUTER_RENUMBERING: u8 = 138;

/// Type: inverse neighbor discovery solicitation (RFC 3122).
pub const TYPE_INVERSE_NEIGHBOR_DISCOVERY_SOLICITATION: u8 = 141;

/// Type: inverse neighbor discovery advertisement (RFC 3122).
pub const TYPE_INVERSE_NEIGHBOR_DISCOVERY_ADVERTISEMENT: u8 = 142;

/// Type: extended echo request (RFC 8335).
pub const TYPE_EXT_ECHO_REQUEST: u8 = 160;

/// Type: extended echo reply (RFC 8335).
pub const TYPE_EXT_ECHO_REPLY: u8 = 161;

/// Code of type 1: no route to the destination (RFC 4443, section 3.1).
pub const CODE_DST_UNREACH_NO_ROUTE: u8 = 0;

/// Code of type 1: administratively prohibited (RFC 4443, section 3.1).
pub const CODE_DST_UNREACH_PROHIBITED: u8 = 1;

/// Code of type 1: beyond the scope of the source address (RFC 4443, section 3.1).
pub const CODE_DST_UNREACH_BEYOND_SCOPE: u8 = 2;

/// Code of type 1: address unreachable (RFC 4443, section 3.1).
pub const CODE_DST_UNREACH_ADDR: u8 = 3;

/// Code of type 1: port unreachable (RFC 4443, section 3.1).
pub const CODE_DST_UNREACH_PORT: u8 = 4;

/// Code of type 1: the source address failed a policy (RFC 4443, section 3.1).
pub const CODE_DST_UNREACH_SOURCE_ADDRESS_FAILED_POLICY: u8 = 5;

/// Code of type 1: the route to the destination rejects (RFC 4443, section 3.1).
pub const CODE_DST_UNREACH_REJECT_ROUTE_TO_DEST: u8 = 6;

/// Code of type 3: the hop limit was used up (RFC 4443, section 3.3).
pub const CODE_TIME_EXCEEDED_HOP_LIMIT_EXCEEDED: u8 = 0;

/// Code of type 3: reassembly took too long (RFC 4443, section 3.3).
pub const CODE_TIME_EXCEEDED_FRAGMENT_REASSEMBLY_TIME_EXCEEDED: u8 = 1;

/// Code of type 4: a field of a header has a fault (RFC 4443, section 3.4).
pub const CODE_PARAM_PROBLEM_ERR_HEADER_FIELD: u8 = 0;

/// Code of type 4: unknown next header (RFC 4443, section 3.4).
pub const CODE_PARAM_PROBLEM_UNRECOG_NEXT_HEADER: u8 = 1;

/// Code of type 4: unknown option (RFC 4443, section 3.4).
pub const CODE_PARAM_PROBLEM_UNRECOG_IPV6_OPTION: u8 = 2;

/// Code of type 4: the first fragment hasn't the whole chain of headers (RFC 7112, section 5).
pub const CODE_PARAM_PROBLEM_IPV6_FIRST_FRAG_INCOMP_HEADER_CHAIN: u8 = 3;

/// Code of type 4: upper-layer header in segment routing (RFC 8754, section 4.3.1.2).
pub const CODE_PARAM_PROBLEM_SR_UPPER_LAYER_HEADER_ERROR: u8 = 4;

/// Code of type 4: next header unknown to an intermediate node (RFC 8883, section 3).
pub const CODE_PARAM_PROBLEM_UNRECOG_NEXT_HEADER_BY_INTERMEDIATE_NODE: u8 = 5;

/// Code of type 4: an extension header is too big (RFC 8883, section 3).
pub const CODE_PARAM_PROBLEM_EXT_HEADER_TOO_BIG: u8 = 6;

/// Code of type 4: the chain of extension headers is too long (RFC 8883, section 3).
pub const CODE_PARAM_PROBLEM_EXT_HEADER_CHAIN_TOO_LONG: u8 = 7;

/// Code of type 4: too many extension headers (RFC 8883, section 3).
pub const CODE_PARAM_PROBLEM_TOO_MANY_EXT_HEADERS: u8 = 8;

/// Code of type 4: too many options in an extension header (RFC 8883, section 3).
pub const CODE_PARAM_PROBLEM_TOO_MANY_OPTIONS_EXT_HEADER: u8 = 9;

/// Code of type 4: an option is too big (RFC 8883, section 3).
pub const CODE_PARAM_PROBLEM_OPTION_TOO_BIG: u8 = 10;
