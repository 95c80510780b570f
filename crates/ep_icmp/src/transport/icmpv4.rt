//! What the kinds of ICMPv4 messages carry (RFC 792).

mod dest_unreachable_header;
mod parameter_problem_header;
mod redirect_code;
mod redirect_header;
mod time_exceeded_code;
mod timestamp_message;

pub use dest_unreachable_header::DestUnreachableHeader;
pub use parameter_problem_header::ParameterProblemHeader;
pub use redirect_code::RedirectCode;
pub use redirect_header::RedirectHeader;
pub use time_exceeded_code::TimeExceededCode;
pub use timestamp_message::TimestampMessage;

/// Type: echo reply (RFC 792).
pub const TYPE_ECHO_REPLY: u8 = 0;

/// Type: destination unreachable (RFC 792).
pub const TYPE_DEST_UNREACH: u8 = 3;

/// Type: source quench (RFC 792; deprecated by RFC 6633).
pub const TYPE_SOURCE_QUENCH: u8 = 4;

/// Type: redirect (RFC 792).
pub const TYPE_REDIRECT: u8 = 5;

/// Type: alternate host address (deprecated by RFC 6918).
pub const TYPE_ALTERNATE_HOST_ADDRESS: u8 = 6;

/// Type: echo request (RFC 792).
pub const TYPE_ECHO_REQUEST: u8 = 8;

/// Type: router advertisement (RFC 1256).
pub const TYPE_ROUTER_ADVERTISEMENT: u8 = 9;

/// Type: router solicitation (RFC 1256).
pub const TYPE_ROUTER_SOLICITATION: u8 = 10;

/// Type: time exceeded (RFC 792).
pub const TYPE_TIME_EXCEEDED: u8 = 11;

/// Type: parameter problem (RFC 792).
pub const TYPE_PARAMETER_PROBLEM: u8 = 12;

/// Type: timestamp request (RFC 792).
pub const TYPE_TIMESTAMP: u8 = 13;

/// Type: timestamp reply (RFC 792).
pub const TYPE_TIMESTAMP_REPLY: u8 = 14;

/// Type: information request (RFC 792; deprecated by RFC 6918).
pub const TYPE_INFO_REQUEST: u8 = 15;

/// Type: information reply (RFC 792; deprecated by RFC 6918).
pub const TYPE_INFO_REPLY: u8 = 16;

/// Type: address mask request (RFC 950; deprecated by RFC 6918).
pub const TYPE_ADDRESS: u8 = 17;

/// Type: address mask reply (RFC 950; deprecated by RFC 6918).
pub const TYPE_ADDRESSREPLY: u8 = 18;

/// Code of type 3: network unreachable (RFC 792).
pub const CODE_DST_UNREACH_NET: u8 = 0;

/// Code of type 3: host unreachable (RFC 792).
pub const CODE_DST_UNREACH_HOST: u8 = 1;

/// Code of type 3: protocol unreachable (RFC 792).
pub const CODE_DST_UNREACH_PROTOCOL: u8 = 2;

/// Code of type 3: port unreachable (RFC 792).
pub const CODE_DST_UNREACH_PORT: u8 = 3;

/// Code of type 3: fragmentation needed, and don't fragment is set (RFC 792).
pub const CODE_DST_UNREACH_NEED_FRAG: u8 = 4;

/// Code of type 3: source route failed (RFC 792).
pub const CODE_DST_UNREACH_SOURCE_ROUTE_FAILED: u8 = 5;

/// Code of type 3: destination network unknown (RFC 1122, section 3.2.2.1).
pub const CODE_DST_UNREACH_NET_UNKNOWN: u8 = 6;

/// Code of type 3: destination host unknown (RFC 1122, section 3.2.2.1).
pub const CODE_DST_UNREACH_HOST_UNKNOWN: u8 = 7;

/// Code of type 3: source host isolated (RFC 1122, section 3.2.2.1).
pub const CODE_DST_UNREACH_ISOLATED: u8 = 8;

/// Code of type 3: network administratively prohibited (RFC 1122, section 3.2.2.1).
pub const CODE_DST_UNREACH_NET_PROHIB: u8 = 9;

/// Code of type 3: host administratively prohibited (RFC 1122, section 3.2.2.1).
pub const CODE_DST_UNREACH_HOST_PROHIB: u8 = 10;

/// Code of type 3: network unreachable for this type of service (RFC 1122, section 3.2.2.1).
pub const CODE_DST_UNREACH_TOS_NET: u8 = 11;

/// Code of type 3: host unreachable for this type of service (RFC 1122, section 3.2.2.1).
pub const CODE_DST_UNREACH_TOS_HOST: u8 = 12;

/// Code of type 3: prohibited by a filter (RFC 1812, section 5.2.7.1).
pub const CODE_DST_UNREACH_FILTER_PROHIB: u8 = 13;

/// Code of type 3: host precedence violation (RFC 1812, section 5.2.7.1).
pub const CODE_DST_UNREACH_HOST_PRECEDENCE_VIOLATION: u8 = 14;

/// Code of type 3: precedence cutoff (RFC 1812, section 5.2.7.1).
pub const CODE_DST_UNREACH_PRECEDENCE_CUTOFF: u8 = 15;

/// Code of type 5: for the network (RFC 792).
pub const CODE_REDIRECT_FOR_NETWORK: u8 = 0;

/// Code of type 5: for the host (RFC 792).
pub const CODE_REDIRECT_FOR_HOST: u8 = 1;

/// Code of type 5: for the type of service and the network (RFC 792).
pub const CODE_REDIRECT_TYPE_OF_SERVICE_AND_NETWORK: u8 = 2;

/// Code of type 5: for the type of service and the host (RFC 792).
pub const CODE_REDIRECT_TYPE_OF_SERVICE_AND_HOST: u8 = 3;

/// Code of type 11: the time to live was used up (RFC 792).
pub const CODE_TIME_EXCEEDED_TTL_EXCEEDED_IN_TRANSIT: u8 = 0;

/// Code of type 11: reassembly took too long (RFC 792).
pub const CODE_TIME_EXCEEDED_FRAG_REASSEMBLY_TIME_EXCEEDED: u8 = 1;

/// Code of type 12: the pointer is the offset of the fault (RFC 792).
pub const CODE_PARAMETER_PROBLEM_POINTER_INDICATES_ERROR: u8 = 0;

/// Code of type 12: an option that is required is missing (RFC 1122, section 3.2.2.5).
pub const CODE_PARAMETER_PROBLEM_MISSING_REQUIRED_OPTION: u8 = 1;

/// Code of type 12: a length is wrong.
pub const CODE_PARAMETER_PROBLEM_BAD_LENGTH: u8 = 2;
