//! The constants of types and codes, at the numbers that the standards assign.
ghost use Rattle.std.specs.Prelude.{◌≡◌, [], ◌∷◌};
ghost use Rattle.ep_icmp.specs.declared.transport.icmpv4.TheConstants as icmpv4;
ghost use Rattle.ep_icmp.specs.declared.transport.icmpv6.TheConstants as icmpv6;

/// The types of ICMPv4 messages, and the codes of those that have several (RFC 792; RFC 1122,
/// section 3.2.2; RFC 1812, section 5.2.7.1).
pub fn icmpv4_numbers()
    ensures types { (icmpv4.TYPE_ECHO_REPLY ∷ icmpv4.TYPE_DEST_UNREACH ∷
        icmpv4.TYPE_SOURCE_QUENCH ∷ icmpv4.TYPE_REDIRECT ∷ icmpv4.TYPE_ALTERNATE_HOST_ADDRESS
        ∷ icmpv4.TYPE_ECHO_REQUEST ∷ icmpv4.TYPE_ROUTER_ADVERTISEMENT ∷
        icmpv4.TYPE_ROUTER_SOLICITATION ∷ icmpv4.TYPE_TIME_EXCEEDED ∷
        icmpv4.TYPE_PARAMETER_PROBLEM ∷ icmpv4.TYPE_TIMESTAMP ∷ icmpv4.TYPE_TIMESTAMP_REPLY ∷
        icmpv4.TYPE_INFO_REQUEST ∷ icmpv4.TYPE_INFO_REPLY ∷ icmpv4.TYPE_ADDRESS ∷
        icmpv4.TYPE_ADDRESSREPLY ∷ []) ≡ 0 ∷ 3 ∷ 4 ∷ 5 ∷ 6 ∷ 8 ∷ 9 ∷ 10 ∷ 11 ∷ 12 ∷ 13 ∷ 14 ∷
        15 ∷ 16 ∷ 17 ∷ 18 ∷ [] }
    ensures unreachable { (icmpv4.CODE_DST_UNREACH_NET ∷ icmpv4.CODE_DST_UNREACH_HOST ∷
        icmpv4.CODE_DST_UNREACH_PROTOCOL ∷ icmpv4.CODE_DST_UNREACH_PORT ∷
        icmpv4.CODE_DST_UNREACH_NEED_FRAG ∷ icmpv4.CODE_DST_UNREACH_SOURCE_ROUTE_FAILED ∷
        icmpv4.CODE_DST_UNREACH_NET_UNKNOWN ∷ icmpv4.CODE_DST_UNREACH_HOST_UNKNOWN ∷
        icmpv4.CODE_DST_UNREACH_ISOLATED ∷ icmpv4.CODE_DST_UNREACH_NET_PROHIB ∷
        icmpv4.CODE_DST_UNREACH_HOST_PROHIB ∷ icmpv4.CODE_DST_UNREACH_TOS_NET ∷
        icmpv4.CODE_DST_UNREACH_TOS_HOST ∷ icmpv4.CODE_DST_UNREACH_FILTER_PROHIB ∷
        icmpv4.CODE_DST_UNREACH_HOST_PRECEDENCE_VIOLATION ∷
        icmpv4.CODE_DST_UNREACH_PRECEDENCE_CUTOFF ∷ []) ≡ 0 ∷ 1 ∷ 2 ∷ 3 ∷ 4 ∷ 5 ∷ 6 ∷ 7 ∷ 8 ∷
        9 ∷ 10 ∷ 11 ∷ 12 ∷ 13 ∷ 14 ∷ 15 ∷ [] }
    ensures redirect { (icmpv4.CODE_REDIRECT_FOR_NETWORK ∷ icmpv4.CODE_REDIRECT_FOR_HOST ∷
        icmpv4.CODE_REDIRECT_TYPE_OF_SERVICE_AND_NETWORK ∷
        icmpv4.CODE_REDIRECT_TYPE_OF_SERVICE_AND_HOST ∷ []) ≡ 0 ∷ 1 ∷ 2 ∷ 3 ∷ [] }
    ensures time_exceeded { (icmpv4.CODE_TIME_EXCEEDED_TTL_EXCEEDED_IN_TRANSIT ∷
        icmpv4.CODE_TIME_EXCEEDED_FRAG_REASSEMBLY_TIME_EXCEEDED ∷ []) ≡ 0 ∷ 1 ∷ [] }
    ensures problem { (icmpv4.CODE_PARAMETER_PROBLEM_POINTER_INDICATES_ERROR ∷
        icmpv4.CODE_PARAMETER_PROBLEM_MISSING_REQUIRED_OPTION ∷
        icmpv4.CODE_PARAMETER_PROBLEM_BAD_LENGTH ∷ []) ≡ 0 ∷ 1 ∷ 2 ∷ [] }
{}

/// The types of ICMPv6 messages, and the codes of those that have several (RFC 4443; RFC 7112,
/// section 5; RFC 8754, section 4.3.1.2; RFC 8883, section 3).
pub fn icmpv6_numbers()
    ensures types { (icmpv6.TYPE_DST_UNREACH ∷ icmpv6.TYPE_PACKET_TOO_BIG ∷
        icmpv6.TYPE_TIME_EXCEEDED ∷ icmpv6.TYPE_PARAMETER_PROBLEM ∷ icmpv6.TYPE_ECHO_REQUEST ∷
        icmpv6.TYPE_ECHO_REPLY ∷ icmpv6.TYPE_MULTICAST_LISTENER_QUERY ∷
        icmpv6.TYPE_MULTICAST_LISTENER_REPORT ∷ icmpv6.TYPE_MULTICAST_LISTENER_REDUCTION ∷
        icmpv6.TYPE_ROUTER_SOLICITATION ∷ icmpv6.TYPE_ROUTER_ADVERTISEMENT ∷
        icmpv6.TYPE_NEIGHBOR_SOLICITATION ∷ icmpv6.TYPE_NEIGHBOR_ADVERTISEMENT ∷
        icmpv6.TYPE_REDIRECT_MESSAGE ∷ icmpv6.TYPE_ROUTER_RENUMBERING ∷
        icmpv6.TYPE_INVERSE_NEIGHBOR_DISCOVERY_SOLICITATION ∷
        icmpv6.TYPE_INVERSE_NEIGHBOR_DISCOVERY_ADVERTISEMENT ∷ icmpv6.TYPE_EXT_ECHO_REQUEST ∷
        icmpv6.TYPE_EXT_ECHO_REPLY ∷ []) ≡ 1 ∷ 2 ∷ 3 ∷ 4 ∷ 128 ∷ 129 ∷ 130 ∷ 131 ∷ 132 ∷ 133 ∷
        134 ∷ 135 ∷ 136 ∷ 137 ∷ 138 ∷ 141 ∷ 142 ∷ 160 ∷ 161 ∷ [] }
    ensures unreachable { (icmpv6.CODE_DST_UNREACH_NO_ROUTE ∷
        icmpv6.CODE_DST_UNREACH_PROHIBITED ∷ icmpv6.CODE_DST_UNREACH_BEYOND_SCOPE ∷
        icmpv6.CODE_DST_UNREACH_ADDR ∷ icmpv6.CODE_DST_UNREACH_PORT ∷
        icmpv6.CODE_DST_UNREACH_SOURCE_ADDRESS_FAILED_POLICY ∷
        icmpv6.CODE_DST_UNREACH_REJECT_ROUTE_TO_DEST ∷ []) ≡ 0 ∷ 1 ∷ 2 ∷ 3 ∷ 4 ∷ 5 ∷ 6 ∷ [] }
    ensures time_exceeded { (icmpv6.CODE_TIME_EXCEEDED_HOP_LIMIT_EXCEEDED ∷
        icmpv6.CODE_TIME_EXCEEDED_FRAGMENT_REASSEMBLY_TIME_EXCEEDED ∷ []) ≡ 0 ∷ 1 ∷ [] }
    ensures problem { (icmpv6.CODE_PARAM_PROBLEM_ERR_HEADER_FIELD ∷
        icmpv6.CODE_PARAM_PROBLEM_UNRECOG_NEXT_HEADER ∷
        icmpv6.CODE_PARAM_PROBLEM_UNRECOG_IPV6_OPTION ∷
        icmpv6.CODE_PARAM_PROBLEM_IPV6_FIRST_FRAG_INCOMP_HEADER_CHAIN ∷
        icmpv6.CODE_PARAM_PROBLEM_SR_UPPER_LAYER_HEADER_ERROR ∷
        icmpv6.CODE_PARAM_PROBLEM_UNRECOG_NEXT_HEADER_BY_INTERMEDIATE_NODE ∷
        icmpv6.CODE_PARAM_PROBLEM_EXT_HEADER_TOO_BIG ∷
        icmpv6.CODE_PARAM_PROBLEM_EXT_HEADER_CHAIN_TOO_LONG ∷
        icmpv6.CODE_PARAM_PROBLEM_TOO_MANY_EXT_HEADERS ∷
        icmpv6.CODE_PARAM_PROBLEM_TOO_MANY_OPTIONS_EXT_HEADER ∷
        icmpv6.CODE_PARAM_PROBLEM_OPTION_TOO_BIG ∷ []) ≡ 0 ∷ 1 ∷ 2 ∷ 3 ∷ 4 ∷ 5 ∷ 6 ∷ 7 ∷ 8 ∷ 9
        ∷ 10 ∷ [] }
{}
