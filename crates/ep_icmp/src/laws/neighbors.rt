//! The definitions of neighbor discovery and of multicast group messages at literal values: messages
//! as scapy 2.5.0 makes them, so that a definition can't change with the code.
ghost use Rattle.std.specs.Prelude.{◌≡◌, [], ◌∷◌, true, Err, None, Ok, Some};
ghost use Rattle.ep_icmp.specs.Igmp as igmp;
ghost use Rattle.ep_icmp.specs.Mld as mld;
ghost use Rattle.ep_icmp.specs.Multicast as multicast;
ghost use Rattle.ep_icmp.specs.Ndp as ndp;
ghost use Rattle.ep_icmp.specs.NdpOptions as options;
ghost use Rattle.ep_icmp.specs.declared.transport.icmpv6.mld.MldMessage.TheVariants as mld_message;
ghost use Rattle.ep_icmp.specs.declared.transport.icmpv6.ndp.ndp_message.NdpMessage.TheVariants as message;
ghost use Rattle.ep_icmp.specs.declared.transport.icmpv6.ndp.ndp_option.NdpOption.TheVariants as option;
ghost use Rattle.ep_icmp.specs.declared.transport.icmpv6.ndp.ndp_option_error.NdpOptionError.TheVariants as fault;
ghost use Rattle.ep_icmp.specs.declared.transport.igmp.IgmpMessage.TheVariants as igmp_message;

/// The five messages of neighbor discovery by their bytes (RFC 4861, sections 4.1 to 4.5).
pub fn messages()
    ensures router_solicitation { ndp.message_of (133 ∷ 0 ∷ 251 ∷ 236 ∷ 0 ∷ 0 ∷ 0 ∷ 0 ∷ []) ≡
        message.RouterSolicitation }
    ensures router_advertisement { ndp.ndp_header_of (134 ∷ 0 ∷ 120 ∷ 227 ∷ 64 ∷ 192 ∷ 7 ∷ 8 ∷
        0 ∷ 0 ∷ 117 ∷ 48 ∷ 0 ∷ 0 ∷ 3 ∷ 232 ∷ []) ≡ record {
          message =
              message.RouterAdvertisement 64 true true 1800 30000 1000;
          checksum = 30947;
        } }
    ensures neighbor_solicitation { ndp.message_of (135 ∷ 0 ∷ 252 ∷ 87 ∷ 0 ∷ 0 ∷ 0 ∷ 0 ∷ 254 ∷
        128 ∷ 0 ∷ 0 ∷ 0 ∷ 0 ∷ 0 ∷ 0 ∷ 0 ∷ 0 ∷ 0 ∷ 0 ∷ 0 ∷ 0 ∷ 0 ∷ 2 ∷ []) ≡
        message.NeighborSolicitation (254 ∷ 128 ∷ 0 ∷ 0 ∷ 0 ∷ 0 ∷ 0 ∷ 0 ∷ 0 ∷ 0 ∷ 0 ∷ 0 ∷ 0 ∷
        0 ∷ 0 ∷ 2 ∷ []) }
    ensures neighbor_advertisement { ndp.message_of (136 ∷ 0 ∷ 25 ∷ 219 ∷ 224 ∷ 0 ∷ 0 ∷ 0 ∷
        254 ∷ 128 ∷ 0 ∷ 0 ∷ 0 ∷ 0 ∷ 0 ∷ 0 ∷ 0 ∷ 0 ∷ 0 ∷ 0 ∷ 0 ∷ 0 ∷ 0 ∷ 2 ∷ []) ≡
        message.NeighborAdvertisement true true true (254 ∷ 128 ∷ 0 ∷ 0 ∷ 0 ∷ 0 ∷ 0 ∷ 0 ∷ 0 ∷
        0 ∷ 0 ∷ 0 ∷ 0 ∷ 0 ∷ 0 ∷ 2 ∷ []) }
    ensures redirect { ndp.message_of (137 ∷ 0 ∷ 178 ∷ 125 ∷ 0 ∷ 0 ∷ 0 ∷ 0 ∷ 254 ∷ 128 ∷ 0 ∷ 0
        ∷ 0 ∷ 0 ∷ 0 ∷ 0 ∷ 0 ∷ 0 ∷ 0 ∷ 0 ∷ 0 ∷ 0 ∷ 0 ∷ 3 ∷ 32 ∷ 1 ∷ 13 ∷ 184 ∷ 0 ∷ 0 ∷ 0 ∷ 0 ∷
        0 ∷ 0 ∷ 0 ∷ 0 ∷ 0 ∷ 0 ∷ 0 ∷ 153 ∷ []) ≡ message.Redirect (254 ∷ 128 ∷ 0 ∷ 0 ∷ 0 ∷ 0 ∷
        0 ∷ 0 ∷ 0 ∷ 0 ∷ 0 ∷ 0 ∷ 0 ∷ 0 ∷ 0 ∷ 3 ∷ []) (32 ∷ 1 ∷ 13 ∷ 184 ∷ 0 ∷ 0 ∷ 0 ∷ 0 ∷ 0 ∷ 0
        ∷ 0 ∷ 0 ∷ 0 ∷ 0 ∷ 0 ∷ 153 ∷ []) }
    ensures encoded { ndp.encoding (record {
      message = message.RouterAdvertisement 64 true
          true 1800 30000 1000;
      checksum = 30947;
    }) ≡ 134 ∷ 0 ∷ 120 ∷ 227 ∷ 64 ∷ 192 ∷ 7 ∷ 8 ∷
        0 ∷ 0 ∷ 117 ∷ 48 ∷ 0 ∷ 0 ∷ 3 ∷ 232 ∷ [] }
    ensures reserved { ndp.with_reserved_bits_zero (136 ∷ 3 ∷ 18 ∷ 52 ∷ 255 ∷ 1 ∷ 2 ∷ 3 ∷ 0 ∷
        0 ∷ 0 ∷ 0 ∷ 0 ∷ 0 ∷ 0 ∷ 0 ∷ 0 ∷ 0 ∷ 0 ∷ 0 ∷ 0 ∷ 0 ∷ 0 ∷ 0 ∷ []) ≡ 136 ∷ 0 ∷ 18 ∷ 52 ∷
        224 ∷ 0 ∷ 0 ∷ 0 ∷ 0 ∷ 0 ∷ 0 ∷ 0 ∷ 0 ∷ 0 ∷ 0 ∷ 0 ∷ 0 ∷ 0 ∷ 0 ∷ 0 ∷ 0 ∷ 0 ∷ 0 ∷ 0 ∷ [] }
{}

/// Options by their bytes, both ways (RFC 4861, section 4.6; RFC 8106, section 5).
pub fn options()
    ensures link_layer_address { options.option_of (1 ∷ 1 ∷ 2 ∷ 0 ∷ 94 ∷ 16 ∷ 32 ∷ 48 ∷ []) ≡
        option.SourceLinkLayerAddress (2 ∷ 0 ∷ 94 ∷ 16 ∷ 32 ∷ 48 ∷ []) }
    ensures mtu { options.option_of (5 ∷ 1 ∷ 0 ∷ 0 ∷ 0 ∷ 0 ∷ 5 ∷ 220 ∷ []) ≡ option.Mtu 1500 }
    ensures prefix_information { options.option_of (3 ∷ 4 ∷ 64 ∷ 192 ∷ 0 ∷ 39 ∷ 141 ∷ 0 ∷ 0 ∷
        9 ∷ 58 ∷ 128 ∷ 0 ∷ 0 ∷ 0 ∷ 0 ∷ 32 ∷ 1 ∷ 13 ∷ 184 ∷ 0 ∷ 0 ∷ 0 ∷ 0 ∷ 0 ∷ 0 ∷ 0 ∷ 0 ∷ 0 ∷
        0 ∷ 0 ∷ 0 ∷ []) ≡ option.PrefixInformation (record {
          prefix_length = 64;
          on_link =
              true;
          autonomous = true;
          valid_lifetime = 2592000;
          preferred_lifetime = 604800;
          prefix
              = 32 ∷ 1 ∷ 13 ∷ 184 ∷ 0 ∷ 0 ∷ 0 ∷ 0 ∷ 0 ∷ 0 ∷ 0 ∷ 0 ∷ 0 ∷ 0 ∷ 0 ∷ 0 ∷ [];
        }) }
    ensures dns_server { options.option_of (25 ∷ 5 ∷ 0 ∷ 0 ∷ 0 ∷ 0 ∷ 14 ∷ 16 ∷ 32 ∷ 1 ∷ 13 ∷
        184 ∷ 0 ∷ 0 ∷ 0 ∷ 0 ∷ 0 ∷ 0 ∷ 0 ∷ 0 ∷ 0 ∷ 0 ∷ 0 ∷ 83 ∷ 32 ∷ 1 ∷ 13 ∷ 184 ∷ 0 ∷ 0 ∷ 0 ∷
        0 ∷ 0 ∷ 0 ∷ 0 ∷ 0 ∷ 0 ∷ 0 ∷ 0 ∷ 84 ∷ []) ≡ option.RecursiveDnsServer 3600 (32 ∷ 1 ∷ 13
        ∷ 184 ∷ 0 ∷ 0 ∷ 0 ∷ 0 ∷ 0 ∷ 0 ∷ 0 ∷ 0 ∷ 0 ∷ 0 ∷ 0 ∷ 83 ∷ 32 ∷ 1 ∷ 13 ∷ 184 ∷ 0 ∷ 0 ∷ 0
        ∷ 0 ∷ 0 ∷ 0 ∷ 0 ∷ 0 ∷ 0 ∷ 0 ∷ 0 ∷ 84 ∷ []) }
    ensures search_list { options.option_of (31 ∷ 3 ∷ 0 ∷ 0 ∷ 0 ∷ 0 ∷ 14 ∷ 16 ∷ 7 ∷ 101 ∷ 120
        ∷ 97 ∷ 109 ∷ 112 ∷ 108 ∷ 101 ∷ 3 ∷ 99 ∷ 111 ∷ 109 ∷ 0 ∷ 0 ∷ 0 ∷ 0 ∷ []) ≡
        option.DnsSearchList 3600 (7 ∷ 101 ∷ 120 ∷ 97 ∷ 109 ∷ 112 ∷ 108 ∷ 101 ∷ 3 ∷ 99 ∷ 111 ∷
        109 ∷ 0 ∷ 0 ∷ 0 ∷ 0 ∷ []) }
    ensures redirected { options.option_of (4 ∷ 1 ∷ 0 ∷ 0 ∷ 0 ∷ 0 ∷ 0 ∷ 0 ∷ []) ≡
        option.RedirectedHeader [] }
    ensures other_length { options.option_of (3 ∷ 1 ∷ 64 ∷ 192 ∷ 0 ∷ 0 ∷ 0 ∷ 1 ∷ []) ≡
        option.Unknown 3 (64 ∷ 192 ∷ 0 ∷ 0 ∷ 0 ∷ 1 ∷ []) }
    ensures encoded_prefix { options.option_bytes (option.PrefixInformation (record {
      prefix_length = 64;
      on_link = true;
      autonomous = true;
      valid_lifetime = 2592000;
      preferred_lifetime = 604800;
      prefix = 32 ∷ 1 ∷ 13 ∷ 184 ∷ 0 ∷ 0 ∷ 0 ∷ 0 ∷ 0 ∷ 0 ∷ 0 ∷
          0 ∷ 0 ∷ 0 ∷ 0 ∷ 0 ∷ [];
    })) ≡ 3 ∷ 4 ∷ 64 ∷ 192 ∷ 0 ∷ 39 ∷ 141 ∷ 0 ∷ 0 ∷ 9 ∷ 58 ∷ 128 ∷
        0 ∷ 0 ∷ 0 ∷ 0 ∷ 32 ∷ 1 ∷ 13 ∷ 184 ∷ 0 ∷ 0 ∷ 0 ∷ 0 ∷ 0 ∷ 0 ∷ 0 ∷ 0 ∷ 0 ∷ 0 ∷ 0 ∷ 0 ∷ [] }
    ensures encoded_mtu { options.option_bytes (option.Mtu 1500) ≡ 5 ∷ 1 ∷ 0 ∷ 0 ∷ 0 ∷ 0 ∷ 5 ∷
        220 ∷ [] }
{}

/// Items of options: all of them, and those before a length of 0 (RFC 4861, section 4.6).
#[tactic(auto, unfolding(crate::specs::NdpOptions::items_within))]
pub fn items()
    ensures one { options.items_of (record {
      rest = 5 ∷ 1 ∷ 0 ∷ 0 ∷ 0 ∷ 0 ∷ 5 ∷ 220 ∷ [];
      end
          = 24;
    }) ≡ Ok (option.Mtu 1500) ∷ [] }
    ensures zero { options.items_of (record { rest = 1 ∷ 0 ∷ []; end = 10 }) ≡ Err
        (fault.ZeroLength 8) ∷ [] }
    ensures short { options.items_of (record { rest = 1 ∷ []; end = 9 }) ≡ Err
        (fault.UnexpectedEnd 8 2 1) ∷ [] }
{}

/// Messages of multicast listener discovery by their bytes (RFC 2710, section 3; RFC 3810,
/// section 5).
pub fn listener_messages()
    ensures query { mld.mld_at (130 ∷ 0 ∷ 89 ∷ 23 ∷ 39 ∷ 16 ∷ 0 ∷ 0 ∷ 0 ∷ 0 ∷ 0 ∷ 0 ∷ 0 ∷ 0 ∷
        0 ∷ 0 ∷ 0 ∷ 0 ∷ 0 ∷ 0 ∷ 0 ∷ 0 ∷ 0 ∷ 0 ∷ []) ≡ Some (Ok (mld_message.Query 10000 (0 ∷ 0
        ∷ 0 ∷ 0 ∷ 0 ∷ 0 ∷ 0 ∷ 0 ∷ 0 ∷ 0 ∷ 0 ∷ 0 ∷ 0 ∷ 0 ∷ 0 ∷ 0 ∷ []))) }
    ensures report { mld.mld_at (131 ∷ 0 ∷ 128 ∷ 29 ∷ 0 ∷ 0 ∷ 0 ∷ 0 ∷ 255 ∷ 2 ∷ 0 ∷ 0 ∷ 0 ∷ 0
        ∷ 0 ∷ 0 ∷ 0 ∷ 0 ∷ 0 ∷ 0 ∷ 0 ∷ 1 ∷ 0 ∷ 3 ∷ []) ≡ Some (Ok (mld_message.Report (255 ∷ 2
        ∷ 0 ∷ 0 ∷ 0 ∷ 0 ∷ 0 ∷ 0 ∷ 0 ∷ 0 ∷ 0 ∷ 0 ∷ 0 ∷ 1 ∷ 0 ∷ 3 ∷ []))) }
    ensures done { mld.mld_at (132 ∷ 0 ∷ 127 ∷ 31 ∷ 0 ∷ 0 ∷ 0 ∷ 0 ∷ 255 ∷ 2 ∷ 0 ∷ 0 ∷ 0 ∷ 0 ∷
        0 ∷ 0 ∷ 0 ∷ 0 ∷ 0 ∷ 0 ∷ 0 ∷ 1 ∷ 0 ∷ 3 ∷ []) ≡ Some (Ok (mld_message.Done (255 ∷ 2 ∷ 0
        ∷ 0 ∷ 0 ∷ 0 ∷ 0 ∷ 0 ∷ 0 ∷ 0 ∷ 0 ∷ 0 ∷ 0 ∷ 1 ∷ 0 ∷ 3 ∷ []))) }
    ensures query_v2 { mld.mld_at (130 ∷ 0 ∷ 243 ∷ 238 ∷ 39 ∷ 16 ∷ 0 ∷ 0 ∷ 255 ∷ 14 ∷ 0 ∷ 0 ∷
        0 ∷ 0 ∷ 0 ∷ 0 ∷ 0 ∷ 0 ∷ 0 ∷ 0 ∷ 0 ∷ 0 ∷ 0 ∷ 1 ∷ 10 ∷ 125 ∷ 0 ∷ 2 ∷ 32 ∷ 1 ∷ 13 ∷ 184 ∷
        0 ∷ 0 ∷ 0 ∷ 0 ∷ 0 ∷ 0 ∷ 0 ∷ 0 ∷ 0 ∷ 0 ∷ 0 ∷ 1 ∷ 32 ∷ 1 ∷ 13 ∷ 184 ∷ 0 ∷ 0 ∷ 0 ∷ 0 ∷ 0
        ∷ 0 ∷ 0 ∷ 0 ∷ 0 ∷ 0 ∷ 0 ∷ 2 ∷ []) ≡ Some (Ok (mld_message.QueryV2 10000 (255 ∷ 14 ∷ 0
        ∷ 0 ∷ 0 ∷ 0 ∷ 0 ∷ 0 ∷ 0 ∷ 0 ∷ 0 ∷ 0 ∷ 0 ∷ 0 ∷ 0 ∷ 1 ∷ []) (32 ∷ 1 ∷ 13 ∷ 184 ∷ 0 ∷ 0 ∷
        0 ∷ 0 ∷ 0 ∷ 0 ∷ 0 ∷ 0 ∷ 0 ∷ 0 ∷ 0 ∷ 1 ∷ 32 ∷ 1 ∷ 13 ∷ 184 ∷ 0 ∷ 0 ∷ 0 ∷ 0 ∷ 0 ∷ 0 ∷ 0
        ∷ 0 ∷ 0 ∷ 0 ∷ 0 ∷ 2 ∷ []))) }
    ensures report_v2 { mld.mld_at (143 ∷ 0 ∷ 62 ∷ 11 ∷ 0 ∷ 0 ∷ 0 ∷ 2 ∷ 4 ∷ 0 ∷ 0 ∷ 0 ∷ 255 ∷
        2 ∷ 0 ∷ 0 ∷ 0 ∷ 0 ∷ 0 ∷ 0 ∷ 0 ∷ 0 ∷ 0 ∷ 0 ∷ 0 ∷ 1 ∷ 0 ∷ 3 ∷ 1 ∷ 1 ∷ 0 ∷ 1 ∷ 255 ∷ 14 ∷
        0 ∷ 0 ∷ 0 ∷ 0 ∷ 0 ∷ 0 ∷ 0 ∷ 0 ∷ 0 ∷ 0 ∷ 0 ∷ 0 ∷ 0 ∷ 1 ∷ 32 ∷ 1 ∷ 13 ∷ 184 ∷ 0 ∷ 0 ∷ 0
        ∷ 0 ∷ 0 ∷ 0 ∷ 0 ∷ 0 ∷ 0 ∷ 0 ∷ 0 ∷ 1 ∷ 1 ∷ 2 ∷ 3 ∷ 4 ∷ []) ≡ Some (Ok
        (mld_message.ReportV2 (record {
          rest = 4 ∷ 0 ∷ 0 ∷ 0 ∷ 255 ∷ 2 ∷ 0 ∷ 0 ∷ 0 ∷ 0 ∷ 0 ∷ 0
              ∷ 0 ∷ 0 ∷ 0 ∷ 0 ∷ 0 ∷ 1 ∷ 0 ∷ 3 ∷ 1 ∷ 1 ∷ 0 ∷ 1 ∷ 255 ∷ 14 ∷ 0 ∷ 0 ∷ 0 ∷ 0 ∷ 0 ∷ 0 ∷ 0
              ∷ 0 ∷ 0 ∷ 0 ∷ 0 ∷ 0 ∷ 0 ∷ 1 ∷ 32 ∷ 1 ∷ 13 ∷ 184 ∷ 0 ∷ 0 ∷ 0 ∷ 0 ∷ 0 ∷ 0 ∷ 0 ∷ 0 ∷ 0 ∷
              0 ∷ 0 ∷ 1 ∷ 1 ∷ 2 ∷ 3 ∷ 4 ∷ [];
          end = 60;
          count = 2;
        }))) }
    ensures short_query { mld.mld_at (130 ∷ 0 ∷ 89 ∷ 23 ∷ 39 ∷ 16 ∷ 0 ∷ 0 ∷ 0 ∷ 0 ∷ 0 ∷ 0 ∷ 0
        ∷ 0 ∷ 0 ∷ 0 ∷ 0 ∷ 0 ∷ 0 ∷ 0 ∷ 0 ∷ 0 ∷ 0 ∷ 0 ∷ 0 ∷ []) ≡ Some (Err (record {
          needed_len
              = 28;
          actual_len = 25;
        })) }
    ensures other { mld.mld_at (133 ∷ []) ≡ None }
{}

/// Messages of the Internet group management protocol by their bytes (RFC 2236, section 2;
/// RFC 3376, section 4).
pub fn group_messages()
    ensures query { igmp.igmp_at (17 ∷ 100 ∷ 13 ∷ 160 ∷ 224 ∷ 0 ∷ 0 ∷ 251 ∷ []) ≡ Some (Ok
        (igmp_message.Query 100 (224 ∷ 0 ∷ 0 ∷ 251 ∷ []))) }
    ensures report_v1 { igmp.igmp_at (18 ∷ 100 ∷ 12 ∷ 160 ∷ 224 ∷ 0 ∷ 0 ∷ 251 ∷ []) ≡ Some (Ok
        (igmp_message.ReportV1 (224 ∷ 0 ∷ 0 ∷ 251 ∷ []))) }
    ensures report_v2 { igmp.igmp_at (22 ∷ 100 ∷ 8 ∷ 160 ∷ 224 ∷ 0 ∷ 0 ∷ 251 ∷ []) ≡ Some (Ok
        (igmp_message.ReportV2 (224 ∷ 0 ∷ 0 ∷ 251 ∷ []))) }
    ensures leave { igmp.igmp_at (23 ∷ 100 ∷ 7 ∷ 160 ∷ 224 ∷ 0 ∷ 0 ∷ 251 ∷ []) ≡ Some (Ok
        (igmp_message.Leave (224 ∷ 0 ∷ 0 ∷ 251 ∷ []))) }
    ensures query_v3 { igmp.igmp_at (17 ∷ 100 ∷ 119 ∷ 21 ∷ 232 ∷ 1 ∷ 1 ∷ 1 ∷ 10 ∷ 125 ∷ 0 ∷ 2
        ∷ 192 ∷ 0 ∷ 2 ∷ 1 ∷ 192 ∷ 0 ∷ 2 ∷ 2 ∷ []) ≡ Some (Ok (igmp_message.QueryV3 100 (232 ∷
        1 ∷ 1 ∷ 1 ∷ []) (192 ∷ 0 ∷ 2 ∷ 1 ∷ 192 ∷ 0 ∷ 2 ∷ 2 ∷ []))) }
    ensures report_v3 { igmp.igmp_at (34 ∷ 0 ∷ 76 ∷ 252 ∷ 0 ∷ 0 ∷ 0 ∷ 2 ∷ 4 ∷ 0 ∷ 0 ∷ 0 ∷ 224
        ∷ 0 ∷ 0 ∷ 251 ∷ 1 ∷ 0 ∷ 0 ∷ 1 ∷ 232 ∷ 1 ∷ 1 ∷ 1 ∷ 192 ∷ 0 ∷ 2 ∷ 1 ∷ []) ≡ Some (Ok
        (igmp_message.ReportV3 (record {
          rest = 4 ∷ 0 ∷ 0 ∷ 0 ∷ 224 ∷ 0 ∷ 0 ∷ 251 ∷ 1 ∷ 0 ∷ 0
              ∷ 1 ∷ 232 ∷ 1 ∷ 1 ∷ 1 ∷ 192 ∷ 0 ∷ 2 ∷ 1 ∷ [];
          end = 20;
          count = 2;
        }))) }
    ensures short_query { igmp.igmp_at (17 ∷ 100 ∷ 13 ∷ 160 ∷ 224 ∷ 0 ∷ 0 ∷ 251 ∷ 0 ∷ []) ≡
        Some (Err (record { needed_len = 12; actual_len = 9 })) }
    ensures other { igmp.igmp_at (16 ∷ []) ≡ None }
{}

/// Records of a report over IPv4 by their bytes (RFC 3376, section 4.2), and one that is cut
/// off.
#[tactic(auto, unfolding(crate::specs::Multicast::records_within))]
pub fn records()
    ensures all { multicast.records_of 4 (record {
      rest = 4 ∷ 0 ∷ 0 ∷ 0 ∷ 224 ∷ 0 ∷ 0 ∷ 251 ∷
          1 ∷ 0 ∷ 0 ∷ 1 ∷ 232 ∷ 1 ∷ 1 ∷ 1 ∷ 192 ∷ 0 ∷ 2 ∷ 1 ∷ [];
      end = 20;
      count = 2;
    }) ≡ Ok
        (4 ∷ 0 ∷ 0 ∷ 0 ∷ 224 ∷ 0 ∷ 0 ∷ 251 ∷ []) ∷ Ok (1 ∷ 0 ∷ 0 ∷ 1 ∷ 232 ∷ 1 ∷ 1 ∷ 1 ∷ 192 ∷
        0 ∷ 2 ∷ 1 ∷ []) ∷ [] }
    ensures sources { multicast.sources_of 4 (1 ∷ 0 ∷ 0 ∷ 1 ∷ 232 ∷ 1 ∷ 1 ∷ 1 ∷ 192 ∷ 0 ∷ 2 ∷
        1 ∷ []) ≡ 192 ∷ 0 ∷ 2 ∷ 1 ∷ [] }
    ensures cut { multicast.records_of 4 (record {
      rest = 1 ∷ 0 ∷ 0 ∷ 1 ∷ 232 ∷ 1 ∷ 1 ∷ 1 ∷
          192 ∷ 0 ∷ 2 ∷ [];
      end = 11;
      count = 1;
    }) ≡ Err (record {
      offset = 0;
      needed_len = 12;
      actual_len = 11;
    }) ∷ [] }
{}
