//! Packets of each link as the registry of link types lays them out (tcpdump.org/linktypes.html):
//! LINKTYPE_NULL, ETHERNET, RAW, LOOP, LINUX_SLL and LINUX_SLL2.

ghost use Rattle.std.specs.Prelude.{◌≡◌, ℕ, List, [], ◌∷◌, length, replicate, true, false, Some, None, Ok, Err};
ghost use Rattle.captures.specs.Examples.{numbered};
ghost use Rattle.captures.specs.Framed.{FrameParts, address_at, captured_len, captured_limit, cooked_type};
ghost use Rattle.captures.specs.Framed.{family_type, frame_bytes, frame_parts, frame_wire_len, wire_len_on};
ghost use Rattle.captures.specs.Framed.{link_of, own_frame, refused_type, reported_frame, reported_of, taken_limit};
ghost use Rattle.captures.specs.PacketSteps.{is_cut};
ghost use Rattle.captures.specs.declared.link.kind.Link.TheVariants.{Ethernet, Ip, Null, Loop, Other, Sll, Sll2};
ghost use Rattle.captures.specs.declared.skipped.Reason.TheVariants.{NoFrame, TooLong, OtherLink};
ghost use Rattle.captures.specs.declared.unfit.Unfit.TheVariants.{Refuse, Skip};

/// The numbers of the links that are read, among them DLT_RAW of BSD (12 and 14) and each IP version
/// alone (228, 229), and of some that aren't: PPP, 276 less 256, wireless networks, netlink.
pub fn link_types()
    ensures null { link_of 0 ≡ Null }
    ensures ethernet { link_of 1 ≡ Ethernet }
    ensures raw { (link_of 12 ≡ Ip) × (link_of 14 ≡ Ip) × (link_of 101 ≡ Ip) }
    ensures versions { (link_of 228 ≡ Ip) × (link_of 229 ≡ Ip) }
    ensures openbsd { link_of 108 ≡ Loop }
    ensures cooked { (link_of 113 ≡ Sll) × (link_of 276 ≡ Sll2) }
    ensures other { (link_of 9 ≡ Other 9) × (link_of 20 ≡ Other 20) × (link_of 105 ≡ Other 105)
        × (link_of 127 ≡ Other 127) × (link_of 253 ≡ Other 253) × (link_of 65535 ≡ Other 65535) }
    ensures refused { (refused_type Refuse (Other 9) ≡ Some 9) × (refused_type Refuse Sll2 ≡ None) }
    ensures skipped { refused_type Skip (Other 9) ≡ None }
{}

/// The bytes of a packet at most. A line holds a frame of 99,991 bytes, in which 14 replace 0, 4,
/// 16 or 20; of a packet that is passed over 262,128 are held, whatever its link.
pub fn greatest_packets()
    ensures ethernet { captured_limit Ethernet ≡ 99_991 }
    ensures ip { captured_limit Ip ≡ 99_977 }
    ensures null { captured_limit Null ≡ 99_981 }
    ensures openbsd { captured_limit Loop ≡ 99_981 }
    ensures cooked { (captured_limit Sll ≡ 99_993) × (captured_limit Sll2 ≡ 99_997) }
    ensures refused { (taken_limit Refuse Ethernet ≡ 99_991) × (taken_limit Refuse Sll2 ≡ 99_997) }
    ensures skipped { (taken_limit Skip Ethernet ≡ 262_128) × (taken_limit Skip (Other 9) ≡ 262_128) }
{}

/// What a cooked capture names: below 1536 are lengths of 802.3 and Linux' own numbers (1501 to 1535
/// are neither), and frame relay (770), radiotap (803) and netlink (824) name none.
pub fn cooked_types()
    ensures ether { (cooked_type 1 0x0800 ≡ Some 0x0800) × (cooked_type 1 1536 ≡ Some 1536) }
    ensures lengths { (cooked_type 1 1 ≡ None) × (cooked_type 1 4 ≡ None)
        × (cooked_type 1 1500 ≡ None) × (cooked_type 1 1501 ≡ None) × (cooked_type 1 1535 ≡ None) }
    ensures hardware { (cooked_type 770 0x0800 ≡ None) × (cooked_type 803 0x0800 ≡ None)
        × (cooked_type 824 0x0800 ≡ None) }
    ensures read { (cooked_type 772 0x0800 ≡ Some 0x0800) × (cooked_type 778 0x0800 ≡ Some 0x0800)
        × (cooked_type 769 0x86dd ≡ Some 0x86dd) × (cooked_type 65534 0x86dd ≡ Some 0x86dd) }
{}

/// A sender's address has six bytes, or the frame has none.
pub fn cooked_addresses()
    ensures six { address_at 6 (9 ∷ 1 ∷ 2 ∷ 3 ∷ 4 ∷ 5 ∷ 6 ∷ 7 ∷ 8 ∷ []) 1
        ≡ 1 ∷ 2 ∷ 3 ∷ 4 ∷ 5 ∷ 6 ∷ [] }
    ensures none { address_at 0 (replicate 8 7) 0 ≡ replicate 6 0 }
    ensures fewer { (address_at 1 (replicate 8 7) 0 ≡ replicate 6 0)
        × (address_at 4 (replicate 8 7) 0 ≡ replicate 6 0)
        × (address_at 5 (replicate 8 7) 0 ≡ replicate 6 0) }
    ensures more { (address_at 7 (replicate 8 7) 0 ≡ replicate 6 0)
        × (address_at 8 (replicate 8 7) 0 ≡ replicate 6 0)
        × (address_at 20 (replicate 8 7) 0 ≡ replicate 6 0) }
{}

/// The address families of IP: 2; 24 (NetBSD, OpenBSD), 28 (FreeBSD), 30 (macOS) and 10 (Linux).
pub fn families()
    ensures ipv4 { family_type 2 ≡ Some 0x0800 }
    ensures ipv6 { (family_type 24 ≡ Some 0x86dd) × (family_type 28 ≡ Some 0x86dd)
        × (family_type 30 ≡ Some 0x86dd) × (family_type 10 ≡ Some 0x86dd) }
    ensures other { (family_type 0 ≡ None) × (family_type 7 ≡ None) × (family_type 23 ≡ None)
        × (family_type 26 ≡ None) × (family_type 33554432 ≡ None) }
{}

/// Packets as Ethernet frames: the header that is made, and what follows the packet's own.
pub fn packets_are_framed()
    ensures ethernet { frame_parts Ethernet (replicate 15 8) ≡ Some (own_frame (replicate 15 8)) }
    ensures raw_ipv4 { frame_parts Ip (0x45 ∷ 0 ∷ []) ≡ Some (record {
      header = Some (record { source = replicate 6 0; ether_type = 0x0800 });
      bytes = 0x45 ∷ 0 ∷ [];
    }) }
    ensures raw_ipv6 { frame_parts Ip (0x60 ∷ []) ≡ Some (record {
      header = Some (record { source = replicate 6 0; ether_type = 0x86dd });
      bytes = 0x60 ∷ [];
    }) }
    ensures raw_other { frame_parts Ip (0x50 ∷ []) ≡ None }
    ensures low_order { frame_parts Null (2 ∷ 0 ∷ 0 ∷ 0 ∷ 0x45 ∷ []) ≡ Some (record {
      header = Some (record { source = replicate 6 0; ether_type = 0x0800 });
      bytes = 0x45 ∷ [];
    }) }
    ensures high_order { frame_parts Null (0 ∷ 0 ∷ 0 ∷ 30 ∷ 0x60 ∷ []) ≡ Some (record {
      header = Some (record { source = replicate 6 0; ether_type = 0x86dd });
      bytes = 0x60 ∷ [];
    }) }
    ensures openbsd { frame_parts Loop (0 ∷ 0 ∷ 0 ∷ 24 ∷ 0x60 ∷ []) ≡ Some (record {
      header = Some (record { source = replicate 6 0; ether_type = 0x86dd });
      bytes = 0x60 ∷ [];
    }) }
    ensures openbsd_low { frame_parts Loop (24 ∷ 0 ∷ 0 ∷ 0 ∷ 0x60 ∷ []) ≡ None }
    // Sent by us (4), of Ethernet (1), with an address of six bytes and two after it.
    ensures cooked { frame_parts Sll (0 ∷ 4 ∷ 0 ∷ 1 ∷ 0 ∷ 6 ∷ 2 ∷ 0 ∷ 0 ∷ 0 ∷ 0 ∷ 1 ∷ 8 ∷ 9
        ∷ 0x08 ∷ 0x06 ∷ 7 ∷ []) ≡ Some (record {
          header = Some (record { source = 2 ∷ 0 ∷ 0 ∷ 0 ∷ 0 ∷ 1 ∷ []; ether_type = 0x0806 });
          bytes = 7 ∷ [];
        }) }
    // Protocol, two reserved bytes, interface 3, Ethernet (1), sent by us (4), six bytes.
    ensures cooked_2 { frame_parts Sll2 (0x86 ∷ 0xdd ∷ 0 ∷ 0 ∷ 0 ∷ 0 ∷ 0 ∷ 3 ∷ 0 ∷ 1 ∷ 4 ∷ 6
        ∷ 2 ∷ 0 ∷ 0 ∷ 0 ∷ 0 ∷ 1 ∷ 8 ∷ 9 ∷ 0x60 ∷ []) ≡ Some (record {
          header = Some (record { source = 2 ∷ 0 ∷ 0 ∷ 0 ∷ 0 ∷ 1 ∷ []; ether_type = 0x86dd });
          bytes = 0x60 ∷ [];
        }) }
    ensures short { (frame_parts Null (2 ∷ 0 ∷ 0 ∷ []) ≡ None)
        × (frame_parts Loop (0 ∷ 0 ∷ 2 ∷ []) ≡ None)
        × (frame_parts Sll (replicate 15 8) ≡ None)
        × (frame_parts Sll2 (replicate 19 8) ≡ None) }
    ensures empty { frame_parts Sll2 [] ≡ Some (own_frame []) }
    ensures bytes { frame_bytes (record {
      header = Some (record { source = 2 ∷ 0 ∷ 0 ∷ 0 ∷ 0 ∷ 1 ∷ []; ether_type = 0x86dd });
      bytes = 0x60 ∷ [];
    }) ≡ 0 ∷ 0 ∷ 0 ∷ 0 ∷ 0 ∷ 0 ∷ 2 ∷ 0 ∷ 0 ∷ 0 ∷ 0 ∷ 1 ∷ 0x86 ∷ 0xdd ∷ 0x60 ∷ [] }
{}

/// How many bytes were captured, by a frame of two bytes after the header that was made, if one was.
pub fn captured_bytes()
    ensures by_link { (frame : FrameParts) → length frame.bytes ≡ 2
        → (captured_len Ethernet frame ≡ 2) × (captured_len Ip frame ≡ 2)
        × (captured_len Null frame ≡ 6) × (captured_len Loop frame ≡ 6)
        × (captured_len Sll frame ≡ 18) × (captured_len Sll2 frame ≡ 22) }
    ensures cut { (number : ℕ) → (is_cut (numbered number) ≡ true)
        × (is_cut (record (numbered number) { wire_len = 22 }) ≡ true)
        × (is_cut (record (numbered number) { wire_len = 21 }) ≡ false)
        × (is_cut (record (numbered number) { wire_len = 20 }) ≡ false) }
{}

/// How many bytes frames had on the wire, by the header that one of 14 replaces, after records of
/// packets that were captured whole; that were cut; that state fewer bytes than they hold, or none;
/// and that state as many as 32 bits can say, or 14 fewer, to which IP adds 14.
pub fn lengths_of_frames()
    ensures whole { (wire_len_on Ethernet 60 60 ≡ 60) × (wire_len_on Ip 20 20 ≡ 34)
        × (wire_len_on Null 24 24 ≡ 34) × (wire_len_on Loop 24 24 ≡ 34)
        × (wire_len_on Sll 36 36 ≡ 34) × (wire_len_on Sll2 40 40 ≡ 34) }
    ensures cut { (wire_len_on Ethernet 60 1514 ≡ 1514) × (wire_len_on Ip 20 1500 ≡ 1514)
        × (wire_len_on Null 24 1504 ≡ 1514) × (wire_len_on Loop 24 1504 ≡ 1514)
        × (wire_len_on Sll 36 1516 ≡ 1514) × (wire_len_on Sll2 40 1520 ≡ 1514) }
    ensures fewer { (wire_len_on Ethernet 60 59 ≡ 60) × (wire_len_on Ip 20 6 ≡ 34)
        × (wire_len_on Sll2 40 0 ≡ 34) }
    ensures greatest { (wire_len_on Ethernet 60 4_294_967_295 ≡ 4_294_967_295)
        × (wire_len_on Ip 20 4_294_967_281 ≡ 4_294_967_295)
        × (wire_len_on Ip 20 4_294_967_295 ≡ 4_294_967_295) }
    ensures by_frame { (frame_wire_len 34 20 1500 ≡ 1514) × (frame_wire_len 34 20 6 ≡ 34) }
{}

/// Why packets are not reported: they are too long for a line, have no frame, or no link that is
/// read; where such packets are passed over no byte is reported of them.
pub fn packets_are_not_reported()
    ensures longest { (packet : List ℕ) → length packet ≡ 99_991
        → reported_of Ethernet packet ≡ Ok packet }
    ensures too_long { (packet : List ℕ) → length packet ≡ 99_992
        → reported_of Ethernet packet ≡ Err TooLong }
    ensures cooked_too_long { (packet : List ℕ) → length packet ≡ 99_998
        → reported_of Sll2 packet ≡ Err TooLong }
    ensures no_frame { reported_of Ip (0x50 ∷ []) ≡ Err NoFrame }
    ensures other { reported_of (Other 9) (0x45 ∷ []) ≡ Err OtherLink }
    ensures refused { reported_frame Refuse Ip (0x50 ∷ []) ≡ None }
    ensures skipped { reported_frame Skip Ip (0x50 ∷ []) ≡ Some [] }
{}
