//! Laws of messages that can be read.
ghost use Rattle.std.specs.Prelude.{◌≡◌, ◌≢◌, ◌↔◌, ℕ, [], ◌∷◌, IsTrue, Ok, Err};
ghost use Rattle.ep_base.specs.declared.err.layer.Layer.TheVariants as layer;
ghost use Rattle.ep_base.specs.declared.len_source.LenSource.TheVariants as source;
ghost use Rattle.ep_icmp.specs.Icmpv4.{ReadableIcmpv4};
ghost use Rattle.ep_icmp.specs.Icmpv6.{ReadableIcmpv6};
ghost use Rattle.ep_packet.specs.Readable.{icmpv4, icmpv6, is_readable, message_at, tcp, udp};
ghost use Rattle.ep_packet.specs.Readable.ReadMessage.{Icmpv4, Icmpv6, Raw, Tcp, Udp};
ghost use Rattle.ep_packet.specs.declared.err.packet.slice_error.SliceError.TheVariants as slice_error;
ghost use Rattle.ep_tcpudp.specs.Tcp.{ReadableTcp};
ghost use Rattle.ep_tcpudp.specs.Udp.{ReadableUdp};
ghost use Rattle.ep_tcpudp.specs.declared.err.tcp.header_error.HeaderError.TheVariants.{DataOffsetTooSmall};

/// An ICMP message can be read exactly if its header of 8 bytes is there, a timestamp message of
/// ICMPv4 only if it has exactly 20 bytes; a TCP segment if its data offset is at least 5 and its
/// header is there up to that offset; a UDP message if its header of 8 bytes is there and its
/// length field is 0, or at least 8 and at most the number of bytes. Any other message can be read.
pub fn readable_messages(message: &[u8])
    ensures icmpv4 { IsTrue (is_readable icmpv4 message.now) ↔ ReadableIcmpv4 message.now }
    ensures tcp { IsTrue (is_readable tcp message.now) ↔ ReadableTcp message.now }
    ensures udp { IsTrue (is_readable udp message.now) ↔ ReadableUdp message.now }
    ensures icmpv6 { IsTrue (is_readable icmpv6 message.now) ↔ ReadableIcmpv6 message.now }
    ensures others { (number : ℕ) → number ≢ icmpv4 → number ≢ tcp → number ≢ udp → number ≢ icmpv6
        → IsTrue (is_readable number message.now) }
{}

/// What bytes are read as, worked out by hand after RFC 768, 792, 4443 and 9293: an echo reply of
/// ICMPv4, a TCP header, a UDP message with a byte after its length, an echo request of ICMPv6,
/// and a byte of another protocol; and why bytes are no message: too few, and a data offset of 4.
pub fn messages_at_literals()
    ensures icmpv4 { message_at 1 (0 ∷ 0 ∷ 255 ∷ 255 ∷ 0 ∷ 0 ∷ 0 ∷ 0 ∷ [])
        ≡ Ok (Icmpv4 (0 ∷ 0 ∷ 255 ∷ 255 ∷ 0 ∷ 0 ∷ 0 ∷ 0 ∷ [])) }
    ensures tcp { message_at 6 (0 ∷ 1 ∷ 0 ∷ 2 ∷ 0 ∷ 0 ∷ 0 ∷ 3 ∷ 0 ∷ 0 ∷ 0 ∷ 0 ∷ 80 ∷ 2 ∷ 4 ∷
        0 ∷ 0 ∷ 0 ∷ 0 ∷ 0 ∷ [])
        ≡ Ok (Tcp (0 ∷ 1 ∷ 0 ∷ 2 ∷ 0 ∷ 0 ∷ 0 ∷ 3 ∷ 0 ∷ 0 ∷ 0 ∷ 0 ∷ 80 ∷ 2 ∷ 4 ∷
        0 ∷ 0 ∷ 0 ∷ 0 ∷ 0 ∷ [])) }
    ensures udp { message_at 17 (0 ∷ 1 ∷ 0 ∷ 2 ∷ 0 ∷ 8 ∷ 0 ∷ 0 ∷ 9 ∷ [])
        ≡ Ok (Udp (0 ∷ 1 ∷ 0 ∷ 2 ∷ 0 ∷ 8 ∷ 0 ∷ 0 ∷ [])) }
    ensures icmpv6 { message_at 58 (128 ∷ 0 ∷ 0 ∷ 0 ∷ 0 ∷ 1 ∷ 0 ∷ 2 ∷ [])
        ≡ Ok (Icmpv6 (128 ∷ 0 ∷ 0 ∷ 0 ∷ 0 ∷ 1 ∷ 0 ∷ 2 ∷ [])) }
    ensures raw { message_at 253 (9 ∷ []) ≡ Ok (Raw (9 ∷ [])) }
    ensures too_few { message_at 17 [] ≡ Err (slice_error.Len (record {
      required_len = 8;
      len = 0;
      len_source = source.Slice;
      layer = layer.UdpHeader;
      layer_start_offset = 0;
    })) }
    ensures data_offset { message_at 6
        (0 ∷ 1 ∷ 0 ∷ 2 ∷ 0 ∷ 0 ∷ 0 ∷ 3 ∷ 0 ∷ 0 ∷ 0 ∷ 0 ∷ 64 ∷ 2 ∷ 4 ∷ 0 ∷ 0 ∷ 0 ∷ 0 ∷ 0 ∷ [])
        ≡ Err (slice_error.Tcp (DataOffsetTooSmall 4)) }
{}
