//! The definitions at literal values: each clause is what a standard gives, or was worked out
//! independently of the code, so that a definition can't change with the code.

ghost use Rattle.std.specs.Prelude.{◌≡◌, ℕ, [], ◌∷◌, ◌++◌, replicate, true, false, None, Some, Ok, Err};
ghost use Rattle.ep_base.specs.declared.err.layer.Layer.TheVariants as layer;
ghost use Rattle.ep_base.specs.declared.err.value_type.ValueType.TheVariants as value_type;
ghost use Rattle.ep_base.specs.declared.len_source.LenSource.TheVariants as len_source;
ghost use Rattle.ep_tcpudp.specs.Examples.{destination_v4, destination_v6, first_options, first_segment, one_to_eight};
ghost use Rattle.ep_tcpudp.specs.Examples.{reserved_segment, source_v4, source_v6, tcp_prefix, tcp_prefix_as_written};
ghost use Rattle.ep_tcpudp.specs.Examples.{udp_prefix};
ghost use Rattle.ep_tcpudp.specs.Limit.{value_up_to};
ghost use Rattle.ep_tcpudp.specs.Options.{items_of, options_of_elements};
ghost use Rattle.ep_tcpudp.specs.Tcp as tcp;
ghost use Rattle.ep_tcpudp.specs.TcpChecksum as tcp_checksum;
ghost use Rattle.ep_tcpudp.specs.TcpFault as tcp_fault;
ghost use Rattle.ep_tcpudp.specs.TcpOptions.{options_of_bytes};
ghost use Rattle.ep_tcpudp.specs.Udp as udp;
ghost use Rattle.ep_tcpudp.specs.UdpChecksum as udp_checksum;
ghost use Rattle.ep_tcpudp.specs.UdpFault as udp_fault;
ghost use Rattle.ep_tcpudp.specs.declared.err.tcp.header_error.HeaderError.TheVariants as fault;
ghost use Rattle.ep_base.specs.declared.err.slice_error.SliceError.TheVariants as refusal;
ghost use Rattle.ep_tcpudp.specs.declared.transport.tcp_option_element.TcpOptionElement.TheVariants as option;
ghost use Rattle.ep_tcpudp.specs.declared.transport.tcp_option_read_error.TcpOptionReadError.TheVariants as wrong;
ghost use Rattle.ep_tcpudp.specs.declared.transport.tcp_option_write_error.TcpOptionWriteError.TheVariants as space;

/// The options of a first segment, and what ends a list: a fault is its last item, and nothing
/// follows the option that ends it.
#[tactic(auto, unfolding(crate::specs::Options::items_within))]
pub fn options_read()
    ensures first_segment { items_of first_options ≡ Ok (option.MaximumSegmentSize 1460) ∷
        Ok option.SelectiveAcknowledgementPermitted
        ∷ Ok (option.Timestamp 1 0) ∷ Ok option.Noop ∷ Ok (option.WindowScale 7) ∷ [] }
    ensures blocks { items_of (5 ∷ 18 ∷ 0 ∷ 0 ∷ 0 ∷ 1 ∷ 0 ∷ 0 ∷ 0 ∷ 2 ∷ 0 ∷ 0 ∷ 0 ∷
        3 ∷ 0 ∷ 0 ∷ 0 ∷ 4 ∷ [])
        ≡ Ok (option.SelectiveAcknowledgement (1, 2) (Some (3, 4) ∷ None ∷ None ∷ [])) ∷ [] }
    ensures end { items_of (1 ∷ 0 ∷ 2 ∷ 5 ∷ []) ≡ Ok option.Noop ∷ [] }
    ensures fault { items_of (6 ∷ 2 ∷ 1 ∷ 1 ∷ []) ≡ Err (wrong.UnknownId 6) ∷ [] }
{}

/// Options that can't be read. Where a kind has one size, missing bytes are reported before a wrong
/// size byte; of a selective acknowledgement a wrong size byte is reported first. An unknown kind
/// is refused whatever its size byte.
#[tactic(auto, unfolding(crate::specs::Options::items_within))]
pub fn options_refused()
    ensures short { items_of (2 ∷ 5 ∷ []) ≡ Err (wrong.UnexpectedEndOfSlice 2 4 2) ∷ [] }
    ensures kind_alone { items_of (2 ∷ []) ≡ Err (wrong.UnexpectedEndOfSlice 2 4 1) ∷ [] }
    ensures size { items_of (4 ∷ 1 ∷ []) ≡ Err (wrong.UnexpectedSize 4 1) ∷ [] }
    ensures unknown { items_of (7 ∷ 2 ∷ []) ≡ Err (wrong.UnknownId 7) ∷ [] }
    ensures scale { items_of (3 ∷ 4 ∷ 7 ∷ 0 ∷ []) ≡ Err (wrong.UnexpectedSize 3 4) ∷ [] }
    ensures times { items_of (8 ∷ 10 ∷ replicate 7 0)
        ≡ Err (wrong.UnexpectedEndOfSlice 8 10 9) ∷ [] }
    ensures blocks_alone { items_of (5 ∷ []) ≡ Err (wrong.UnexpectedEndOfSlice 5 2 1) ∷ [] }
    ensures no_blocks { items_of (5 ∷ 2 ∷ []) ≡ Err (wrong.UnexpectedSize 5 2) ∷ [] }
    ensures five_blocks { items_of (5 ∷ 42 ∷ replicate 40 0)
        ≡ Err (wrong.UnexpectedSize 5 42) ∷ [] }
    ensures blocks_cut { items_of (5 ∷ 34 ∷ replicate 31 0)
        ≡ Err (wrong.UnexpectedEndOfSlice 5 34 33) ∷ [] }
{}

/// Options as they are written: filled up with 0 to whole words, up to 40 bytes.
pub fn options_written()
    ensures elements { options_of_elements (option.WindowScale 123 ∷ option.Noop ∷ option.Noop ∷ [])
        ≡ Ok (3 ∷ 3 ∷ 123 ∷ 1 ∷ 1 ∷ 0 ∷ 0 ∷ 0 ∷ []) }
    ensures blocks { options_of_elements
        (option.SelectiveAcknowledgement (1, 2) (None ∷ Some (3, 4) ∷ None ∷ []) ∷ [])
        ≡ Ok (5 ∷ 18 ∷ 0 ∷ 0 ∷ 0 ∷ 1 ∷ 0 ∷ 0 ∷ 0 ∷ 2 ∷ 0 ∷ 0 ∷ 0 ∷ 3 ∷ 0 ∷ 0 ∷ 0 ∷ 4 ∷ 0 ∷ 0 ∷ []) }
    ensures none { options_of_elements [] ≡ Ok [] }
    ensures forty { options_of_elements (replicate 4 (option.Timestamp 0 0))
        ≡ Ok (8 ∷ 10 ∷ 0 ∷ 0 ∷ 0 ∷ 0 ∷ 0 ∷ 0 ∷ 0 ∷ 0 ∷
        8 ∷ 10 ∷ 0 ∷ 0 ∷ 0 ∷ 0 ∷ 0 ∷ 0 ∷ 0 ∷ 0 ∷ 8 ∷ 10 ∷ 0 ∷ 0 ∷ 0 ∷ 0 ∷ 0 ∷ 0 ∷ 0 ∷ 0 ∷ 8 ∷ 10 ∷
        0 ∷ 0 ∷ 0 ∷ 0 ∷ 0 ∷ 0 ∷ 0 ∷ 0 ∷ []) }
    ensures more { options_of_elements (replicate 41 option.Noop) ≡ Err (space.NotEnoughSpace 41) }
    ensures bytes { options_of_bytes (1 ∷ 1 ∷ 1 ∷ 1 ∷ 1 ∷ [])
        ≡ Ok (1 ∷ 1 ∷ 1 ∷ 1 ∷ 1 ∷ 0 ∷ 0 ∷ 0 ∷ []) }
    ensures too_many { options_of_bytes (replicate 41 1) ≡ Err (space.NotEnoughSpace 41) }
{}

/// A TCP header by its bytes, both ways: the reserved bits are dropped.
pub fn tcp_fields()
    ensures fields { tcp.tcp_header_of tcp_prefix ≡ record {
      source_port = 1;
      destination_port = 2;
      sequence_number = 3;
      acknowledgment_number = 4;
      ns = true;
      fin = true;
      syn = false;
      rst = false;
      psh = false;
      ack = true;
      urg = false;
      ece = false;
      cwr = true;
      window_size = 5;
      checksum = 6;
      urgent_pointer = 7;
      options = 1 ∷ 1 ∷ 1 ∷ 0 ∷ [];
    } }
    ensures bytes { tcp.encoding (tcp.tcp_header_of tcp_prefix) ≡ tcp_prefix_as_written }
    ensures reserved { tcp.with_reserved_bits_zero tcp_prefix ≡ tcp_prefix_as_written }
{}

/// A TCP header is found whatever follows it. Each fault has its fields, and faults are tested in
/// this order: fewer than 20 bytes, the data offset, fewer bytes than it says.
pub fn tcp_headers_found()
    ensures found { tcp_fault.header_at (tcp_prefix ++ 170 ∷ 187 ∷ []) ≡ Ok tcp_prefix }
    ensures segment { tcp_fault.segment_at (tcp_prefix ++ 170 ∷ 187 ∷ [])
        ≡ Ok (tcp_prefix ++ 170 ∷ 187 ∷ []) }
    ensures payload { tcp.payload_of (tcp_prefix ++ 170 ∷ 187 ∷ []) ≡ 170 ∷ 187 ∷ [] }
    ensures short { tcp_fault.header_at (replicate 19 79) ≡ Err (refusal.Len (record {
      required_len = 20;
      len = 19;
      len_source = len_source.Slice;
      layer = layer.TcpHeader;
      layer_start_offset = 0;
    })) }
    ensures small { tcp_fault.header_at (replicate 20 79)
        ≡ Err (refusal.Content (fault.DataOffsetTooSmall 4)) }
    ensures cut_off { tcp_fault.header_at (replicate 59 240) ≡ Err (refusal.Len (record {
      required_len = 60;
      len = 59;
      len_source = len_source.Slice;
      layer = layer.TcpHeader;
      layer_start_offset = 0;
    })) }
{}

/// A UDP header by its bytes, both ways, and the datagram that starts with it.
pub fn udp_datagrams()
    ensures fields { udp.udp_header_of udp_prefix
        ≡ record { source_port = 1; destination_port = 2; length = 16; checksum = 56244 } }
    ensures bytes { udp.encoding
        (record { source_port = 1; destination_port = 2; length = 16; checksum = 56244 })
        ≡ udp_prefix }
    ensures datagram { udp_fault.udp_at (udp_prefix ++ one_to_eight ++ 170 ∷ [])
        ≡ Ok (udp_prefix ++ one_to_eight) }
    ensures all { udp_fault.udp_at (replicate 9 0) ≡ Ok (replicate 9 0) }
{}

/// Why bytes begin with no datagram: fewer than 8, fewer than the length field says, a length field
/// below 8.
pub fn udp_refused()
    ensures short { udp_fault.udp_at (replicate 7 0) ≡ Err (record {
      required_len = 8;
      len = 7;
      len_source = len_source.Slice;
      layer = layer.UdpHeader;
      layer_start_offset = 0;
    }) }
    ensures cut_off { udp_fault.udp_at (0 ∷ 0 ∷ 0 ∷ 0 ∷ 0 ∷ 9 ∷ 0 ∷ 0 ∷ []) ≡ Err (record {
      required_len = 9;
      len = 8;
      len_source = len_source.Slice;
      layer = layer.UdpPayload;
      layer_start_offset = 0;
    }) }
    ensures no_header { udp_fault.udp_at (0 ∷ 0 ∷ 0 ∷ 0 ∷ 0 ∷ 7 ∷ 0 ∷ 0 ∷ []) ≡ Err (record {
      required_len = 8;
      len = 7;
      len_source = len_source.UdpHeaderLen;
      layer = layer.UdpHeader;
      layer_start_offset = 0;
    }) }
{}

/// What a lax read finds where a length field is met, is above the bytes there, counts no header, or
/// counts the header alone; and the only refusal.
pub fn udp_as_far_as_there()
    ensures datagram { udp_fault.lax_udp_at (udp_prefix ++ one_to_eight ++ 170 ∷ [])
        ≡ Ok (udp_prefix ++ one_to_eight) }
    ensures cut_off { udp_fault.lax_udp_at (udp_prefix ++ 1 ∷ 2 ∷ [])
        ≡ Ok (udp_prefix ++ 1 ∷ 2 ∷ []) }
    ensures zero { udp_fault.lax_udp_at (replicate 9 0) ≡ Ok (replicate 9 0) }
    ensures seven { udp_fault.lax_udp_at (0 ∷ 0 ∷ 0 ∷ 0 ∷ 0 ∷ 7 ∷ 0 ∷ 0 ∷ 9 ∷ [])
        ≡ Ok (0 ∷ 0 ∷ 0 ∷ 0 ∷ 0 ∷ 7 ∷ 0 ∷ 0 ∷ 9 ∷ []) }
    ensures eight { udp_fault.lax_udp_at (0 ∷ 0 ∷ 0 ∷ 0 ∷ 0 ∷ 8 ∷ 0 ∷ 0 ∷ 9 ∷ [])
        ≡ Ok (0 ∷ 0 ∷ 0 ∷ 0 ∷ 0 ∷ 8 ∷ 0 ∷ 0 ∷ []) }
    ensures short { udp_fault.lax_udp_at (replicate 7 0) ≡ Err (record {
      required_len = 8;
      len = 7;
      len_source = len_source.Slice;
      layer = layer.UdpHeader;
      layer_start_offset = 0;
    }) }
{}

/// Checksums over both IP versions: of UDP with the length field in the pseudo header, whatever the
/// payload's length is, and with ffff instead of 0; of TCP with options, and with the reserved bits
/// as they are.
#[tactic(auto, unfolding(ep_base::specs::Sum::total, ep_base::specs::Sum::fold))]
pub fn checksums()
    ensures udp_v4 { udp_checksum.sealed_v4 1 2 source_v4 destination_v4 one_to_eight
        ≡ udp.udp_header_of udp_prefix }
    ensures udp_v6 { udp_checksum.checksum_v6 source_v6 destination_v6
        (udp.udp_header_of udp_prefix) one_to_eight ≡ 62898 }
    ensures udp_length_v4 { udp_checksum.checksum_v4 source_v4 destination_v4
        (record (udp.udp_header_of udp_prefix) { length = 9 }) one_to_eight ≡ 56258 }
    ensures udp_length_v6 { udp_checksum.checksum_v6 source_v6 destination_v6
        (record (udp.udp_header_of udp_prefix) { length = 9 }) one_to_eight ≡ 62912 }
    ensures udp_zero { udp_checksum.checksum_v4 (replicate 4 0) (replicate 4 0)
        (udp.unchecked_header 65502 0 0) [] ≡ 65535 }
    ensures udp_zero_v6 { udp_checksum.checksum_v6 (replicate 16 0) (replicate 16 0)
        (udp.unchecked_header 65502 0 0) [] ≡ 65535 }
    ensures tcp_v4 { tcp_checksum.checksum_v4 source_v4 destination_v4
        (tcp.tcp_header_of first_segment) [] ≡ 38874 }
    ensures tcp_v6 { tcp_checksum.checksum_v6 source_v6 destination_v6
        (tcp.tcp_header_of first_segment) [] ≡ 45528 }
    ensures tcp_options { tcp_checksum.checksum_v6 source_v6 destination_v6
        (record (tcp.tcp_header_of first_segment) { options = replicate 40 1 }) [] ≡ 64923 }
    ensures tcp_zero { tcp_checksum.checksum_v4 (replicate 4 0) (replicate 4 0)
        (tcp.new_header 0 0 40905 0) one_to_eight ≡ 0 }
    ensures segment { tcp_checksum.segment_checksum_v4 source_v4 destination_v4 first_segment
        ≡ 38874 }
    ensures reserved { tcp_checksum.segment_checksum_v4 source_v4 destination_v4 reserved_segment
        ≡ 35290 }
{}

/// A value exists up to its greatest length, and a greater one is refused with both. (No test has
/// the memory for a payload of 4 gigabytes.)
pub fn greatest_lengths()
    ensures greatest { value_up_to {A = ℕ} value_type.TcpPayloadLengthIpv6 4294967275 4294967275 1
        ≡ Ok 1 }
    ensures more { value_up_to {A = ℕ} value_type.TcpPayloadLengthIpv6 4294967275 4294967276 1
        ≡ Err (record {
          actual = 4294967276;
          max_allowed = 4294967275;
          value_type = value_type.TcpPayloadLengthIpv6;
        }) }
    ensures without_options { tcp.header_len (tcp.new_header 1 2 3 4) ≡ 20 }
    ensures with_options { tcp.header_len
        (record (tcp.new_header 1 2 3 4) { options = replicate 40 1 }) ≡ 60 }
{}
