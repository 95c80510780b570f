//! What headers say beyond the fields of a packet: options and extension headers one after the other,
//! and ICMP messages by their kinds.
ghost use Rattle.std.specs.Prelude.{◌≡◌, ◌-◌, length};
ghost use Rattle.std.specs.Iterator.{YieldsFirst};
ghost use Rattle.etherparse.specs.icmp.Icmpv4Fault as icmpv4;
ghost use Rattle.etherparse.specs.icmp.Icmpv6Fault as icmpv6;
ghost use Rattle.etherparse.specs.icmp.Ndp as ndp;
ghost use Rattle.etherparse.specs.icmp.NdpOptions as ndp_options;
ghost use Rattle.etherparse.specs.tcpudp.Options.{item_at, rest_at};
ghost use Rattle.etherparse_structs.specs.Extension.{extensions_left, first_piece, first_struct, left_after};
ghost use Rattle.etherparse_structs.specs.Extension.{packet_extensions, some_extension};
ghost use Rattle.etherparse_structs.specs.IcmpFields.{icmpv4_fields_in, icmpv6_fields_in, ndp_struct_in};
ghost use Rattle.etherparse_structs.specs.NdpOption.{carried_in, left_in, ndp_options_left, ndp_options_part};
ghost use Rattle.etherparse_structs.specs.NdpOption.{option_struct_in as ndp_struct_of, some_ndp_option};
ghost use Rattle.etherparse_structs.specs.Part.{options_part, part_after, part_bytes};
ghost use Rattle.etherparse_structs.specs.TcpOption.{option_struct_in, options_left, some_option};

use etherparse_structs::{
    EpExtension, EpExtensions, EpIcmpFields, EpNdp, EpNdpOption, EpPacket, EpPart, EpTcpOption,
    icmpv4_fields, icmpv6_fields, ip_extensions, ipv4_options, ndp_message, ndp_options,
    next_extension, next_ndp_option, next_tcp_option, tcp_options,
};

/// Where the options of the packet's TCP header are. All fields are 0 where it has none.
#[unsafe(no_mangle)]
pub extern "C" fn ep_tcp_options(packet: &EpPacket) -> EpPart
    ensures { result ≡ options_part 20 packet.now.tcp.header }
{
    tcp_options(packet)
}

/// Takes the next option from those that are left in a part of the bytes, which begins as the part
/// that `ep_tcp_options` returns. Each call returns one, in their order, and takes its bytes from the
/// part. `kind` is 0 where none is left: at the end of the list, or after a fault.
#[unsafe(no_mangle)]
pub extern "C" fn ep_tcp_option_next(bytes: &[u8], left: &mut EpPart) -> EpTcpOption
    ensures exact { result ≡ option_struct_in (item_at (part_bytes bytes.now left.old)) }
    ensures left { left.new ≡ part_after (length (part_bytes bytes.now left.old)
        - length (rest_at (part_bytes bytes.now left.old))) left.old }
    ensures rest { part_bytes bytes.now left.new ≡ rest_at (part_bytes bytes.now left.old) }
    // It is the first of the options that were left, and the others are left after it.
    ensures steps { YieldsFirst (options_left bytes.now) left.old (some_option result) left.new }
{
    next_tcp_option(bytes, left)
}

/// Where the options of the packet's IPv4 header are. All fields are 0 where it has none.
#[unsafe(no_mangle)]
pub extern "C" fn ep_ipv4_options(packet: &EpPacket) -> EpPart
    ensures { result ≡ options_part 20 packet.now.ipv4.header }
{
    ipv4_options(packet)
}

/// The extension headers of the packet, where it is one of IP: the authentication header of IPv4, or
/// all of IPv6. All fields are 0 where it is another.
#[unsafe(no_mangle)]
pub extern "C" fn ep_ip_extensions(packet: &EpPacket) -> EpExtensions
    ensures { result ≡ packet_extensions packet.now }
{
    ip_extensions(packet)
}

/// Takes the next header from those that are left in a part of the bytes, which begin as those that
/// `ep_ip_extensions` returns. Each call returns one, in their order, and takes it from those that are
/// left. `layer` is 0 where none is left: where the number names no extension header, or the bytes
/// don't start with a whole one.
#[unsafe(no_mangle)]
pub extern "C" fn ep_extension_next(bytes: &[u8], left: &mut EpExtensions) -> EpExtension
    ensures exact { result ≡ first_struct left.old.left.offset (first_piece bytes.now left.old) }
    ensures left { left.new ≡ left_after (first_piece bytes.now left.old) left.old }
    // It is the first of the headers that were left, and the others are left after it.
    ensures steps { YieldsFirst (extensions_left bytes.now) left.old (some_extension result)
        left.new }
{
    next_extension(bytes, left)
}

/// What an ICMPv4 message says beside its type and code: the bytes of a packet from the header of the
/// message on, header and payload.
#[unsafe(no_mangle)]
pub extern "C" fn ep_icmpv4_fields(message: &[u8]) -> EpIcmpFields
    ensures { result ≡ icmpv4_fields_in (icmpv4.message_at message.now) }
{
    icmpv4_fields(message)
}

/// The same of an ICMPv6 message. One of neighbor discovery is EP_ICMP_UNKNOWN.
#[unsafe(no_mangle)]
pub extern "C" fn ep_icmpv6_fields(message: &[u8]) -> EpIcmpFields
    ensures { result ≡ icmpv6_fields_in (icmpv6.message_at message.now) }
{
    icmpv6_fields(message)
}

/// The message of neighbor discovery that an ICMPv6 message is. `icmp_type` is 0 where it is none.
#[unsafe(no_mangle)]
pub extern "C" fn ep_ndp_message(message: &[u8]) -> EpNdp
    ensures { result ≡ ndp_struct_in (ndp.message_at message.now) }
{
    ndp_message(message)
}

/// Where the options of a message of neighbor discovery are in its bytes. All fields are 0 where the
/// bytes are none.
#[unsafe(no_mangle)]
pub extern "C" fn ep_ndp_options(message: &[u8]) -> EpPart
    ensures { result ≡ ndp_options_part (ndp.message_at message.now) }
{
    ndp_options(message)
}

/// Takes the next option of neighbor discovery from those that are left in a part of the bytes, which
/// begins as the part that `ep_ndp_options` returns. Each call returns one, in their order, and takes
/// its bytes from the part. `kind` is 0 where none is left: at the end of the bytes, or after a fault.
#[unsafe(no_mangle)]
pub extern "C" fn ep_ndp_option_next(bytes: &[u8], left: &mut EpPart) -> EpNdpOption
    ensures exact { result
        ≡ ndp_struct_of left.old.offset (ndp_options.item_at (left_in bytes.now left.old)) }
    ensures left { left.new ≡ part_after (length (part_bytes bytes.now left.old)
        - length (ndp_options.left_after (left_in bytes.now left.old)).rest) left.old }
    // It is the first of the options that were left, and the others are left after it.
    ensures steps { YieldsFirst (ndp_options_left bytes.now) left.old (some_ndp_option result)
        left.new }
    // The bytes that it carries are where it says.
    ensures carried { part_bytes bytes.now result.carried
        ≡ carried_in (ndp_options.item_at (left_in bytes.now left.old)) }
{
    next_ndp_option(bytes, left)
}
