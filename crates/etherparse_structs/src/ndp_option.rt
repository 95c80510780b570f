//! The options of a message of neighbor discovery, one after the other, as fields and numbers.
ghost use Rattle.std.specs.Prelude.{◌≡◌, ◌+◌, ◌-◌, ◌<◌, ◌≤◌, ◌^◌, length, IfSome};
ghost use Rattle.std.specs.Iterator.{YieldsFirst};
ghost use Rattle.etherparse.specs.icmp.Ndp as ndp;
ghost use Rattle.etherparse.specs.icmp.NdpOptions.{item_at, left_after};
ghost use Rattle.etherparse_structs.specs.NdpOption.{carried_in, carrying, fault_struct, item_len, item_struct, left_in};
ghost use Rattle.etherparse_structs.specs.NdpOption.{ndp_options_left, ndp_options_part, no_ndp_option, of_kind};
ghost use Rattle.etherparse_structs.specs.NdpOption.{option_len, option_struct, option_struct_in, prefix_struct, some_ndp_option};
ghost use Rattle.etherparse_structs.specs.Part.{part_after, part_bytes};

use crate::EpPart;
use etherparse::icmpv6::ndp::{
    NdpOption, NdpOptionError, NdpOptionsIterator, NdpSlice, PrefixInformation,
};

/// No option is left.
pub const NDP_OPTION_NONE: u32 = 0;

/// An option of another type, or of a length that its type doesn't have.
pub const NDP_OPTION_UNKNOWN: u32 = 1;

/// The sender's link-layer address.
pub const NDP_OPTION_SOURCE_LINK_LAYER_ADDRESS: u32 = 2;

/// The target's link-layer address.
pub const NDP_OPTION_TARGET_LINK_LAYER_ADDRESS: u32 = 3;

/// A prefix.
pub const NDP_OPTION_PREFIX_INFORMATION: u32 = 4;

/// The start of the packet that is redirected.
pub const NDP_OPTION_REDIRECTED_HEADER: u32 = 5;

/// The link's greatest packet.
pub const NDP_OPTION_MTU: u32 = 6;

/// Recursive DNS servers.
pub const NDP_OPTION_RECURSIVE_DNS_SERVER: u32 = 7;

/// Domains in which names are searched.
pub const NDP_OPTION_DNS_SEARCH_LIST: u32 = 8;

/// No option: `fault` says why, and nothing is read after it.
pub const NDP_OPTION_FAULT: u32 = 9;

/// An option of neighbor discovery (RFC 4861, section 4.6; RFC 8106, section 5), or why the bytes are
/// none. The fields of other kinds are 0.
#[repr(C)]
#[derive(Drop)]
pub struct EpNdpOption {
    /// The option with its type and its length; of a fault where it starts.
    pub option: EpPart,
    /// What it carries. Of a link-layer address: the address, with what fills its last unit of 8
    /// bytes. Of a redirected header: the packet. Of recursive DNS servers: their addresses, of 16
    /// bytes each. Of a search list: names as labels, filled with zeros. Of an unknown one: what
    /// follows type and length.
    pub carried: EpPart,
    /// Of fault 1: how many bytes it needs.
    pub needed: usize,
    /// Of fault 1: how many bytes are left.
    pub there: usize,
    /// Which option it is, one of EP_NDP_OPTION_..
    pub kind: u32,
    /// 0 none; 1 fewer bytes are left than the option needs; 2 its length is 0.
    pub fault: u32,
    /// Of recursive DNS servers and of a search list: how long they may be used, in seconds; all ones:
    /// for ever.
    pub lifetime: u32,
    /// Of a prefix: how long it is on the link, in seconds; all ones: for ever.
    pub valid_lifetime: u32,
    /// Of a prefix: how long addresses formed with it are preferred, in seconds; all ones: for ever.
    pub preferred_lifetime: u32,
    /// Of an MTU: the link's greatest packet in bytes.
    pub mtu: u32,
    /// The type; of a fault 0.
    pub option_type: u8,
    /// Of a prefix: how many of its leading bits are valid, 0 to 128.
    pub prefix_length: u8,
    /// Of a prefix: bit L: its addresses are on the link.
    pub on_link: bool,
    /// Of a prefix: bit A: a host may form an address with it.
    pub autonomous: bool,
    /// Of a prefix: the prefix, whose bits after `prefix_length` are to be ignored.
    pub prefix: [u8; 16],
}

/// Where the options of the message of neighbor discovery are that these bytes are.
pub fn ndp_options(message: &[u8]) -> EpPart
    ensures { result ≡ ndp_options_part (ndp.message_at message.now) }
{
    match NdpSlice::from_slice(message) {
        Some(Ok(ndp)) => {
            let offset = ndp.header_len();
            EpPart {
                offset,
                len: message.len() - offset,
            }
        }
        _ => EpPart::none(),
    }
}

/// Takes the next option from those that are left in a part of the bytes.
#[tactic(auto, using(crate::proofs::NdpOptionLemmas::option_is_first, crate::proofs::NdpOptionLemmas::bytes_carried))]
pub fn next_ndp_option(bytes: &[u8], left: &mut EpPart) -> EpNdpOption
    ensures exact { result ≡ option_struct_in left.old.offset (item_at (left_in bytes.now left.old)) }
    ensures left { left.new ≡ part_after (length (part_bytes bytes.now left.old)
        - length (left_after (left_in bytes.now left.old)).rest) left.old }
    ensures steps { YieldsFirst (ndp_options_left bytes.now) left.old (some_ndp_option result) left.new }
    ensures carried { part_bytes bytes.now result.carried ≡ carried_in (item_at (left_in bytes.now left.old)) }
{
    take_option(bytes, left)
}

// The same, by the iterator over the bytes.
fn take_option(bytes: &[u8], left: &mut EpPart) -> EpNdpOption
    ensures exact { result ≡ option_struct_in left.old.offset (item_at (left_in bytes.now left.old)) }
    ensures left { left.new ≡ part_after (length (part_bytes bytes.now left.old)
        - length (left_after (left_in bytes.now left.old)).rest) left.old }
{
    let (item, taken) = first_option(left.bytes_in(bytes));
    let option = option_struct_in(left.offset, item);
    left.take_first(taken);
    option
}

// The first of the options, and how many bytes it takes.
#[tactic(auto, using(crate::proofs::NdpOptionLemmas::item_most, crate::proofs::NdpOptionLemmas::rest_most))]
fn first_option(options: &[u8]) -> (Option<Result<NdpOption<'_>, NdpOptionError>>, usize)
    ensures item { result.0 ≡ item_at (record { rest = options.now; end = length options.now }) }
    ensures taken { result.1 ≡ length options.now
        - length (left_after (record { rest = options.now; end = length options.now })).rest }
    ensures most { IfSome result.0 (λ item. item_len item ≤ length options.now) }
{
    let mut iterator = NdpOptionsIterator::from_slice(options);
    let item = iterator.next();
    (item, options.len() - iterator.rest().len())
}

fn option_struct_in(
    place: usize,
    item: Option<Result<NdpOption<'_>, NdpOptionError>>,
) -> EpNdpOption
    requires { IfSome item (λ i. place + item_len i < 2 ^ 64) }
    ensures { result ≡ option_struct_in place item.entry }
{
    match item {
        Some(Ok(option)) => option_struct(place, option),
        Some(Err(fault)) => fault_struct(place, fault),
        None => no_ndp_option(),
    }
}

fn no_ndp_option() -> EpNdpOption
    ensures { result ≡ no_ndp_option }
{
    EpNdpOption {
        option: EpPart::none(),
        carried: EpPart::none(),
        needed: 0,
        there: 0,
        kind: 0,
        fault: 0,
        lifetime: 0,
        valid_lifetime: 0,
        preferred_lifetime: 0,
        mtu: 0,
        option_type: 0,
        prefix_length: 0,
        on_link: false,
        autonomous: false,
        prefix: [0; 16],
    }
}

fn option_struct(place: usize, option: NdpOption<'_>) -> EpNdpOption
    requires { place + option_len option < 2 ^ 64 }
    ensures { result ≡ option_struct place option.entry }
{
    match option {
        NdpOption::SourceLinkLayerAddress(address) => {
            carrying(
                NDP_OPTION_SOURCE_LINK_LAYER_ADDRESS,
                1,
                place,
                2,
                address.slice(),
            )
        }
        NdpOption::TargetLinkLayerAddress(address) => {
            carrying(
                NDP_OPTION_TARGET_LINK_LAYER_ADDRESS,
                2,
                place,
                2,
                address.slice(),
            )
        }
        NdpOption::PrefixInformation(prefix) => prefix_struct(place, prefix),
        NdpOption::RedirectedHeader(packet) => {
            carrying(NDP_OPTION_REDIRECTED_HEADER, 4, place, 8, packet.slice())
        }
        NdpOption::Mtu(mtu) => EpNdpOption {
            mtu,
            ..of_kind(NDP_OPTION_MTU, 5, place, 8)
        },
        NdpOption::RecursiveDnsServer {
            lifetime,
            addresses,
        } => EpNdpOption {
            lifetime,
            ..carrying(
                NDP_OPTION_RECURSIVE_DNS_SERVER,
                25,
                place,
                8,
                addresses.slice(),
            )
        },
        NdpOption::DnsSearchList { lifetime, names } => EpNdpOption {
            lifetime,
            ..carrying(NDP_OPTION_DNS_SEARCH_LIST, 31, place, 8, names.slice())
        },
        NdpOption::Unknown { kind, bytes } => {
            carrying(NDP_OPTION_UNKNOWN, kind, place, 2, bytes.slice())
        }
    }
}

// An option of so many bytes at this offset.
fn of_kind(kind: u32, option_type: u8, place: usize, len: usize) -> EpNdpOption
    ensures { result ≡ of_kind kind option_type place len }
{
    EpNdpOption {
        option: EpPart { offset: place, len },
        kind,
        option_type,
        ..no_ndp_option()
    }
}

// One that carries these bytes after its first ones.
fn carrying(kind: u32, option_type: u8, place: usize, first: usize, carried: &[u8]) -> EpNdpOption
    requires small { first ≤ 8 }
    requires fits { place + (first + length carried.now) < 2 ^ 64 }
    ensures { result ≡ carrying kind option_type place first carried.now }
{
    EpNdpOption {
        carried: EpPart::of(place + first, carried),
        ..of_kind(kind, option_type, place, first + carried.len())
    }
}

fn prefix_struct(place: usize, prefix: PrefixInformation) -> EpNdpOption
    ensures { result ≡ prefix_struct place prefix }
{
    let bits = prefix.prefix;
    EpNdpOption {
        prefix_length: prefix.prefix_length,
        on_link: prefix.on_link,
        autonomous: prefix.autonomous,
        valid_lifetime: prefix.valid_lifetime,
        preferred_lifetime: prefix.preferred_lifetime,
        prefix: bits,
        ..of_kind(NDP_OPTION_PREFIX_INFORMATION, 3, place, 32)
    }
}

fn fault_struct(place: usize, fault: NdpOptionError) -> EpNdpOption
    ensures { result ≡ fault_struct place fault }
{
    match fault {
        NdpOptionError::UnexpectedEnd {
            needed_len,
            actual_len,
            ..
        } => EpNdpOption {
            fault: 1,
            needed: needed_len,
            there: actual_len,
            ..of_kind(NDP_OPTION_FAULT, 0, place, 0)
        },
        NdpOptionError::ZeroLength { .. } => EpNdpOption {
            fault: 2,
            ..of_kind(NDP_OPTION_FAULT, 0, place, 0)
        },
    }
}
