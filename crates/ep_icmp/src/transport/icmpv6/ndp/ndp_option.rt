//! The options of neighbor discovery.
ghost use Rattle.std.specs.Prelude.{◌≡◌, ◌+◌, ◌<◌, ◌≤◌, ◌++◌, true, false, length, Err, IfErr, OnErr, OnOk};
ghost use Rattle.std.specs.Prelude.{vec_len, vec_capacity};
ghost use Rattle.ep_base.specs.Bytes.{num};
ghost use Rattle.ep_icmp.specs.NdpOptions as spec;
ghost use Rattle.ep_icmp.specs.declared.transport.icmpv6.ndp.ndp_option_error.NdpOptionWriteError.TheVariants as write_error;

use super::{NdpOptionData, NdpOptionWriteError, PrefixInformation};

/// An option of neighbor discovery (RFC 4861, section 4.6; RFC 8106, section 5).
#[derive(Clone, Debug, PartialEq, Eq, Drop)]
pub enum NdpOption<'a> {
    /// The sender's link-layer address (type 1, section 4.6.1), with what fills its last unit of 8
    /// bytes.
    SourceLinkLayerAddress(NdpOptionData<'a>),
    /// The target's link-layer address (type 2, section 4.6.1), with what fills its last unit of 8
    /// bytes.
    TargetLinkLayerAddress(NdpOptionData<'a>),
    /// A prefix (type 3, section 4.6.2).
    PrefixInformation(PrefixInformation),
    /// The start of the packet that is redirected (type 4, section 4.6.3).
    RedirectedHeader(NdpOptionData<'a>),
    /// The link's greatest packet in bytes (type 5, section 4.6.4).
    Mtu(u32),
    /// Recursive DNS servers (type 25; RFC 8106, section 5.1).
    RecursiveDnsServer {
        /// How long they may be used, in seconds; all ones: for ever.
        lifetime: u32,
        /// Their addresses, of 16 bytes each.
        addresses: NdpOptionData<'a>,
    },
    /// Domains in which names are searched (type 31; RFC 8106, section 5.2).
    DnsSearchList {
        /// How long they may be used, in seconds; all ones: for ever.
        lifetime: u32,
        /// Their names as labels (RFC 1035, section 3.1), filled with zeros.
        names: NdpOptionData<'a>,
    },
    /// An option of another type, or of a length that its type doesn't have.
    Unknown {
        /// The type.
        kind: u8,
        /// What follows type and length.
        bytes: NdpOptionData<'a>,
    },
}

impl<'a> NdpOption<'a> {
    // The option that these bytes, all of it, are.
    pub(super) fn of_bytes(bytes: &'a [u8]) -> NdpOption<'a>
        requires { spec.IsOption bytes.now }
        ensures { result ≡ spec.option_of bytes.now }
    {
        match (bytes[0], bytes[1]) {
            (1, _) => NdpOption::SourceLinkLayerAddress(NdpOptionData::new(&bytes[2..])),
            (2, _) => NdpOption::TargetLinkLayerAddress(NdpOptionData::new(&bytes[2..])),
            (3, 4) => NdpOption::PrefixInformation(PrefixInformation::of_bytes(bytes)),
            (4, _) => NdpOption::RedirectedHeader(NdpOptionData::new(&bytes[8..])),
            (5, 1) => NdpOption::Mtu(second_word(bytes)),
            (25, units) if units >= 3 && units % 2 == 1 => NdpOption::RecursiveDnsServer {
                lifetime: second_word(bytes),
                addresses: NdpOptionData::new(&bytes[8..]),
            },
            (31, units) if units >= 2 => NdpOption::DnsSearchList {
                lifetime: second_word(bytes),
                names: NdpOptionData::new(&bytes[8..]),
            },
            (kind, _) => NdpOption::Unknown {
                kind,
                bytes: NdpOptionData::new(&bytes[2..]),
            },
        }
    }

    /// Appends the bytes of the option, with reserved bits 0.
    ///
    /// Refused, with the buffer unchanged, is an option whose bytes are no multiple of 8 or more than
    /// 2040, that has no server or a part of an address, or no name; then the length is returned.
    /// An `Unknown` of a type and length that has another variant is written, and read as that.
    pub fn write(&self, buffer: &mut Vec<u8>) -> Result<(), NdpOptionWriteError>
        ensures ok { OnOk result (buffer.new.items ≡ buffer.old.items ++ spec.option_bytes self.now) }
        ensures option { OnOk result (spec.IsOption (spec.option_bytes self.now)) }
        ensures err { OnErr result (buffer.new.items ≡ buffer.old.items) }
        ensures refused { spec.is_writable self.now ≡ false
            → result ≡ Err (write_error.Length (length (spec.option_bytes self.now))) }
        // Else it fails only where capacity was missing, and capacity never shrinks.
        ensures memory { IfErr result (λ e. spec.is_writable self.now ≡ true
            → (e ≡ write_error.Memory)
            × (vec_capacity buffer.old < vec_len buffer.old + length (spec.option_bytes self.now))) }
        ensures capacity { vec_capacity buffer.old ≤ vec_capacity buffer.new }
    {
        match self {
            NdpOption::SourceLinkLayerAddress(address) => {
                append(buffer, 1, &[], address.slice(), true)
            }
            NdpOption::TargetLinkLayerAddress(address) => {
                append(buffer, 2, &[], address.slice(), true)
            }
            NdpOption::PrefixInformation(prefix) => {
                append(buffer, 3, &prefix.field_bytes(), &prefix.prefix, true)
            }
            NdpOption::RedirectedHeader(packet) => {
                append(buffer, 4, &[0; 6], packet.slice(), true)
            }
            NdpOption::Mtu(mtu) => {
                let [m0, m1, m2, m3] = mtu.to_be_bytes();
                append(buffer, 5, &[0, 0, m0, m1, m2, m3], &[], true)
            }
            NdpOption::RecursiveDnsServer {
                lifetime,
                addresses,
            } => {
                let [l0, l1, l2, l3] = lifetime.to_be_bytes();
                let addresses = addresses.slice();
                let whole = !addresses.is_empty() && addresses.len() % 16 == 0;
                append(buffer, 25, &[0, 0, l0, l1, l2, l3], addresses, whole)
            }
            NdpOption::DnsSearchList { lifetime, names } => {
                let [l0, l1, l2, l3] = lifetime.to_be_bytes();
                let names = names.slice();
                append(
                    buffer,
                    31,
                    &[0, 0, l0, l1, l2, l3],
                    names,
                    !names.is_empty(),
                )
            }
            NdpOption::Unknown { kind, bytes } => append(buffer, *kind, &[], bytes.slice(), true),
        }
    }
}

// Appends an option of this type, with these bytes after type and length, unless they don't fit it.
fn append(
    buffer: &mut Vec<u8>,
    kind: u8,
    fixed: &[u8],
    carried: &[u8],
    fits: bool,
) -> Result<(), NdpOptionWriteError>
    requires { length fixed.now ≤ 30 }
    ensures ok { OnOk result (buffer.new.items
        ≡ buffer.old.items ++ spec.of_kind kind (fixed.now ++ carried.now)) }
    ensures option { OnOk result (spec.IsOption (spec.of_kind kind (fixed.now ++ carried.now))) }
    ensures err { OnErr result (buffer.new.items ≡ buffer.old.items) }
    ensures refused { spec.has_len (2 + (length fixed.now + length carried.now)) fits ≡ false
        → result ≡ Err (write_error.Length (2 + (length fixed.now + length carried.now))) }
    ensures memory { IfErr result (λ e.
        spec.has_len (2 + (length fixed.now + length carried.now)) fits ≡ true
        → (e ≡ write_error.Memory) × (vec_capacity buffer.old
        < vec_len buffer.old + (2 + (length fixed.now + length carried.now)))) }
    ensures capacity { vec_capacity buffer.old ≤ vec_capacity buffer.new }
{
    let len = 2 + (fixed.len() + carried.len());
    if !fits || len % 8 != 0 || len > 2040 {
        return Err(NdpOptionWriteError::Length(len));
    }
    if buffer.reserve(len).is_err() {
        return Err(NdpOptionWriteError::Memory);
    }
    buffer.extend_from_slice(&[kind, (len / 8) as u8]).unwrap();
    buffer.extend_from_slice(fixed).unwrap();
    buffer.extend_from_slice(carried).unwrap();
    Ok(())
}

// Bytes 4 to 7 as a number.
fn second_word(bytes: &[u8]) -> u32
    requires { 8 ≤ length bytes.now }
    ensures { result ≡ num bytes.now 4 4 }
{
    u32::from_be_bytes(bytes[4..8].try_into().unwrap())
}
