//! The records of multicast groups in a report, one after the other, as fields and numbers.
ghost use Rattle.std.specs.Prelude.{◌≡◌, ◌+◌, ◌<◌, ◌≤◌, ◌^◌, ℕ, List, length, IfOk, Some, Ok};
ghost use Rattle.std.specs.Iterator.{YieldsFirst};
ghost use Rattle.etherparse.specs.icmp.Multicast.{IsRecord, size_at, sources_of};
ghost use Rattle.etherparse_structs.specs.GroupRecord.{address_len, cut_struct, first_record, group_at, group_records_left};
ghost use Rattle.etherparse_structs.specs.GroupRecord.{no_group_record, padded, record_struct, records_after, some_group_record, struct_of_first};
ghost use Rattle.etherparse_structs.specs.Part.{part_bytes};

use crate::EpPart;
use etherparse::multicast::GroupRecordError;

/// The records of groups that are left in a report.
#[repr(C)]
#[derive(Drop)]
pub struct EpGroupRecords {
    /// Where they are.
    pub left: EpPart,
    /// How many of those that the report names aren't taken yet.
    pub count: u32,
    /// Whether their addresses are of IPv6 and have 16 bytes, and not the 4 of IPv4.
    pub is_ipv6: bool,
}

/// The record of a group in a report (RFC 3376, section 4.2.4; RFC 3810, section 5.2.5). What it doesn't
/// have is 0.
#[repr(C)]
#[derive(Drop)]
pub struct EpGroupRecord {
    /// The record; of one that is cut off where it starts.
    pub bytes: EpPart,
    /// The addresses of its sources, of 4 or 16 bytes each.
    pub sources: EpPart,
    /// What follows them, of which neither standard defines any.
    pub auxiliary_data: EpPart,
    /// Of kind 2: how many bytes it needs: at first those before its sources, then all.
    pub needed: usize,
    /// Of kind 2: how many bytes are left.
    pub there: usize,
    /// 0 none, since none is left; 1 a record; 2 fewer bytes are left than a record needs: nothing is
    /// read after it.
    pub kind: u32,
    /// Its type: 1 to 6 (RFC 3376, section 4.2.12).
    pub record_type: u8,
    /// The address of the group: the first 4 bytes, or all 16 where it is of IPv6.
    pub group: [u8; 16],
}

/// Takes the next record from those that are left in a part of the bytes.
#[tactic(auto, using(crate::proofs::GroupRecordLemmas::record_is_first, crate::proofs::GroupRecordLemmas::parts_are))]
pub fn next_group_record(bytes: &[u8], left: &mut EpGroupRecords) -> EpGroupRecord
    ensures exact { result ≡ struct_of_first bytes.now left.old }
    ensures left { left.new ≡ records_after bytes.now left.old }
    ensures steps { YieldsFirst (group_records_left bytes.now) left.old (some_group_record result)
        left.new }
    ensures parts { (record' : List ℕ) → first_record bytes.now left.old ≡ Some (Ok record')
        → (part_bytes bytes.now result.bytes ≡ record')
        × (part_bytes bytes.now result.sources ≡ sources_of (address_len left.old.is_ipv6) record') }
{
    take_record(bytes, left)
}

// The same, by what the record at the start of the bytes says.
fn take_record(bytes: &[u8], left: &mut EpGroupRecords) -> EpGroupRecord
    ensures exact { result ≡ struct_of_first bytes.now left.old }
    ensures left { left.new ≡ records_after bytes.now left.old }
{
    if left.count == 0 {
        return no_group_record();
    }
    let place = left.left.offset;
    let rest = left.left.bytes_in(bytes);
    match size_at(address_len(left.is_ipv6), rest) {
        Ok(size) => {
            left.left.take_first(size);
            left.count -= 1;
            record_struct(place, left.is_ipv6, &rest[..size])
        }
        Err(error) => {
            left.left.take_first(rest.len());
            left.count = 0;
            cut_struct(place, error)
        }
    }
}

fn address_len(is_ipv6: bool) -> usize
    ensures value { result ≡ address_len is_ipv6 }
    ensures most { result ≤ 16 }
{
    if is_ipv6 { 16 } else { 4 }
}

// The size of the record at the start of the bytes, with addresses of so many bytes.
fn size_at(address_len: usize, bytes: &[u8]) -> Result<usize, GroupRecordError>
    requires { address_len ≤ 16 }
    ensures size { result ≡ size_at address_len 0 bytes.now }
    ensures most { IfOk result (λ size. size ≤ length bytes.now) }
{
    let fixed_len = 4 + address_len;
    if bytes.len() < fixed_len {
        return Err(cut_off(fixed_len, bytes));
    }
    let sources = usize::from(u16::from_be_bytes([bytes[2], bytes[3]]));
    let size = fixed_len + address_len * sources + 4 * usize::from(bytes[1]);
    if bytes.len() < size {
        return Err(cut_off(size, bytes));
    }
    Ok(size)
}

fn cut_off(needed_len: usize, bytes: &[u8]) -> GroupRecordError
    ensures { result ≡ record {
      offset = 0;
      needed_len = needed_len;
      actual_len = length bytes.now;
    } }
{
    GroupRecordError {
        offset: 0,
        needed_len,
        actual_len: bytes.len(),
    }
}

fn no_group_record() -> EpGroupRecord
    ensures { result ≡ no_group_record }
{
    EpGroupRecord {
        bytes: EpPart::none(),
        sources: EpPart::none(),
        auxiliary_data: EpPart::none(),
        needed: 0,
        there: 0,
        kind: 0,
        record_type: 0,
        group: [0; 16],
    }
}

// The record that these bytes are, of which the first has this offset.
fn record_struct(place: usize, is_ipv6: bool, bytes: &[u8]) -> EpGroupRecord
    requires is { IsRecord (address_len is_ipv6) bytes.now }
    requires fits { place + length bytes.now < 2 ^ 64 }
    ensures { result ≡ record_struct place is_ipv6 bytes.now }
{
    let start = 4 + address_len(is_ipv6);
    let sources = usize::from(u16::from_be_bytes([bytes[2], bytes[3]]));
    let end = start + address_len(is_ipv6) * sources;
    EpGroupRecord {
        bytes: EpPart::of(place, bytes),
        sources: EpPart::of(place + start, &bytes[start..end]),
        auxiliary_data: EpPart::of(place + end, &bytes[end..]),
        kind: 1,
        record_type: bytes[0],
        group: group_at(is_ipv6, 4, bytes),
        ..no_group_record()
    }
}

/// The address of a group at this offset, filled up with 0 to 16 bytes.
pub(crate) fn group_at(is_ipv6: bool, at: usize, bytes: &[u8]) -> [u8; 16]
    requires { at + address_len is_ipv6 ≤ length bytes.now }
    ensures { result ≡ group_at is_ipv6 at bytes.now }
{
    if is_ipv6 {
        return bytes[at..at + 16].try_into().unwrap();
    }
    let address: [u8; 4] = bytes[at..at + 4].try_into().unwrap();
    padded(address)
}

/// An address of IPv4, filled up with 0 to 16 bytes.
pub(crate) fn padded(address: [u8; 4]) -> [u8; 16]
    ensures { result ≡ padded address }
{
    let [a, b, c, d] = address;
    [a, b, c, d, 0, 0, 0, 0, 0, 0, 0, 0, 0, 0, 0, 0]
}

fn cut_struct(place: usize, error: GroupRecordError) -> EpGroupRecord
    ensures { result ≡ cut_struct place error }
{
    EpGroupRecord {
        bytes: EpPart {
            offset: place,
            len: 0,
        },
        needed: error.needed_len,
        there: error.actual_len,
        kind: 2,
        ..no_group_record()
    }
}
