//! The records of a report, one after the other.
ghost use Rattle.std.specs.Prelude.{◌≡◌, ⊤, ◌+◌, ◌-◌, ◌*◌, ◌<◌, ◌≤◌, ◌^◌, ℕ, List, length, OnOk};
ghost use Rattle.std.specs.Iterator.{YieldsFirst, item_count, MakesProgress};
ghost use Rattle.ep_icmp.specs.Multicast as multicast;
ghost use Rattle.ep_icmp.specs.Multicast.{RecordsLeft};

use super::{GroupRecord, GroupRecordError};
use std::marker::Model;

/// The records of groups in a report, with addresses of `N` bytes (RFC 3376, section 4.2; RFC 3810,
/// section 5.2).
///
/// It ends after as many records as the report names, or after the first that is cut off, whose
/// fault is the last item. A contract sees it as the bytes that are left, how many there were, and
/// how many records are left.
#[derive(Clone, Debug, Drop)]
pub struct GroupRecords<'a, const N: usize> {
    records: &'a [u8],
    end: usize,
    count: u16,
}

impl<'a, const N: usize> Model for GroupRecords<'a, N> {
    ghost Value = { RecordsLeft };

    ghost view = { λ iterator. record {
      rest = iterator.records.now;
      end = iterator.end;
      count = iterator.count;
    } };

    ghost invariant = { λ iterator. (N ≤ 16) × (length iterator.records.now ≤ iterator.end) };
}

impl<'a, const N: usize> GroupRecords<'a, N> {
    // So many records that these bytes begin with.
    pub(crate) fn new(records: &'a [u8], count: u16) -> GroupRecords<'a, N>
        requires { N ≤ 16 }
        ensures { result ≡ record { rest = records.now; end = length records.now; count = count } }
    {
        GroupRecords {
            records,
            end: records.len(),
            count,
        }
    }

    /// How many records are left: none after a fault.
    pub fn count_left(&self) -> u16
        ensures { result ≡ self.now.count }
    {
        self.count
    }

    /// The bytes that are left: none after a fault.
    pub fn rest(&self) -> &'a [u8]
        ensures { result.now ≡ self.now.rest }
    {
        self.records
    }
}

impl<'a, const N: usize> Iterator for GroupRecords<'a, N> {
    type Item = Result<GroupRecord<'a, N>, GroupRecordError>;

    ghost next_gives = { YieldsFirst (multicast.records_of N) };

    ghost remaining = { item_count (multicast.records_of N) };

    fn next(&mut self) -> Option<Self::Item>
        ensures steps { YieldsFirst (multicast.records_of N) self.old result self.new }
        ensures goes { MakesProgress (λ _. ⊤) (item_count (multicast.records_of N))
            self.old result self.new }
        ensures rest { self.new ≡ multicast.left_after N self.old }
    {
        if self.count == 0 {
            return None;
        }
        let records = self.records;
        match size_at(records, N, self.end - records.len()) {
            Ok(size) => {
                let (record, rest) = records.split_at(size);
                self.records = rest;
                self.count -= 1;
                Some(Ok(GroupRecord::of_bytes(record)))
            }
            Err(error) => {
                self.records = &records[records.len()..];
                self.count = 0;
                Some(Err(error))
            }
        }
    }
}

// The size in bytes of the record at the start of the bytes, with addresses of so many bytes, or
// its fault.
fn size_at(records: &[u8], address_len: usize, offset: usize) -> Result<usize, GroupRecordError>
    requires { address_len ≤ 16 }
    ensures { result ≡ multicast.size_at address_len offset records.now }
{
    let prefix_len = 4 + address_len;
    let missing = |needed_len| GroupRecordError {
        offset,
        needed_len,
        actual_len: records.len(),
    };
    if records.len() < prefix_len {
        return Err(missing(prefix_len));
    }
    let sources = usize::from(u16::from_be_bytes([records[2], records[3]]));
    let size = prefix_len + address_len * sources + 4 * usize::from(records[1]);
    if records.len() < size {
        return Err(missing(size));
    }
    Ok(size)
}
