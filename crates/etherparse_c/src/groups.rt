//! Messages of multicast groups, and the records in them one after the other.
ghost use Rattle.std.specs.Prelude.{◌≡◌, ℕ, List, Some, Ok};
ghost use Rattle.std.specs.Iterator.{YieldsFirst};
ghost use Rattle.etherparse.specs.icmp.Igmp.{igmp_at};
ghost use Rattle.etherparse.specs.icmp.Mld.{mld_at};
ghost use Rattle.etherparse.specs.icmp.Multicast.{sources_of};
ghost use Rattle.etherparse_structs.specs.GroupMessage.{igmp_struct_in, mld_struct_in};
ghost use Rattle.etherparse_structs.specs.GroupRecord.{address_len, first_record, group_records_left, records_after};
ghost use Rattle.etherparse_structs.specs.GroupRecord.{some_group_record, struct_of_first};
ghost use Rattle.etherparse_structs.specs.Part.{part_bytes};

use etherparse_structs::{
    EpGroupMessage, EpGroupRecord, EpGroupRecords, igmp_message, mld_message, next_group_record,
};

/// The message of IGMP that these bytes are: the payload of an IPv4 packet of protocol 2. `kind` is 0
/// where they are of no known type.
#[unsafe(no_mangle)]
pub extern "C" fn ep_igmp_message(message: &[u8]) -> EpGroupMessage
    ensures { result ≡ igmp_struct_in (igmp_at message.now) }
{
    igmp_message(message)
}

/// The message of multicast listener discovery that an ICMPv6 message is, header and payload. `kind` is
/// 0 where it is none.
#[unsafe(no_mangle)]
pub extern "C" fn ep_mld_message(message: &[u8]) -> EpGroupMessage
    ensures { result ≡ mld_struct_in (mld_at message.now) }
{
    mld_message(message)
}

/// Takes the next record from those that are left in a part of the bytes, which begin as the records
/// of the message that these bytes are. Each call returns one, in their order, and takes it from those
/// that are left. `kind` is 0 where none is left: after as many as the report names, or after one that
/// is cut off.
#[unsafe(no_mangle)]
pub extern "C" fn ep_group_record_next(bytes: &[u8], left: &mut EpGroupRecords) -> EpGroupRecord
    ensures exact { result ≡ struct_of_first bytes.now left.old }
    ensures left { left.new ≡ records_after bytes.now left.old }
    // It is the first of the records that were left, and the others are left after it.
    ensures steps { YieldsFirst (group_records_left bytes.now) left.old (some_group_record result)
        left.new }
    // Its bytes and those of its sources are where it says.
    ensures parts { (record' : List ℕ) → first_record bytes.now left.old ≡ Some (Ok record')
        → (part_bytes bytes.now result.bytes ≡ record')
        × (part_bytes bytes.now result.sources ≡ sources_of (address_len left.old.is_ipv6) record') }
{
    next_group_record(bytes, left)
}
