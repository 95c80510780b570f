//! Laws of multicast group messages (RFC 3376, RFC 3810).
ghost use Rattle.ep_icmp.specs.Multicast.{NoOtherRecords, RecordsAreEncoded};

/// The bytes of a report are read as its records, each once and in order, up to the number that it
/// names, or up to the first that is cut off; and there is no other way to read them.
pub fn items_are_records()
    ensures encoded { RecordsAreEncoded }
    ensures no_other { NoOtherRecords }
{}
