//! What a timestamp request and its reply carry.
ghost use Rattle.std.specs.Prelude.{◌≡◌};
ghost use Rattle.ep_icmp.specs.Fields.{TimestampFits, timestamp_bytes, timestamp_in};

/// What follows the checksum of a timestamp request and of its reply, which carry no data (RFC 792,
/// "Timestamp or Timestamp Reply Message"). Times are milliseconds since midnight UT.
#[derive(Clone, Copy, Debug, PartialEq, Eq)]
pub struct TimestampMessage {
    /// The identifier, which the reply repeats.
    pub id: u16,
    /// The sequence number, which the reply repeats.
    pub seq: u16,
    /// When the request was last touched by its sender.
    pub originate_timestamp: u32,
    /// When the request was first touched by its receiver.
    pub receive_timestamp: u32,
    /// When the reply was last touched by its sender.
    pub transmit_timestamp: u32,
}

impl TimestampMessage {
    /// The length of the whole message in bytes, type, code and checksum among them.
    pub const LEN: usize = 20;

    /// The fields that these bytes, those after the checksum, encode.
    pub fn from_bytes(bytes: [u8; 16]) -> TimestampMessage
        ensures { result ≡ timestamp_in bytes 0 }
    {
        TimestampMessage {
            id: u16::from_be_bytes([bytes[0], bytes[1]]),
            seq: u16::from_be_bytes([bytes[2], bytes[3]]),
            originate_timestamp: u32::from_be_bytes([bytes[4], bytes[5], bytes[6], bytes[7]]),
            receive_timestamp: u32::from_be_bytes([bytes[8], bytes[9], bytes[10], bytes[11]]),
            transmit_timestamp: u32::from_be_bytes([bytes[12], bytes[13], bytes[14], bytes[15]]),
        }
    }

    // What follows the checksum.
    pub(crate) fn to_bytes(&self) -> [u8; 16]
        ensures bytes { result ≡ timestamp_bytes self.now }
        ensures fits { TimestampFits self.now }
    {
        let TimestampMessage {
            id,
            seq,
            originate_timestamp,
            receive_timestamp,
            transmit_timestamp,
        } = *self;
        let [i0, i1] = id.to_be_bytes();
        let [s0, s1] = seq.to_be_bytes();
        let [o0, o1, o2, o3] = originate_timestamp.to_be_bytes();
        let [r0, r1, r2, r3] = receive_timestamp.to_be_bytes();
        let [t0, t1, t2, t3] = transmit_timestamp.to_be_bytes();
        [
            i0, i1, s0, s1, o0, o1, o2, o3, r0, r1, r2, r3, t0, t1, t2, t3,
        ]
    }
}
