//! What an echo request and its reply carry before the data.
ghost use Rattle.ep_icmp.specs.Fields.{EchoFits, echo_bytes, echo_in};
ghost use Rattle.std.specs.Prelude.{◌≡◌};

/// Bytes 4 to 7 of an echo request and of its reply (RFC 792, "Echo or Echo Reply Message"; RFC
/// 4443, sections 4.1 and 4.2).
#[derive(Clone, Copy, Debug, PartialEq, Eq)]
pub struct IcmpEchoHeader {
    /// The identifier, which the reply repeats.
    pub id: u16,
    /// The sequence number, which the reply repeats.
    pub seq: u16,
}

impl IcmpEchoHeader {
    /// The length in bytes.
    pub const LEN: usize = 4;

    /// The bytes: the identifier and the sequence number, each high byte first.
    pub fn to_bytes(&self) -> [u8; 4]
        ensures bytes { result ≡ echo_bytes self.now }
        ensures fits { EchoFits self.now }
    {
        let IcmpEchoHeader { id, seq } = *self;
        let [i0, i1] = id.to_be_bytes();
        let [s0, s1] = seq.to_be_bytes();
        [i0, i1, s0, s1]
    }

    /// The fields that these bytes encode.
    pub fn from_bytes(bytes: [u8; 4]) -> IcmpEchoHeader
        ensures { result ≡ echo_in bytes 0 }
    {
        IcmpEchoHeader {
            id: u16::from_be_bytes([bytes[0], bytes[1]]),
            seq: u16::from_be_bytes([bytes[2], bytes[3]]),
        }
    }
}
