//! What a router announces of a prefix.
ghost use Rattle.std.specs.Prelude.{◌≡◌, length};
ghost use Rattle.ep_icmp.specs.NdpOptions as spec;

use super::ndp_message::flag;

/// A prefix that a router announces (RFC 4861, section 4.6.2).
#[derive(Clone, Copy, Debug, PartialEq, Eq)]
pub struct PrefixInformation {
    /// How many leading bits of the prefix are valid, 0 to 128.
    pub prefix_length: u8,
    /// Addresses of the prefix are on the link: bit L.
    pub on_link: bool,
    /// A host may form an address with the prefix (RFC 4862): bit A.
    pub autonomous: bool,
    /// How long the prefix is on the link, in seconds; all ones: for ever.
    pub valid_lifetime: u32,
    /// How long addresses formed with it are preferred, in seconds; all ones: for ever.
    pub preferred_lifetime: u32,
    /// The prefix. Its bits after `prefix_length` are to be ignored.
    pub prefix: [u8; 16],
}

#[tactic(auto, using(ep_base::proofs::Bits::masks, ep_base::proofs::Bits::flag_tests))]
impl PrefixInformation {
    // The fields that the 32 bytes of an option encode.
    pub(super) fn of_bytes(bytes: &[u8]) -> PrefixInformation
        requires { length bytes.now ≡ 32 }
        ensures { result ≡ spec.prefix_of bytes.now }
    {
        PrefixInformation {
            prefix_length: bytes[2],
            on_link: bytes[3] & 128 != 0,
            autonomous: bytes[3] & 64 != 0,
            valid_lifetime: u32::from_be_bytes(bytes[4..8].try_into().unwrap()),
            preferred_lifetime: u32::from_be_bytes(bytes[8..12].try_into().unwrap()),
            prefix: bytes[16..32].try_into().unwrap(),
        }
    }

    // What follows type and length in an option, up to the prefix, with reserved bits 0.
    pub(super) fn field_bytes(&self) -> [u8; 14]
        ensures bytes { result ≡ spec.prefix_fields self.now }
        ensures size { length self.now.prefix ≡ 16 }
    {
        let [v0, v1, v2, v3] = self.valid_lifetime.to_be_bytes();
        let [p0, p1, p2, p3] = self.preferred_lifetime.to_be_bytes();
        let flags = flag(self.on_link, 128) + flag(self.autonomous, 64);
        [
            self.prefix_length,
            flags,
            v0,
            v1,
            v2,
            v3,
            p0,
            p1,
            p2,
            p3,
            0,
            0,
            0,
            0,
        ]
    }
}
