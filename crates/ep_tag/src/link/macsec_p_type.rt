//! Whether MACsec encrypted or changed a payload.

use ep_base::EtherType;

/// What follows a MACsec header, by its bits E (encrypted) and C (changed text; IEEE 802.1AE,
/// section 9.5).
#[derive(Clone, Copy, Debug, PartialEq, Eq, Hash, PartialOrd, Ord)]
pub enum MacsecPType {
    /// E and C are 0: the payload is as it was given to MACsec, and its ether type ends the
    /// header.
    Unmodified(EtherType),
    /// E is 0 and C is 1: the payload isn't encrypted, and was changed.
    Modified,
    /// E and C are 1: the payload is encrypted.
    Encrypted,
    /// E is 1 and C is 0: the payload is encrypted, though unchanged in length.
    EncryptedUnmodified,
}
