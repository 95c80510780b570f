//! Operations of ARP packets: request, reply and others.
ghost use Rattle.std.specs.Prelude.{◌≡◌};

/// What an ARP packet is for (RFC 826). A packet holds it in two bytes, high byte first.
#[derive(Clone, Copy, Debug, Default, PartialEq, Eq, Hash, PartialOrd, Ord)]
pub struct ArpOperation(pub u16);

impl ArpOperation {
    /// A request for the target's hardware address.
    pub const REQUEST: ArpOperation = ArpOperation(1);

    /// A reply that states the sender's hardware address.
    pub const REPLY: ArpOperation = ArpOperation(2);
}

impl From<u16> for ArpOperation {
    ghost from_gives = { λ n operation. operation ≡ record { 0 = n } };

    fn from(n: u16) -> Self {
        ArpOperation(n)
    }
}

impl From<ArpOperation> for u16 {
    ghost from_gives = { λ operation n. n ≡ operation.0 };

    fn from(operation: ArpOperation) -> u16 {
        operation.0
    }
}
