//! How the checksum of a packet's message is verified.
ghost use Rattle.std.specs.Prelude.{◌≡◌, Some};
ghost use Rattle.ep_packet.specs.Readable.{as_read};
ghost use Rattle.packets.specs.Dissected.{verdict_by, verification_of, verification_over};

use crate::source_route::summed_addresses;
use checksum_verdicts::{Verdict, judge};
use ep_packet::err::packet::SliceError;
use ep_packet::{Addresses, Message, SlicedPacket};

/// How the checksum of a packet's message is verified.
#[derive(Clone, Copy)]
pub(crate) enum Verification {
    /// With a pseudo header of these addresses.
    Over(Addresses),
    /// Without a pseudo header, since the final destination isn't known.
    WithoutAddresses,
    /// Not at all.
    Off,
}

impl Verification {
    /// By the headers of a packet, if checksums are verified.
    pub(crate) fn of(checksums: bool, layers: &Result<SlicedPacket<'_>, SliceError>) -> Verification
        ensures { result ≡ verification_of checksums layers.now }
    {
        if !checksums {
            return Verification::Off;
        }
        match layers {
            Ok(packet) => Verification::over(summed_addresses(&packet.net)),
            Err(_) => Verification::WithoutAddresses,
        }
    }

    fn over(addresses: Option<Addresses>) -> Verification
        ensures { result ≡ verification_over addresses }
    {
        match addresses {
            Some(addresses) => Verification::Over(addresses),
            None => Verification::WithoutAddresses,
        }
    }

    /// The verdict on the checksum of a message between these addresses in the IP header, if it is
    /// verified. Where the final destination isn't known, only ICMP over IPv4 has one that isn't
    /// [`Verdict::None`]: it has no pseudo header.
    pub(crate) fn judge(&self, header: &Addresses, message: &Message<'_>) -> Option<Verdict>
        ensures { result ≡ verdict_by self.now header.now (as_read message.now) }
    {
        match (self, message) {
            (Verification::Over(addresses), _) => Some(judge(addresses, message)),
            (Verification::WithoutAddresses, Message::Icmpv4(_)) => Some(judge(header, message)),
            (Verification::WithoutAddresses, _) => Some(Verdict::None),
            (Verification::Off, _) => None,
        }
    }
}
