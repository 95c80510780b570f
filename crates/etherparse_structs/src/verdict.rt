//! Verdicts on messages by their checksums.
ghost use Rattle.std.specs.Prelude.{◌≡◌};
ghost use Rattle.etherparse.specs.packet.Class.{sliced_class};
ghost use Rattle.etherparse_structs.specs.Verdict.{verdict_in, verdict_number};

use checksum_verdicts::{Verdict, judge};
use etherparse::err::packet::SliceError;
use etherparse::{Class, SlicedPacket};

/// The verdict on the message in a packet that bytes were sliced into: 0 no checksum, 1 a right
/// one, 2 a wrong one, 3 no whole message that can be read.
pub fn verdict_on(sliced: Result<SlicedPacket<'_>, SliceError>) -> u32
    ensures { result ≡ verdict_in (sliced_class sliced.entry) }
{
    let Ok(packet) = sliced else {
        return 3;
    };
    match packet.class() {
        Class::Whole(message) => verdict_number(judge(&message.addresses, &message.message)),
        _ => 3,
    }
}

fn verdict_number(verdict: Verdict) -> u32
    ensures { result ≡ verdict_number verdict }
{
    match verdict {
        Verdict::None => 0,
        Verdict::Good => 1,
        Verdict::Bad => 2,
    }
}
