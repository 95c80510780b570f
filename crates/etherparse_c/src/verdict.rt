//! Verdicts on messages by their checksums.
ghost use Rattle.std.specs.Prelude.{◌≡◌};
ghost use Rattle.etherparse.specs.packet.Class.{sliced_class};
ghost use Rattle.etherparse.specs.packet.Sliced.{sliced_ethernet, sliced_ip, sliced_linux_sll};
ghost use Rattle.etherparse_structs.specs.Verdict.{verdict_in};

use etherparse::SlicedPacket;
use etherparse_structs::verdict_on;

/// The verdict on the message in an Ethernet II frame: 0 no checksum, 1 a right one, 2 a wrong one,
/// 3 no whole message that can be read.
#[unsafe(no_mangle)]
pub extern "C" fn ep_verdict_ethernet(bytes: &[u8]) -> u32
    ensures { result ≡ verdict_in (sliced_class (sliced_ethernet bytes.now)) }
{
    verdict_on(SlicedPacket::from_ethernet(bytes))
}

/// That in a packet of a Linux cooked capture, numbered as by `ep_verdict_ethernet`.
#[unsafe(no_mangle)]
pub extern "C" fn ep_verdict_linux_sll(bytes: &[u8]) -> u32
    ensures { result ≡ verdict_in (sliced_class (sliced_linux_sll bytes.now)) }
{
    verdict_on(SlicedPacket::from_linux_sll(bytes))
}

/// That in an IP packet of either version, numbered as by `ep_verdict_ethernet`.
#[unsafe(no_mangle)]
pub extern "C" fn ep_verdict_ip(bytes: &[u8]) -> u32
    ensures { result ≡ verdict_in (sliced_class (sliced_ip bytes.now)) }
{
    verdict_on(SlicedPacket::from_ip(bytes))
}
