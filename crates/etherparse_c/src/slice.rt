//! Packets, sliced.
ghost use Rattle.std.specs.Prelude.{◌≡◌, IfOk};
ghost use Rattle.etherparse.specs.link.Ethernet.{ethernet_len};
ghost use Rattle.etherparse.specs.link.Sll.{sll_len};
ghost use Rattle.etherparse.specs.packet.LaxSliced.{lax_sliced_ethernet, lax_sliced_ip, lax_sliced_linux_sll};
ghost use Rattle.etherparse.specs.packet.Parts.{ArePartsOf};
ghost use Rattle.etherparse.specs.packet.SliceFault.{of_linux_sll};
ghost use Rattle.etherparse.specs.packet.Sliced.{sliced_ethernet, sliced_ip, sliced_linux_sll};
ghost use Rattle.etherparse_structs.specs.LaxPacket.{lax_reported, of_ip_header, of_len};
ghost use Rattle.etherparse_structs.specs.LaxParts.{AreLaxPartsOf};
ghost use Rattle.etherparse_structs.specs.Packet.{reported};

use etherparse::SlicedPacket;
use etherparse_structs::laws::packets::parts_that_are_there;
use etherparse_structs::{
    EpLaxPacket, EpPacket, reported, sliced_lax_ethernet, sliced_lax_ip, sliced_lax_linux_sll,
};

/// Gives the parts of an Ethernet II frame, or why it is refused.
#[unsafe(no_mangle)]
pub extern "C" fn ep_slice_ethernet(bytes: &[u8]) -> EpPacket
    ensures exact { result ≡ reported ethernet_len (sliced_ethernet bytes.now) }
    // Each part is the frame from its offset on.
    ensures parts { IfOk (sliced_ethernet bytes.now)
        (λ packet. ArePartsOf bytes.now ethernet_len packet) }
{
    reported(14, SlicedPacket::from_ethernet(bytes))
}

/// Gives the parts of a packet of a Linux cooked capture, or why it is refused.
#[unsafe(no_mangle)]
pub extern "C" fn ep_slice_linux_sll(bytes: &[u8]) -> EpPacket
    ensures exact { result ≡ reported sll_len (sliced_linux_sll bytes.now) }
    // Each part is the packet from its offset on.
    ensures parts { IfOk (sliced_linux_sll bytes.now)
        (λ packet. ArePartsOf bytes.now sll_len packet) }
{
    reported(16, SlicedPacket::from_linux_sll(bytes))
}

/// Gives the parts of an IP packet of either version, or why it is refused.
#[unsafe(no_mangle)]
pub extern "C" fn ep_slice_ip(bytes: &[u8]) -> EpPacket
    ensures exact { result ≡ reported 0 (sliced_ip bytes.now) }
    // Each part is the packet from its offset on.
    ensures parts { IfOk (sliced_ip bytes.now) (λ packet. ArePartsOf bytes.now 0 packet) }
{
    reported(0, SlicedPacket::from_ip(bytes))
}

/// Gives the parts of an Ethernet II frame as far as they are there, and what stopped the reading.
/// Only a frame shorter than its link header is refused.
#[unsafe(no_mangle)]
pub extern "C" fn ep_slice_ethernet_lax(bytes: &[u8]) -> EpLaxPacket
    ensures exact { result ≡ lax_reported ethernet_len of_len (lax_sliced_ethernet bytes.now) }
    // Each part is the frame from its offset on.
    ensures parts { IfOk (lax_sliced_ethernet bytes.now)
        (λ packet. AreLaxPartsOf bytes.now ethernet_len packet) }
{
    parts_that_are_there();
    sliced_lax_ethernet(bytes)
}

/// Gives the parts of a packet of a Linux cooked capture as far as they are there, and what stopped
/// the reading. Only a packet without a whole link header of a known packet type is refused.
#[unsafe(no_mangle)]
pub extern "C" fn ep_slice_linux_sll_lax(bytes: &[u8]) -> EpLaxPacket
    ensures exact { result ≡ lax_reported sll_len of_linux_sll (lax_sliced_linux_sll bytes.now) }
    // Each part is the packet from its offset on.
    ensures parts { IfOk (lax_sliced_linux_sll bytes.now)
        (λ packet. AreLaxPartsOf bytes.now sll_len packet) }
{
    parts_that_are_there();
    sliced_lax_linux_sll(bytes)
}

/// Gives the parts of an IP packet of either version as far as they are there, and what stopped the
/// reading. Only a packet without a whole IP header of a right version and header length is
/// refused.
#[unsafe(no_mangle)]
pub extern "C" fn ep_slice_ip_lax(bytes: &[u8]) -> EpLaxPacket
    ensures exact { result ≡ lax_reported 0 of_ip_header (lax_sliced_ip bytes.now) }
    // Each part is the packet from its offset on.
    ensures parts { IfOk (lax_sliced_ip bytes.now)
        (λ packet. AreLaxPartsOf bytes.now 0 packet) }
{
    parts_that_are_there();
    sliced_lax_ip(bytes)
}
