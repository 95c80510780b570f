//! How many bytes the frames of packets had on the wire.
ghost use Rattle.std.specs.Prelude.{◌≡◌};
ghost use Rattle.captures.specs.Framed.{frame_wire_len};

/// How many bytes a frame of `len` had on the wire, where `captured` bytes of its packet were captured
/// and its record says that the packet had `wire_len` bytes on the wire: those that the frame has, and
/// those of the packet that weren't captured. A record that states fewer than were captured is wrong:
/// of its frame the answer is `len`. 4,294,967,295 stands for all greater numbers.
#[inline(always)]
pub fn frame_wire_len(len: usize, captured: usize, wire_len: u32) -> u32
    ensures { result ≡ frame_wire_len len captured wire_len }
{
    let missing = (wire_len as usize).saturating_sub(captured);
    len.saturating_add(missing).min(4_294_967_295) as u32
}
