//! TCP streams, keys of connections and their states.
ghost use Rattle.std.specs.Prelude.{◌≡◌, ◌<◌, ◌⊎◌, true, false, None};
ghost use Rattle.etherparse.specs.packet.Sliced.{sliced_ethernet, sliced_ip, sliced_linux_sll};
ghost use Rattle.etherparse_structs.specs.Connection.{state_struct_after};
ghost use Rattle.etherparse_structs.specs.PacketKey.{packet_key_in};
ghost use Rattle.etherparse_structs.specs.Stream.{HasSegments, IsProgress, IsRead, IsSegmentAnswered, IsStream};
ghost use Rattle.etherparse_structs.specs.Stream.{Stream, new_stream, segment_with};
ghost use Rattle.etherparse_structs.specs.StreamAdded.{no_progress, segment_status};

use etherparse::SlicedPacket;
use etherparse_structs::{
    EpConnectionState, EpPacketKey, EpSegmentFlags, EpStream, EpStreamAdded, EpStreamProgress,
    key_of_packet,
};
use std::alloc::Global;

/// Opens a stream without segments, one direction of a TCP connection, with a window of so many
/// bytes: it holds no more than these.
///
/// The result is 0 where it is open, 2 where there is no memory, and 4 where it was open before.
/// Where it isn't 0 nothing is changed.
#[unsafe(no_mangle)]
pub extern "C" fn ep_stream_new(alloc: Global, stream: &mut EpStream, window: usize) -> u32
    requires { IsStream stream.old }
    ensures stream { IsStream stream.new }
    ensures opened { result ≡ 0 → HasSegments stream.new (new_stream window) }
    ensures unchanged { 0 < result → stream.new ≡ stream.old }
    ensures wrong_state { stream.old.is_open ≡ true → result ≡ 4 }
    ensures codes { stream.old.is_open ≡ false → (result ≡ 0) ⊎ (result ≡ 2) }
{
    stream.begin(alloc, window)
}

/// Takes a segment, in any order: the bytes of its payload for which none is held yet, and its
/// flags. The first byte that came for a position stays; where another one comes, the position
/// counts as a conflict.
///
/// The status is 0 where it is accepted, 2 where there is no memory for it, 3 where it is refused,
/// and 4 where the stream isn't open. Where it isn't 0 nothing is changed. The refusals are tested in
/// the order of their numbers.
#[unsafe(no_mangle)]
pub extern "C" fn ep_stream_add(
    alloc: Global,
    stream: &mut EpStream,
    sequence_number: u32,
    flags: &EpSegmentFlags,
    payload: &[u8],
) -> EpStreamAdded
    requires { IsStream stream.old }
    ensures stream { IsStream stream.new }
    ensures answered { (s : Stream) → HasSegments stream.old s → IsSegmentAnswered (HasSegments stream.new) s
        (segment_with sequence_number flags.now payload.now) result }
    ensures closed { stream.old.is_open ≡ false
        → (stream.new ≡ stream.old) × (result ≡ segment_status 4) }
{
    stream.add(alloc, sequence_number, flags, payload)
}

/// Writes the next bytes of a stream to the start of the output, and takes them away: all that are
/// available, or as many as the output has. The result is how many, 0 where the stream isn't open.
#[unsafe(no_mangle)]
pub extern "C" fn ep_stream_read(alloc: Global, stream: &mut EpStream, output: &mut [u8]) -> usize
    requires { IsStream stream.old }
    ensures stream { IsStream stream.new }
    ensures read { (s : Stream) → HasSegments stream.old s
        → IsRead (HasSegments stream.new) s output.old output.new result }
    ensures closed { stream.old.is_open ≡ false
        → (stream.new ≡ stream.old) × (result ≡ 0) × (output.new ≡ output.old) }
{
    stream.read(alloc, output)
}

/// How far a stream came. All fields are 0 where it isn't open.
#[unsafe(no_mangle)]
pub extern "C" fn ep_stream_progress_of(alloc: Global, stream: &mut EpStream) -> EpStreamProgress
    requires { IsStream stream.old }
    ensures stream { IsStream stream.new }
    ensures progress { (s : Stream) → HasSegments stream.old s
        → HasSegments stream.new s × IsProgress s result }
    ensures closed { stream.old.is_open ≡ false
        → (stream.new ≡ stream.old) × (result ≡ no_progress) }
{
    stream.progress(alloc)
}

/// Frees a stream and all that it holds. One that isn't open stays as it is.
#[unsafe(no_mangle)]
pub extern "C" fn ep_stream_free(alloc: Global, stream: &mut EpStream)
    requires { IsStream stream.old }
    ensures closed { stream.new.is_open ≡ false }
    ensures freed { stream.old.is_open ≡ true → stream.new.held.value ≡ None }
    ensures unchanged { stream.old.is_open ≡ false → stream.new ≡ stream.old }
{
    stream.free(alloc);
}

/// The key of the TCP connection to which an Ethernet II frame belongs, which came on this channel,
/// and the frame's direction. The destination is that in the IP header.
#[unsafe(no_mangle)]
pub extern "C" fn ep_flow_key_ethernet(frame: &[u8], channel: u32) -> EpPacketKey
    ensures { result ≡ packet_key_in (sliced_ethernet frame.now) channel }
{
    key_of_packet(SlicedPacket::from_ethernet(frame), channel)
}

/// That of a packet of a Linux cooked capture.
#[unsafe(no_mangle)]
pub extern "C" fn ep_flow_key_linux_sll(packet: &[u8], channel: u32) -> EpPacketKey
    ensures { result ≡ packet_key_in (sliced_linux_sll packet.now) channel }
{
    key_of_packet(SlicedPacket::from_linux_sll(packet), channel)
}

/// That of an IP packet of either version.
#[unsafe(no_mangle)]
pub extern "C" fn ep_flow_key_ip(packet: &[u8], channel: u32) -> EpPacketKey
    ensures { result ≡ packet_key_in (sliced_ip packet.now) channel }
{
    key_of_packet(SlicedPacket::from_ip(packet), channel)
}

/// How far a connection came after one more segment, which has these flags and goes in this
/// direction: 2 from the higher endpoint, any other number from the lower one.
#[unsafe(no_mangle)]
pub extern "C" fn ep_connection_state_after(
    state: &EpConnectionState,
    direction: u32,
    flags: &EpSegmentFlags,
) -> EpConnectionState
    ensures { result ≡ state_struct_after state.now direction flags.now }
{
    state.after(direction, flags)
}
