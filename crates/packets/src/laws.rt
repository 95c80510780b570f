//! What `Clone`, `PartialEq` and `Hash` of the types here mean, and what runs drop and count.
ghost use Rattle.std.specs.Prelude.{◌≡◌, ◌⊎◌, ◌≤◌, ◌<◌, ◌+◌, ◌-◌, ◌*◌, ◌^◌, ℕ, true, false, not, is_some, pos, List, [], ◌∷◌};
ghost use Rattle.std.specs.Prelude.{◌++◌, Bool, Option, Some, None, Ok, length};
ghost use Rattle.std.specs.Hash as fed;
ghost use Rattle.captures.specs.declared.link.header.Header.{Header};
ghost use Rattle.captures.specs.declared.link.kind.Link.{Link};
ghost use Rattle.captures.specs.declared.packet.Packet.{Packet};
ghost use Rattle.ep_base.specs.Traits.{CopyIsValue, CopyNeverFails, IsPlainData, VariantFeeds};
ghost use Rattle.etherparse.specs.PoolCalls.{Lists};
ghost use Rattle.etherparse.specs.Fragments.{Fragment};
ghost use Rattle.ep_packet.specs.Class.{FragmentName};
ghost use Rattle.ep_packet.specs.LaxWhole.{whole_packet};
ghost use Rattle.ep_packet.specs.declared.addresses.Addresses.TheVariants as addresses;
ghost use Rattle.ep_packet.specs.declared.sliced_packet.SlicedPacket.{SlicedPacket};
ghost use Rattle.packets.specs.Conditions.{has_vlan_id, ipv4_numbers, ipv6_numbers, lax_has_vlan_id, lax_ipv4_numbers};
ghost use Rattle.packets.specs.Conditions.{lax_ipv6_numbers};
ghost use Rattle.packets.specs.Conversations.{from_lower, turned};
ghost use Rattle.packets.specs.Courses.{Course, course_after, lists_at, next_course, no_course};
ghost use Rattle.packets.specs.LaxLayers.{lax_layers_of};
ghost use Rattle.packets.specs.ReassemblyMemory.{Tracks, taken};
ghost use Rattle.packets.specs.Escaped.{escaped, read_within};
ghost use Rattle.packets.specs.Forgetting.{ComeWithin, Fit, ForgetDrops};
ghost use Rattle.packets.specs.Layers.{layers_of};
ghost use Rattle.packets.specs.Limits.{AreFewer, AreInTime, is_late};
ghost use Rattle.packets.specs.MessageHeaders.{lax_packet_header, packet_header};
ghost use Rattle.packets.specs.Outlines.{headers_of, lax_headers_of};
ghost use Rattle.packets.specs.Tally.{tally_of};
ghost use Rattle.packets.specs.declared.flows.conversation.Conversation.{Conversation};
ghost use Rattle.packets.specs.declared.outline.Outline.{Outline};
ghost use Rattle.packets.specs.declared.reason.Reason.TheVariants as reason;
ghost use Rattle.packets.specs.declared.show.endpoints.Ports.{Ports};
ghost use Rattle.packets.specs.declared.summary.verified.Verified.TheVariants as verified;

pub mod connections;
pub mod examples;

use crate::program::{Coloring, LineRequest, SizeError};
use crate::{
    By, ChecksumTallies, Condition, ConnectionId, Conversation, ConversationCounts,
    DirectionCounts, Ending, Flags, FollowForm, FollowOptions, FragmentState, FragmentTallies,
    GrammarError, Headers, Lengths, Listing, Net, NoProgress, Omitted, Outline, Period, Ports,
    Reason, Row, Segment, ShowOptions, ShownBytes, Side, Sizes, Starts, Tally, TcpColumn, TcpFlag,
    Transfer, Verified, Way, Word, WordError,
};
use ep_base::IpNumber;
use ep_base::err::Layer;
use ep_base::laws::traits::Value;
use ep_packet::Addresses;
use std::hash::Hash;

/// A copy is the value and takes no memory. Equal are the values that are the same.
pub fn types_are_plain_data()
    ensures coloring { IsPlainData ⟦<Coloring as Value>⟧ }
    ensures follow_form { IsPlainData ⟦<FollowForm as Value>⟧ }
    ensures way { IsPlainData ⟦<Way as Value>⟧ }
    ensures side { IsPlainData ⟦<Side as Value>⟧ }
    ensures tcp_flag { IsPlainData ⟦<TcpFlag as Value>⟧ }
    ensures condition { IsPlainData ⟦<Condition as Value>⟧ }
    ensures word { IsPlainData ⟦<Word as Value>⟧ }
    ensures word_error { IsPlainData ⟦<WordError as Value>⟧ }
    ensures grammar_error { IsPlainData ⟦<GrammarError as Value>⟧ }
    ensures size_error { IsPlainData ⟦<SizeError as Value>⟧ }
    ensures net { IsPlainData ⟦<Net as Value>⟧ }
    ensures fragment_state { IsPlainData ⟦<FragmentState as Value>⟧ }
    ensures reason { IsPlainData ⟦<Reason as Value>⟧ }
    ensures no_progress { IsPlainData ⟦<NoProgress as Value>⟧ }
    ensures sizes { IsPlainData ⟦<Sizes as Value>⟧ }
    ensures period { IsPlainData ⟦<Period as Value>⟧ }
    ensures tally { IsPlainData ⟦<Tally as Value>⟧ }
    ensures verified { IsPlainData ⟦<Verified as Value>⟧ }
    ensures ports { IsPlainData ⟦<Ports as Value>⟧ }
    ensures starts { IsPlainData ⟦<Starts as Value>⟧ }
    ensures shown_bytes { IsPlainData ⟦<ShownBytes as Value>⟧ }
    ensures flags { IsPlainData ⟦<Flags as Value>⟧ }
    ensures tcp_column { IsPlainData ⟦<TcpColumn as Value>⟧ }
    ensures by { IsPlainData ⟦<By as Value>⟧ }
{}

/// The same of values that hold some of these.
pub fn holders_are_plain_data()
    ensures show_options { IsPlainData ⟦<ShowOptions as Value>⟧ }
    ensures line_request { IsPlainData ⟦<LineRequest as Value>⟧ }
    ensures headers { IsPlainData ⟦<Headers as Value>⟧ }
    ensures lengths { IsPlainData ⟦<Lengths as Value>⟧ }
    ensures checksums { IsPlainData ⟦<ChecksumTallies as Value>⟧ }
    ensures parts { IsPlainData ⟦<FragmentTallies as Value>⟧ }
    ensures ending { IsPlainData ⟦<Ending as Value>⟧ }
    ensures omitted { IsPlainData ⟦<Omitted as Value>⟧ }
    ensures conversation { IsPlainData ⟦<Conversation as Value>⟧ }
    ensures direction_counts { IsPlainData ⟦<DirectionCounts as Value>⟧ }
    ensures listing { IsPlainData ⟦<Listing as Value>⟧ }
{
    types_are_plain_data();
    captures::laws::types_are_plain_data();
}

/// What is followed is copied by all its fields, without memory.
pub fn follow_options_are_copied()
    ensures id { CopyIsValue ⟦<ConnectionId as Clone>⟧.is_clone }
    ensures id_never_fails { CopyNeverFails ⟦<ConnectionId as Clone>⟧.is_infallible }
    ensures options { CopyIsValue ⟦<FollowOptions as Clone>⟧.is_clone }
    ensures options_never_fail { CopyNeverFails ⟦<FollowOptions as Clone>⟧.is_infallible }
{
    types_are_plain_data();
    holders_are_plain_data();
}

/// The same of outlines of packets.
pub fn outlines_are_plain_data()
    ensures { IsPlainData ⟦<Outline as Value>⟧ }
{
    types_are_plain_data();
    holders_are_plain_data();
    checksum_verdicts::laws::verdicts_are_plain_data();
}

/// The same of what is counted of conversations.
pub fn flows_are_plain_data()
    ensures transfer { IsPlainData ⟦<Transfer as Value>⟧ }
    ensures segment { IsPlainData ⟦<Segment as Value>⟧ }
    ensures conversation_counts { IsPlainData ⟦<ConversationCounts as Value>⟧ }
    ensures row { IsPlainData ⟦<Row as Value>⟧ }
{
    types_are_plain_data();
    holders_are_plain_data();
    outlines_are_plain_data();
}

/// A reason feeds a hasher its index in the declaration, and then the layer that it names.
pub fn reasons_hash_all_fields()
    ensures cut_off { VariantFeeds ⟦<Reason as Hash>⟧.hash_input
        0 reason.CutOff ⟦<Layer as Hash>⟧.hash_input }
    ensures packet_type { ⟦<Reason as Hash>⟧.hash_input reason.CookedPacketType
        ≡ fed.isize (pos 1) }
    ensures memory { ⟦<Reason as Hash>⟧.hash_input reason.FragmentMemory ≡ fed.isize (pos 14) }
{}

/// A sender feeds a hasher the version of its address, as it is declared, then the address with its
/// number of bytes, and then whether the checksum is bad.
pub fn senders_hash_all_fields()
    ensures v4 { (source : List ℕ) (is_bad : Bool) → ⟦<Verified as Hash>⟧.hash_input
        (verified.V4 source is_bad)
        ≡ fed.isize (pos 0) ++ fed.slice fed.u8 source ++ fed.bool is_bad }
    ensures v6 { (source : List ℕ) (is_bad : Bool) → ⟦<Verified as Hash>⟧.hash_input
        (verified.V6 source is_bad)
        ≡ fed.isize (pos 1) ++ fed.slice fed.u8 source ++ fed.bool is_bad }
{}

/// A hasher is fed both addresses of a conversation, each in one write, its ports, if there are any, by
/// their numbers, and its protocol.
pub fn conversations_hash_all_fields()
    ensures v4 { (conversation : Conversation) (source destination : List ℕ) (ports : Ports)
        → conversation.addresses ≡ addresses.V4 source destination → conversation.ports ≡ Some ports
        → ⟦<Conversation as Hash>⟧.hash_input conversation ≡ source ∷ destination
        ∷ (fed.u16 ports.source ++ fed.u16 ports.destination ++ fed.u8 conversation.protocol.0) }
    ensures v6 { (conversation : Conversation) (source destination : List ℕ) (ports : Ports)
        → conversation.addresses ≡ addresses.V6 source destination → conversation.ports ≡ Some ports
        → ⟦<Conversation as Hash>⟧.hash_input conversation ≡ source ∷ destination
        ∷ (fed.u16 ports.source ++ fed.u16 ports.destination ++ fed.u8 conversation.protocol.0) }
    ensures without_ports { (conversation : Conversation) (source destination : List ℕ)
        → conversation.addresses ≡ addresses.V6 source destination → conversation.ports ≡ None
        → ⟦<Conversation as Hash>⟧.hash_input conversation
        ≡ source ∷ destination ∷ fed.u8 conversation.protocol.0 }
    ensures ports { (ports : Ports) → ⟦<Ports as Hash>⟧.hash_input ports
        ≡ fed.u16 ports.source ++ fed.u16 ports.destination }
{}

/// While each packet comes less than so many seconds after the last fragment of a datagram that was
/// accepted, and nothing is dropped to save memory, its fragments wait as if nothing were dropped.
pub fn forget_keeps()
    ensures { (seconds channel : ℕ) (name : FragmentName) (course : Course) (packets : List Packet)
        → 0 < seconds → Fit (Some seconds) course packets → Fit None course packets
        → ComeWithin seconds name channel course packets
        → (course_after (Some seconds) course packets).lists name channel
        ≡ (course_after None course packets).lists name channel }
{}

/// Let the current span have started when the last fragment of a datagram that was accepted came, or
/// before. Its reassembly is dropped once a packet has come `seconds` or more after the fragment,
/// and then another packet `seconds` or more after all packets up to that one.
pub fn forget_drops()
    ensures { ForgetDrops }
{
    captures::laws::spans::spans_drop();
}

/// With a packet by which a span has passed, a reassembly is dropped of which no fragment was
/// accepted since the span began.
pub fn span_drops()
    ensures { (seconds begin time channel : ℕ) (lists : Lists) (name : FragmentName)
        → (lists name channel).time < begin → begin + 1_000_000_000 * seconds ≤ time
        → (lists_at (Some seconds) (Some begin) time lists name channel).fragments ≡ [] }
{}

/// When the span began that lasts after packets at 100, 105, 110, 119, 90 and 121 seconds, with
/// spans of ten seconds, and what is dropped by the one at 110 seconds.
pub fn worked_spans()
    ensures first { (packet : ℕ → Packet) (memory : ℕ)
        → ((second : ℕ) → (packet second).time ≡ 1_000_000_000 * second)
        → (course_after (Some 10) (no_course memory) (packet 100 ∷ packet 105 ∷ [])).begin
        ≡ Some 100_000_000_000 }
    ensures second { (packet : ℕ → Packet) (memory : ℕ)
        → ((second : ℕ) → (packet second).time ≡ 1_000_000_000 * second)
        → (course_after (Some 10) (no_course memory) (packet 100 ∷ packet 105 ∷ packet 110 ∷ packet 119
        ∷ packet 90 ∷ [])).begin ≡ Some 110_000_000_000 }
    ensures third { (packet : ℕ → Packet) (memory : ℕ)
        → ((second : ℕ) → (packet second).time ≡ 1_000_000_000 * second)
        → (course_after (Some 10) (no_course memory) (packet 100 ∷ packet 105 ∷ packet 110 ∷ packet 119
        ∷ packet 90 ∷ packet 121 ∷ [])).begin ≡ Some 121_000_000_000 }
    ensures dropped { (fs : List Fragment) (name : FragmentName)
        → (lists_at (Some 10) (Some 100_000_000_000) 110_000_000_000
        (λ name channel. record { fragments = fs; time = 99_999_999_999 }) name 0).fragments ≡ [] }
    ensures kept { (fs : List Fragment) (name : FragmentName)
        → (lists_at (Some 10) (Some 100_000_000_000) 110_000_000_000
        (λ name channel. record { fragments = fs; time = 100_000_000_000 }) name 0).fragments
        ≡ fs }
    ensures early { (fs : List Fragment) (name : FragmentName)
        → (lists_at (Some 10) (Some 100_000_000_000) 109_999_999_999
        (λ name channel. record { fragments = fs; time = 0 }) name 0).fragments ≡ fs }
{}

/// Which packets come too late after one at 100 seconds, and which are fewer than a limit.
pub fn worked_limits()
    ensures late { is_late (Some 2) (Some 100_000_000_000) 102_000_000_000 ≡ true }
    ensures early { is_late (Some 2) (Some 100_000_000_000) 101_999_999_999 ≡ false }
    ensures before { is_late (Some 2) (Some 100_000_000_000) 97_000_000_000 ≡ false }
    ensures in_time { (packet : ℕ → Packet)
        → ((second : ℕ) → (packet second).time ≡ 1_000_000_000 * second)
        → AreInTime (Some 3) (packet 100 ∷ packet 97 ∷ packet 102 ∷ []) }
    ensures not_in_time { (packet : ℕ → Packet)
        → ((second : ℕ) → (packet second).time ≡ 1_000_000_000 * second)
        → AreInTime (Some 2) (packet 100 ∷ packet 97 ∷ packet 102 ∷ []) → ⊥ }
    ensures fewer { (packet : ℕ → Packet) → AreFewer (Some 3) (packet 1 ∷ packet 2 ∷ []) }
    ensures not_fewer { (packet : ℕ → Packet)
        → AreFewer (Some 2) (packet 1 ∷ packet 2 ∷ []) → ⊥ }
{}

/// After each packet the datagrams that are not complete take no more bytes than they may: these are
/// those in the order, each once. Where they may take none, no fragment waits, so that no datagram
/// is put together of more than one.
pub fn held_within()
    ensures bounded { (forget : Option ℕ) (course : Course) (packet : Packet)
        → taken (next_course forget course packet).lists (next_course forget course packet).order
        ≤ course.memory }
    ensures tracked { (forget : Option ℕ) (memory : ℕ) (packets : List Packet)
        → Tracks (course_after forget (no_course memory) packets).lists
        (course_after forget (no_course memory) packets).order }
    ensures nothing { (forget : Option ℕ) (packets : List Packet) (name : FragmentName) (channel : ℕ)
        → ((course_after forget (no_course 0) packets).lists name channel).fragments ≡ [] }
{
    etherparse::laws::defrag::names::equal_names::<u32>();
}

/// A packet has the headers, the addresses, the ports, the flags and the VLANs of the headers that are
/// there. Of one that isn't refused all are, with what they hold.
pub fn headers_are_lax_headers()
    ensures headers { (link : Link) (header : Option Header) (bytes : List ℕ)
        → headers_of link (layers_of header bytes) (lax_layers_of header bytes)
        ≡ lax_headers_of link (lax_layers_of header bytes) }
    ensures ipv4 { (header : Option Header) (bytes : List ℕ)
        → ipv4_numbers (layers_of header bytes) (lax_layers_of header bytes)
        ≡ lax_ipv4_numbers (lax_layers_of header bytes) }
    ensures ipv6 { (header : Option Header) (bytes : List ℕ)
        → ipv6_numbers (layers_of header bytes) (lax_layers_of header bytes)
        ≡ lax_ipv6_numbers (lax_layers_of header bytes) }
    ensures message { (header : Option Header) (bytes : List ℕ)
        → packet_header (layers_of header bytes) (lax_layers_of header bytes)
        ≡ lax_packet_header (lax_layers_of header bytes) }
    ensures vlans { (header : Option Header) (bytes : List ℕ) (first last : ℕ)
        → has_vlan_id (layers_of header bytes) (lax_layers_of header bytes) first last
        ≡ lax_has_vlan_id (lax_layers_of header bytes) first last }
    ensures whole { (header : Option Header) (bytes : List ℕ) (packet : SlicedPacket)
        → layers_of header bytes ≡ Ok packet → lax_layers_of header bytes ≡ Some (whole_packet packet) }
{
    ep_packet::laws::whole_packets_are_lax_packets();
}

/// Packets that are refused and the others are all packets, in number and bytes, where neither
/// stops at the greatest count.
pub fn refused_and_others_are_all()
    ensures packets { (packets : List Outline)
        → (tally_of (λ packet. true) packets).packets < 2 ^ 64 - 1
        → (tally_of (λ packet. true) packets).packets
        ≡ (tally_of (λ packet. is_some packet.refusal) packets).packets
        + (tally_of (λ packet. not (is_some packet.refusal)) packets).packets }
    ensures bytes { (packets : List Outline)
        → (tally_of (λ packet. true) packets).bytes < 2 ^ 64 - 1
        → (tally_of (λ packet. true) packets).bytes
        ≡ (tally_of (λ packet. is_some packet.refusal) packets).bytes
        + (tally_of (λ packet. not (is_some packet.refusal)) packets).bytes }
{}

/// Both directions are of one conversation, and no others are.
pub fn conversations_have_two_directions()
    ensures turned { (conversation : Conversation)
        → from_lower (turned conversation) ≡ from_lower conversation }
    ensures alone { (one other : Conversation) → from_lower one ≡ from_lower other
        → (one ≡ other) ⊎ (one ≡ turned other) }
{}

/// In a page no text is taken for markup, and a browser reads each without a byte 0 as it was: it reads as
/// many characters as the text has bytes, none of which means something.
pub fn escaped_texts_are_read()
    ensures { (text : List ℕ) → read_within (length text) (escaped text) ≡ text }
{}
