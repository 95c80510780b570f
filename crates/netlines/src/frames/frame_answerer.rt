//! Answers to lines by their frames and those of the lines before them.
ghost use Rattle.std.specs.Prelude.{◌≡◌, ◌≤◌, ◌<◌, ◌*◌, ◌+◌, ℕ, List, [], length, take, IfOk, vec_capacity};
ghost use Rattle.etherparse.specs.Outcome.Outcome.{Completed};
ghost use Rattle.etherparse.specs.PoolCalls.{ShowsLists};
ghost use Rattle.etherparse.specs.packet.Class.{IdentificationFits, as_class, class_of, packet_parsed};
ghost use Rattle.etherparse.specs.packet.Class.Class.{Whole};
ghost use Rattle.etherparse.specs.packet.Readable.{ReadMessage, as_read};
ghost use Rattle.etherparse.specs.packet.declared.addresses.Addresses.{Addresses as AddressesValue};
ghost use Rattle.etherparse.specs.packet.declared.class.Class.TheVariants as reported;
ghost use Rattle.etherparse.specs.Counts.{HasSlot};
ghost use Rattle.netlines.specs.Answers.{frame_meaning, message_answer, outcome_answer};
ghost use Rattle.netlines.specs.Arrivals.{lists_after_lines};
ghost use Rattle.line_grammar.specs.Commands.Command.{Forget};
ghost use Rattle.line_grammar.specs.Reads.{Reads};
ghost use Rattle.line_grammar.specs.Request.{as_command, frame_len};
ghost use Rattle.netlines.specs.PoolAnswers.{AnswersClass, AnswersCommand};
ghost use Rattle.netlines.specs.PoolBuffers.{KeepsBuffers, TakesBack};
ghost use Rattle.checksum_verdicts.specs.Verdict.{verdict_of};
ghost use Rattle.line_grammar.specs.declared.hex_digits.TheConstants.{FRAME_CAPACITY};
ghost use Rattle.lines.specs.declared.limits.TheConstants.{ANSWER_CAPACITY};

use crate::frames::answer::{refusal_text, write_message};
use crate::frames::output::append;
use crate::{ANSWER_CAPACITY, Addresses, Answerer, judge, read_message};
use etherparse::defrag::{IpDefragPayloadVec, IpDefragPool};
use etherparse::laws::defrag::reassemblies::{
    a_new_pool_shows_no_lists, memory_errors_are_reported, packets_are_answered,
    spare_buffers_show_nothing,
};
use etherparse::{Class, IpFragment, SlicedPacket, WholeMessage};
use line_grammar::{LineReader, Request};
use std::alloc::{AllocError, Global};
use std::hash::{BuildHasher, BuildHasherDefault, FoldHasher};

const BAD_LINE: &[u8; 8] = b"bad line";

const REFUSED_FRAME: &[u8; 13] = b"refused frame";

/// Answers each line by its frame and by the fragments of the same message in the lines before it,
/// and drops messages where a line says so.
#[derive(Drop)]
pub struct FrameAnswerer<S: BuildHasher = BuildHasherDefault<FoldHasher>> {
    // The reassemblies, each with the number of the line whose fragment was accepted last.
    pool: IpDefragPool<u64, u32, S>,
    // The line that has started.
    reader: LineReader,
}

impl FrameAnswerer<BuildHasherDefault<FoldHasher>> {
    /// [`FrameAnswerer::with_hasher`] with std's state of a fixed seed.
    pub fn new(alloc: Global) -> Result<FrameAnswerer, AllocError>
        ensures pool { IfOk result
            (λ answerer. ShowsLists answerer.pool (lists_after_lines [])) }
        ensures reader { IfOk result (λ answerer. Reads [] answerer.reader) }
    {
        FrameAnswerer::with_hasher(alloc, BuildHasherDefault::new())
    }
}

impl<S: BuildHasher + Drop> FrameAnswerer<S> {
    /// There is no reassembly, and no line has started. The names of messages are hashed by this
    /// state. The buffer for a line's frame is allocated here.
    pub fn with_hasher(alloc: Global, state: S) -> Result<FrameAnswerer<S>, AllocError>
        ensures pool { IfOk result
            (λ answerer. ShowsLists answerer.pool (lists_after_lines [])) }
        ensures reader { IfOk result (λ answerer. Reads [] answerer.reader) }
    {
        a_new_pool_shows_no_lists();
        Ok(FrameAnswerer {
            pool: IpDefragPool::with_hasher(alloc, state),
            reader: LineReader::new(alloc)?,
        })
    }
}

impl<S: BuildHasher> Answerer for FrameAnswerer<S> {
    ghost meaning = { frame_meaning };

    ghost shows = { λ answerer earlier prefix.
        ShowsLists answerer.pool (lists_after_lines earlier) × Reads prefix answerer.reader };

    fn take(&mut self, bytes: &[u8]) {
        self.reader.take(bytes);
    }

    fn end(&mut self, number: u64, out: &mut [u8]) -> Result<usize, AllocError> {
        let end = answer_request(&mut self.pool, self.reader.request(), number, out)?;
        self.reader.restart();
        Ok(append(out, end, b"\n"))
    }
}

// Writes the answer to the request of a line.
fn answer_request<S: BuildHasher>(
    pool: &mut IpDefragPool<u64, u32, S>,
    request: Request<'_>,
    number: u64,
    out: &mut [u8],
) -> Result<usize, AllocError>
    requires frame { frame_len request ≤ FRAME_CAPACITY }
    requires room { ANSWER_CAPACITY ≤ length out.old }
    ensures fits { IfOk result (λ end. end < length out.new) }
    ensures answers { AnswersCommand pool.old pool.new number (as_command request.entry) out.new result }
{
    match request {
        Request::Frame(frame) => answer_frame(pool, frame.bytes, number, frame.channel, out),
        Request::Forget(from) => forget(pool, from, out),
        Request::Bad => Ok(append(out, 0, BAD_LINE)),
    }
}

// Writes the answer to a frame.
fn answer_frame<S: BuildHasher>(
    pool: &mut IpDefragPool<u64, u32, S>,
    frame: &[u8],
    number: u64,
    channel: u32,
    out: &mut [u8],
) -> Result<usize, AllocError>
    requires frame { length frame.now ≤ FRAME_CAPACITY }
    requires room { ANSWER_CAPACITY ≤ length out.old }
    ensures fits { IfOk result (λ end. end < length out.new) }
    ensures answers { AnswersClass pool.old pool.new number
        (class_of frame.now) channel out.new result }
{
    match SlicedPacket::from_ethernet(frame) {
        Ok(packet) => answer_packet(pool, &packet, number, channel, out),
        Err(_) => Ok(append(out, 0, REFUSED_FRAME)),
    }
}

// Writes the answer to a frame that was read as slices.
fn answer_packet<S: BuildHasher>(
    pool: &mut IpDefragPool<u64, u32, S>,
    packet: &SlicedPacket<'_>,
    number: u64,
    channel: u32,
    out: &mut [u8],
) -> Result<usize, AllocError>
    requires short { (addresses : AddressesValue) (n : ℕ) (bytes : List ℕ) (read : ReadMessage)
        → packet_parsed packet.now ≡ Whole addresses n bytes read → length bytes ≤ FRAME_CAPACITY }
    requires room { ANSWER_CAPACITY ≤ length out.old }
    ensures fits { IfOk result (λ end. end < length out.new) }
    ensures answers { AnswersClass pool.old pool.new number
        (packet_parsed packet.now) channel out.new result }
{
    match packet.class() {
        Class::Whole(message) => Ok(write_whole(&message, out)),
        Class::Cut(message) => answer_fragment(pool, message, number, channel, out),
        Class::Other => Ok(append(out, 0, b"other")),
        Class::Refused => Ok(append(out, 0, REFUSED_FRAME)),
    }
}

// Writes the answer to an unfragmented message.
fn write_whole(message: &WholeMessage<'_>, out: &mut [u8]) -> usize
    requires { 2 * length message.now.bytes.now + 20 ≤ length out.old }
    ensures end { result < length out.new }
    ensures bytes { take result out.new ≡ message_answer message.now.ip_number.0
        (verdict_of message.now.addresses (as_read message.now.message)) message.now.bytes.now }
{
    let verdict = judge(&message.addresses, &message.message);
    write_message(message.ip_number.0, verdict, message.bytes, out)
}

// Adds a fragment to the pool, and writes the answer to it.
fn answer_fragment<S: BuildHasher>(
    pool: &mut IpDefragPool<u64, u32, S>,
    message: IpFragment<'_>,
    number: u64,
    channel: u32,
    out: &mut [u8],
) -> Result<usize, AllocError>
    requires fragment { IdentificationFits message.addresses message.identification }
    requires room { ANSWER_CAPACITY ≤ length out.old }
    ensures fits { IfOk result (λ end. end < length out.new) }
    ensures answers { AnswersClass pool.old pool.new number
        (as_class (reported.Cut message.entry)) channel out.new result }
    ensures buffers { IfOk result (λ end. KeepsBuffers pool.old pool.new (take end out.new)) }
{
    packets_are_answered();
    memory_errors_are_reported();
    spare_buffers_show_nothing();
    let addresses = message.addresses;
    match pool.process_fragment(message, number, channel) {
        Ok(Some(payload)) => Ok(answer_completed(pool, &addresses, payload, out)),
        Ok(None) => Ok(append(out, 0, b"wait")),
        Err(error) => match refusal_text(&error) {
            Some(text) => Ok(append(out, 0, text)),
            None => Err(AllocError),
        },
    }
}

// Writes the answer to the fragment that completes a message, and returns the message's buffer to
// the pool, also where the message is refused.
fn answer_completed<S: BuildHasher>(
    pool: &mut IpDefragPool<u64, u32, S>,
    addresses: &Addresses,
    payload: IpDefragPayloadVec,
    out: &mut [u8],
) -> usize
    requires position { HasSlot pool.old }
    requires short { length payload.payload.items ≤ 65535 }
    requires room { ANSWER_CAPACITY ≤ length out.old }
    ensures end { result < length out.new }
    ensures bytes { take result out.new
        ≡ outcome_answer addresses.now payload.ip_number.0 (Completed payload.payload.items) }
    ensures back { TakesBack pool.old pool.new (vec_capacity payload.payload) }
{
    let end = write_completed(addresses, &payload, out);
    // The pool has a slot for it.
    drop(pool.return_buf(payload));
    end
}

// Writes the answer to the fragment that completes a message.
fn write_completed(addresses: &Addresses, payload: &IpDefragPayloadVec, out: &mut [u8]) -> usize
    requires short { length payload.now.payload.items ≤ 65535 }
    requires room { ANSWER_CAPACITY ≤ length out.old }
    ensures end { result < length out.new }
    ensures bytes { take result out.new ≡ outcome_answer addresses.now payload.now.ip_number.0
        (Completed payload.now.payload.items) }
{
    let bytes = payload.payload.as_slice();
    match read_message(payload.ip_number, bytes) {
        Ok(message) => write_message(payload.ip_number.0, judge(addresses, &message), bytes, out),
        Err(_) => append(out, 0, b"refused message"),
    }
}

// Drops the reassemblies whose last accepted fragment came before the line of this number.
fn forget<S: BuildHasher>(
    pool: &mut IpDefragPool<u64, u32, S>,
    from: u64,
    out: &mut [u8],
) -> Result<usize, AllocError>
    requires room { ANSWER_CAPACITY ≤ length out.old }
    ensures fits { IfOk result (λ end. end < length out.new) }
    ensures answers { (number : ℕ)
        → AnswersCommand pool.old pool.new number (Forget from) out.new result }
{
    pool.retain(|line: &u64| *line >= from)?;
    Ok(append(out, 0, b"ok"))
}
