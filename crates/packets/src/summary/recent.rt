//! Which keys of tables were counted last.
ghost use Rattle.std.specs.Prelude.{◌<◌};

use crate::{Conversation, Verified};
use ep_packet::Addresses;

/// The keys of a table are spread over so many buckets.
pub(crate) const BUCKET_COUNT: usize = 1024;

// Odd numbers without a pattern in their bits.
const FIRST_FACTOR: u32 = 0x9e37_79b1;

const SECOND_FACTOR: u32 = 0x27d4_eb2f;

/// The index of the key that was counted last: one for reasons, and one a bucket for senders. Most packets have a key that is found there without a hash.
#[derive(Drop)]
pub(crate) struct Recent {
    pub reason: usize,
    pub senders: [usize; BUCKET_COUNT],
}

impl Recent {
    /// Before the first packet.
    pub(crate) fn new() -> Recent {
        Recent {
            reason: 0,
            senders: [0; BUCKET_COUNT],
        }
    }
}

/// The bucket of a conversation. No count depends on which one it is.
pub(crate) fn conversation_bucket(conversation: Option<Conversation>) -> usize
    ensures { result < BUCKET_COUNT }
{
    match conversation {
        Some(conversation) => {
            let ports = match conversation.ports {
                Some(ports) => (u32::from(ports.source) << 16) | u32::from(ports.destination),
                None => 0,
            };
            bucket_of(mixed(mixed_addresses(conversation.addresses), ports))
        }
        None => 0,
    }
}

/// That of a sender.
pub(crate) fn sender_bucket(sender: Option<Verified>) -> usize
    ensures { result < BUCKET_COUNT }
{
    match sender {
        Some(Verified::V4 { source, is_bad }) => bucket_of(mixed(
            u32::from_be_bytes(source),
            is_bad as u32,
        )),
        Some(Verified::V6 { source, is_bad }) => bucket_of(mixed(folded(source), is_bad as u32)),
        None => 0,
    }
}

// The highest ten bits of such a sum depend on all bits of both numbers.
fn bucket_of(mixed: u32) -> usize
    ensures { result < BUCKET_COUNT }
{
    (mixed >> 22) as usize
}

fn mixed_addresses(addresses: Addresses) -> u32 {
    match addresses {
        Addresses::V4 {
            source,
            destination,
        } => mixed(u32::from_be_bytes(source), u32::from_be_bytes(destination)),
        Addresses::V6 {
            source,
            destination,
        } => mixed(folded(source), folded(destination)),
    }
}

// A sum of products.
fn mixed(first: u32, second: u32) -> u32 {
    first
        .wrapping_mul(FIRST_FACTOR)
        .wrapping_add(second.wrapping_mul(SECOND_FACTOR))
}

// The four words of an address, joined.
fn folded(address: [u8; 16]) -> u32 {
    let number = u128::from_be_bytes(address);
    let halves = number ^ (number >> 64);
    ((halves ^ (halves >> 32)) & 0xffff_ffff) as u32
}
