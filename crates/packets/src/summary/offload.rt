//! Bad checksums that a network card's checksum offload explains.

use crate::summary::table::Table;
use crate::summary::verified::Verified;
use std::fmt;
use std::hash::BuildHasher;
use std::net::IpAddr;

/// That a capture was probably taken on the one host whose checksums are bad, if most of them are: a
/// network card fills them in after the host captured its packets.
#[derive(Clone, Copy)]
pub(crate) struct Offload {
    host: IpAddr,
    bad: u64,
    all: u64,
}

impl Offload {
    /// Of these senders. It has no contract, nor has its text: tests compare the texts.
    pub(crate) fn of<S: BuildHasher>(senders: &Table<Verified, S>) -> Option<Offload> {
        let (sender, bad) = only_bad(senders)?;
        let good = senders.tally_at(&sender.with_good_checksum()).packets;
        if bad <= good {
            return None;
        }
        Some(Offload {
            host: sender.source(),
            bad,
            all: bad.saturating_add(good),
        })
    }
}

impl fmt::Display for Offload {
    fn fmt<W: fmt::Write>(&self, f: &mut fmt::Formatter<W>) -> fmt::Result {
        let (host, bad, all) = (self.host, self.bad, self.all);
        write!(
            f,
            "checksums: {bad} of {all} of {host} are bad, and none of others: probably captured on \
            that host before its network card filled them in (--no-checksums)"
        )
    }
}

// The one sender with bad checksums, if there is one and no other, and how many there are.
fn only_bad<S: BuildHasher>(senders: &Table<Verified, S>) -> Option<(Verified, u64)> {
    let mut found = None;
    for index in 0..senders.len() {
        if let Some((sender, tally)) = senders.get(index) {
            if sender.is_bad() {
                if found.is_some() {
                    return None;
                }
                found = Some((*sender, tally.packets));
            }
        }
    }
    found
}
