//! A summary as text.

use crate::flows::counted_flows::CountedFlows;
use crate::flows::listing::Greatest;
use crate::flows::text::FlowTable;
use crate::summary::bars::{Bar, column, steps_of};
use crate::summary::lengths::Lengths;
use crate::summary::offload::Offload;
use crate::summary::period::Period;
use crate::summary::rate::Rate;
use crate::summary::share::Share;
use crate::summary::sizes::Sizes;
use crate::summary::summary::{ChecksumTallies, ProtocolTallies, Summary};
use crate::summary::table::Table;
use crate::summary::tally::Tally;
use crate::{Protocol, Reason};
use captures::Skipped;
use ep_base::IpNumber;
use header_descriptions::show::seconds::between;
use header_descriptions::show::time::utc_text;
use std::hash::BuildHasher;
use std::{fmt, str};

// The titles of the columns before the last.
const TITLES: &str = "   packets   share           bytes   share     first  ";

// The longest bar has so many columns.
const BAR_COLUMNS: u32 = 32;

/// What is in a capture, counted, as text. It has no contract: tests compare the texts.
#[derive(Drop)]
pub struct SummaryText<'s, S: BuildHasher> {
    /// Its packets, counted.
    pub summary: &'s Summary<S>,
    /// How many datagrams were not complete.
    pub open: usize,
    /// How many were dropped, so that the others take no more than they may.
    pub dropped: u64,
    /// How many packets were passed over.
    pub skipped: Skipped,
}

impl<S: BuildHasher> fmt::Display for SummaryText<'_, S> {
    fn fmt<W: fmt::Write>(&self, f: &mut fmt::Formatter<W>) -> fmt::Result {
        self.write_counts(f)?;
        self.write_skipped(f)
    }
}

impl<S: BuildHasher> SummaryText<'_, S> {
    fn write_counts<W: fmt::Write>(&self, f: &mut fmt::Formatter<W>) -> fmt::Result {
        let summary = self.summary;
        if summary.all.packets == 0 {
            writeln!(f, "no packets")?;
            return self.write_fragments(f);
        }
        write_kinds(f, summary)?;
        self.write_fragments(f)?;
        write_conversations(f, &summary.flows)?;
        write_sizes(f, &summary.sizes, summary.all.packets)?;
        write_period(
            f,
            &summary.period,
            summary.all.packets,
            summary.lengths.wire,
        )?;
        write_rate(f, &summary.rate)
    }

    fn write_fragments<W: fmt::Write>(&self, f: &mut fmt::Formatter<W>) -> fmt::Result {
        let parts = &self.summary.parts;
        let all = &self.summary.all;
        let (open, dropped) = (self.open, self.dropped);
        if parts.all.packets > 0 {
            let rows = [
                (&parts.all, "all fragments"),
                (&parts.completing, "completing a message"),
                (&parts.refused, "refused"),
            ];
            write_title(f, "fragments")?;
            write_rows(f, &rows, all)?;
        } else if open > 0 || dropped > 0 {
            // Reassemblies may be of fragments that the filter doesn't let through.
            writeln!(f)?;
        } else {
            return Ok(());
        }
        writeln!(f, "messages open at the end: {open}")?;
        if dropped > 0 {
            writeln!(f, "messages dropped: {dropped}")?;
        }
        Ok(())
    }

    fn write_skipped<W: fmt::Write>(&self, f: &mut fmt::Formatter<W>) -> fmt::Result {
        if self.skipped == Skipped::NONE {
            return Ok(());
        }
        let skipped = self.skipped;
        writeln!(f, "\npassed over: {skipped}")
    }
}

// The packets by their protocols, by why they are refused, and by their checksums.
fn write_kinds<W: fmt::Write, S: BuildHasher>(
    f: &mut fmt::Formatter<W>,
    summary: &Summary<S>,
) -> fmt::Result {
    let all = summary.all;
    writeln!(f, "{TITLES}protocol")?;
    write_row(f, &all, &all, "all packets")?;
    write_protocols(f, &summary.protocols, &all)?;
    write_lengths(f, &summary.lengths, &all)?;
    if summary.refused.packets > 0 {
        write_title(f, "refused because")?;
        write_reasons(f, &summary.reasons, &all)?;
    }
    write_checksums(f, &summary.checksums, &all)?;
    match Offload::of(&summary.senders) {
        Some(offload) => writeln!(f, "{offload}"),
        None => Ok(()),
    }
}

// The packets that were cut, and how many bytes of all were captured, where not all were.
fn write_lengths<W: fmt::Write>(
    f: &mut fmt::Formatter<W>,
    lengths: &Lengths,
    all: &Tally,
) -> fmt::Result {
    let (wire, captured) = (lengths.wire, lengths.captured);
    if lengths.cut.packets == 0 && wire == captured {
        return Ok(());
    }
    if lengths.cut.packets > 0 {
        write_title(f, "captured in part")?;
        write_row(f, &lengths.cut, all, "cut")?;
    } else {
        writeln!(f)?;
    }
    writeln!(f, "bytes on the wire: {wire}, captured: {captured}")
}

// The verdicts on checksums, if a message was read.
fn write_checksums<W: fmt::Write>(
    f: &mut fmt::Formatter<W>,
    tallies: &ChecksumTallies,
    all: &Tally,
) -> fmt::Result {
    let (good, bad, none) = (&tallies.good, &tallies.bad, &tallies.none);
    if good.packets == 0 && bad.packets == 0 && none.packets == 0 {
        return Ok(());
    }
    write_title(f, "checksum")?;
    write_rows(f, &[(good, "good"), (bad, "bad"), (none, "none")], all)
}

fn write_title<W: fmt::Write>(f: &mut fmt::Formatter<W>, title: &str) -> fmt::Result {
    writeln!(f, "\n{TITLES}{title}")
}

fn write_rows<W: fmt::Write, N: fmt::Display + Copy + Drop>(
    f: &mut fmt::Formatter<W>,
    rows: &[(&Tally, N)],
    all: &Tally,
) -> fmt::Result {
    for (tally, name) in rows {
        write_row(f, tally, all, *name)?;
    }
    Ok(())
}

// A row of a table, if there is such a packet.
fn write_row<W: fmt::Write>(
    f: &mut fmt::Formatter<W>,
    tally: &Tally,
    all: &Tally,
    name: impl fmt::Display + Drop,
) -> fmt::Result {
    let Some(first) = tally.first else {
        return Ok(());
    };
    let packets = tally.packets;
    let bytes = tally.bytes;
    let of_packets = Share {
        part: packets,
        whole: all.packets,
    };
    let of_bytes = Share {
        part: bytes,
        whole: all.bytes,
    };
    writeln!(
        f,
        "{packets:>10} {of_packets} {bytes:>15} {of_bytes} {first:>9}  {name}"
    )
}

fn write_protocols<W: fmt::Write>(
    f: &mut fmt::Formatter<W>,
    tallies: &ProtocolTallies,
    all: &Tally,
) -> fmt::Result {
    let rows = [
        (&tallies.ethernet, Protocol::Ethernet),
        (&tallies.vlan, Protocol::Vlan),
        (&tallies.macsec, Protocol::Macsec),
        (&tallies.arp, Protocol::Arp),
        (&tallies.ipv4, Protocol::Ipv4),
        (&tallies.ipv6, Protocol::Ipv6),
    ];
    write_rows(f, &rows, all)?;
    for number in 0..=u8::MAX {
        let number = IpNumber(number);
        write_row(
            f,
            &tallies.over_ip.get(number),
            all,
            Protocol::OverIp(number),
        )?;
    }
    Ok(())
}

fn write_reasons<W: fmt::Write, S: BuildHasher>(
    f: &mut fmt::Formatter<W>,
    reasons: &Table<Reason, S>,
    all: &Tally,
) -> fmt::Result {
    for index in 0..reasons.len() {
        if let Some((reason, tally)) = reasons.get(index) {
            write_row(f, tally, all, reason)?;
        }
    }
    Ok(())
}

// The greatest conversations, as `packets flows` lists them.
fn write_conversations<W: fmt::Write, S: BuildHasher>(
    f: &mut fmt::Formatter<W>,
    flows: &CountedFlows<S>,
) -> fmt::Result {
    if flows.is_empty() {
        return Ok(());
    }
    let greatest = Greatest::of(flows);
    writeln!(f)?;
    let table = FlowTable {
        flows,
        indices: greatest.indices(),
        skipped: Skipped::NONE,
    };
    table.write_rows(f)
}

fn write_sizes<W: fmt::Write>(
    f: &mut fmt::Formatter<W>,
    sizes: &Sizes,
    packets: u64,
) -> fmt::Result {
    writeln!(f, "\n   packets   share  bytes of a frame")?;
    let most = sizes.counts.iter().copied().max().unwrap_or(0);
    for digits in 0..sizes.counts.len() {
        let count = sizes.counts[digits];
        if count > 0 {
            let share = Share {
                part: count,
                whole: packets,
            };
            let eighths = steps_of(count, most, 8 * BAR_COLUMNS);
            let (least, greatest) = ends_of(digits as u32);
            let bar = Bar { eighths };
            writeln!(f, "{count:>10} {share}  {least:>6} to {greatest:<6} {bar}")?;
        }
    }
    Ok(())
}

/// The least and the greatest number of so many binary digits. It has no contract: tests compare the
/// texts.
pub(crate) fn ends_of(digits: u32) -> (u64, u64) {
    if digits == 0 || digits > 64 {
        return (0, 0);
    }
    let greatest = u64::MAX >> (64 - digits);
    (greatest / 2 + 1, greatest)
}

// When the earliest and the latest packet came, and how many packets and bits of them there were in a
// second on the wire.
fn write_period<W: fmt::Write>(
    f: &mut fmt::Formatter<W>,
    period: &Period,
    packets: u64,
    bytes: u64,
) -> fmt::Result {
    let (Some(earliest), Some(latest)) = (period.earliest, period.latest) else {
        return Ok(());
    };
    let (from, to) = (utc_text(earliest), utc_text(latest));
    let seconds = between(earliest, latest);
    let seconds = str::from_utf8(&seconds).unwrap_or("");
    writeln!(f, "\nearliest packet: {from}")?;
    writeln!(f, "latest packet: {to}, {seconds} s later")?;
    let nanoseconds = latest.saturating_sub(earliest);
    if nanoseconds == 0 {
        return Ok(());
    }
    let tenths = a_second(u128::from(packets) * 10, nanoseconds);
    let bits = a_second(u128::from(bytes) * 8, nanoseconds);
    let (whole, tenth) = (tenths / 10, tenths % 10);
    writeln!(
        f,
        "on average {whole}.{tenth} packets and {bits} bits a second"
    )
}

/// How many there are in a second, rounded, if there are so many in this time. It has no contract: tests
/// compare the texts.
pub(crate) fn a_second(count: u128, nanoseconds: u64) -> u128 {
    let nanoseconds = u128::from(nanoseconds.max(1));
    let billions = count.saturating_mul(1_000_000_000);
    billions.saturating_add(nanoseconds / 2) / nanoseconds
}

fn write_rate<W: fmt::Write>(f: &mut fmt::Formatter<W>, rate: &Rate) -> fmt::Result {
    let most = rate.counts.iter().copied().max().unwrap_or(0);
    if most == 0 {
        return Ok(());
    }
    // Rounded up, so that no span has more.
    let a_second = (u128::from(most) * 1_000_000_000).div_ceil(u128::from(rate.span));
    f.write_str("packets a second, by spans of ")?;
    write_seconds(f, rate.span)?;
    writeln!(f, ": {a_second} at most")?;
    write_columns(f, rate, most)
}

// A column for each span up to the last that has a packet.
fn write_columns<W: fmt::Write>(f: &mut fmt::Formatter<W>, rate: &Rate, most: u64) -> fmt::Result {
    let used = match rate.counts.iter().rposition(|count| *count > 0) {
        Some(last) => last.saturating_add(1),
        None => 0,
    };
    for count in rate.counts.iter().take(used) {
        f.write_str(column(steps_of(*count, most, 8)))?;
    }
    writeln!(f)
}

// A span of time, whose fraction of a second has up to nine digits.
fn write_seconds<W: fmt::Write>(f: &mut fmt::Formatter<W>, nanoseconds: u64) -> fmt::Result {
    let seconds = nanoseconds / 1_000_000_000;
    write!(f, "{seconds}")?;
    let mut rest = nanoseconds % 1_000_000_000;
    if rest > 0 {
        let mut digits = 9usize;
        for _ in 0..9 {
            if rest % 10 == 0 {
                rest /= 10;
                digits = digits.saturating_sub(1);
            }
        }
        write!(f, ".{rest:0digits$}")?;
    }
    f.write_str(" s")
}
