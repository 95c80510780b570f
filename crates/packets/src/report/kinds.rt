//! Lengths, checksums, fragments, and what was refused. The functions have no contracts: tests compare the
//! texts.

use crate::report::charts::bar;
use crate::report::page::Page;
use crate::report::protocols::{begin_tallies, counts};
use crate::report::web_page::WebPage;
use crate::summary::offload::Offload;
use crate::summary::share::Share;
use crate::summary::text::ends_of;
use crate::{SIZE_COUNT, Summary, Tally};
use captures::Skipped;
use std::alloc::AllocError;
use std::fmt::Display;
use std::hash::BuildHasher;

/// The section of lengths.
pub(crate) fn lengths<S: BuildHasher>(
    page: &mut Page,
    summary: &Summary<S>,
) -> Result<(), AllocError> {
    page.begin_section("lengths", "Lengths")?;
    page.begin_table(&[
        ("bytes of a frame", false),
        ("packets", true),
        ("share of packets", true),
        ("packets", false),
    ])?;
    let counts = &summary.sizes.counts;
    for digits in 0..SIZE_COUNT {
        let count = counts[digits];
        if count > 0 {
            let (least, greatest) = ends_of(digits as u32);
            page.name(format_args!("{least} to {greatest}"))?;
            page.number(count)?;
            page.number(Share {
                part: count,
                whole: summary.all.packets,
            })?;
            bar(page, count, summary.all.packets)?;
            page.end_row()?;
        }
    }
    page.end_table()?;
    page.end_section()
}

/// The section of checksums.
pub(crate) fn checksums<S: BuildHasher>(
    page: &mut Page,
    summary: &Summary<S>,
) -> Result<(), AllocError> {
    page.begin_section("checksums", "Checksums of messages")?;
    let tallies = &summary.checksums;
    let rows = [
        (&tallies.good, "good"),
        (&tallies.bad, "bad"),
        (&tallies.none, "none"),
    ];
    begin_tallies(page, "checksum")?;
    for (tally, name) in rows {
        row(page, name, tally, &summary.all)?;
    }
    page.end_table()?;
    if let Some(offload) = Offload::of(&summary.senders) {
        page.paragraph(offload)?;
    }
    page.markup(
        "<p class=\"key\">Of whole messages. none: there is no checksum, or none that is verified. Refused packets, fragments that complete nothing, and packets without an IP header are in no row.</p>\n",
    )?;
    page.end_section()
}

/// The section of refused packets and fragments.
pub(crate) fn refused<S: BuildHasher>(
    page: &mut Page,
    report: &WebPage<'_, S>,
) -> Result<(), AllocError> {
    let summary = &report.overview.summary;
    page.begin_section("refused", "Refused packets, and where")?;
    if summary.reasons.is_empty() {
        page.markup("<p>none</p>\n")?;
    } else {
        begin_tallies(page, "refused because")?;
        for index in 0..summary.reasons.len() {
            if let Some((reason, tally)) = summary.reasons.get(index) {
                row(page, *reason, tally, &summary.all)?;
            }
        }
        page.end_table()?;
    }
    page.end_section()?;
    page.begin_section("fragments", "Fragments, and what was left out")?;
    if summary.parts.all.packets > 0 {
        begin_tallies(page, "fragments")?;
        row(page, "all fragments", &summary.parts.all, &summary.all)?;
        row(
            page,
            "completing a message",
            &summary.parts.completing,
            &summary.all,
        )?;
        row(page, "refused", &summary.parts.refused, &summary.all)?;
        page.end_table()?;
    }
    left_out(page, report)?;
    page.end_section()
}

fn left_out<S: BuildHasher>(page: &mut Page, report: &WebPage<'_, S>) -> Result<(), AllocError> {
    let flows = &report.overview.summary.flows;
    let (open, dropped) = (report.open, report.dropped);
    page.paragraph(format_args!("messages open at the end: {open}"))?;
    page.paragraph(format_args!("messages dropped: {dropped}"))?;
    let (refused, without_ip) = (flows.refused.packets, flows.without_ip.packets);
    page.paragraph(format_args!(
        "packets in no conversation: {refused} that are refused, {without_ip} without an IP header"
    ))?;
    if report.skipped == Skipped::NONE {
        return Ok(());
    }
    let skipped = report.skipped;
    page.paragraph(format_args!("passed over: {skipped}"))
}

// A row, if there is such a packet.
fn row<T: Display + Drop>(
    page: &mut Page,
    name: T,
    tally: &Tally,
    all: &Tally,
) -> Result<(), AllocError> {
    let Some(first) = tally.first else {
        return Ok(());
    };
    page.name(name)?;
    counts(page, tally, all)?;
    page.number(first)?;
    bar(page, tally.packets, all.packets)?;
    page.end_row()
}
