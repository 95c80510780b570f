//! Packets and bytes over time, with the refused ones marked. The functions have no contracts: tests
//! compare the texts.

use crate::report::charts::{UNITS, units_of};
use crate::report::overview::Overview;
use crate::report::page::Page;
use crate::{Rate, SPAN_COUNT};
use header_descriptions::show::seconds::{between, exact};
use header_descriptions::show::time::utc_text;
use std::alloc::AllocError;
use std::hash::BuildHasher;
use std::str;

// A span of a chart is so many units wide, with a gap.
const SPAN_WIDTH: u64 = 10;

const BAR_WIDTH: u64 = 8;

const KEY: &str =
    "<p class=\"key\"><svg viewBox=\"0 0 10 10\" preserveAspectRatio=\"none\" aria-hidden=\"true\"><rect class=\"mark\" width=\"10\" height=\"10\"/></svg> packets that are not refused \
<svg viewBox=\"0 0 10 10\" preserveAspectRatio=\"none\" aria-hidden=\"true\"><rect class=\"under\" width=\"10\" height=\"10\"/><path class=\"hatch\" d=\"M0 10L10 0\"/></svg> refused packets, which break a format or contradict other fragments; \
a triangle is below each span that has some</p>\n";

const PATTERN: &str = "\
<defs><pattern id=\"hatched\" width=\"4\" height=\"40\" patternUnits=\"userSpaceOnUse\"><rect class=\"under\" width=\"4\" height=\"40\"/><path class=\"hatch\" d=\"M0 40L4 0\" vector-effect=\"non-scaling-stroke\"/></pattern></defs>\n";

/// The section.
pub(crate) fn write<S: BuildHasher>(
    page: &mut Page,
    overview: &Overview<S>,
) -> Result<(), AllocError> {
    let packets = &overview.summary.rate;
    let used = used_spans(packets);
    page.begin_section("times", "Over time")?;
    page.markup("<h3>Packets</h3>\n")?;
    highest(page, packets)?;
    chart(page, packets, Some(&overview.refused), used)?;
    page.markup(KEY)?;
    if overview.summary.period.earliest < packets.begin {
        page.markup(
            "<p class=\"key\">Packets with an earlier time than the first one count in the first span.</p>\n",
        )?;
    }
    page.markup("<h3>Bytes on the wire</h3>\n")?;
    highest(page, &overview.bytes)?;
    chart(page, &overview.bytes, None, used)?;
    page.markup("<details open><summary>As a table</summary>\n")?;
    table(page, overview, used)?;
    page.markup("</details>\n")?;
    page.end_section()
}

// How many spans there are up to the last that has a packet.
fn used_spans(rate: &Rate) -> usize {
    match rate.counts.iter().rposition(|count| *count > 0) {
        Some(last) => last.saturating_add(1),
        None => 0,
    }
}

// How much the highest bar stands for.
fn highest(page: &mut Page, rate: &Rate) -> Result<(), AllocError> {
    page.markup("<p class=\"key\">A bar for each span of ")?;
    page.text(str::from_utf8(&exact(rate.span)).unwrap_or(""))?;
    page.markup(" s; the highest has ")?;
    page.shown(rate.counts.iter().copied().max().unwrap_or(0))?;
    page.markup("</p>\n")
}

fn chart(
    page: &mut Page,
    rate: &Rate,
    refused: Option<&Rate>,
    used: usize,
) -> Result<(), AllocError> {
    let most = rate.counts.iter().copied().max().unwrap_or(0);
    page.markup(
        "<svg class=\"chart\" role=\"img\" aria-label=\"a bar for each span of time, whose numbers are in the table below\" preserveAspectRatio=\"none\" viewBox=\"0 0 ",
    )?;
    page.shown((used as u64).saturating_mul(SPAN_WIDTH))?;
    page.markup(" 1000\">\n")?;
    if refused.is_some() {
        page.markup(PATTERN)?;
    }
    for position in 0..SPAN_COUNT {
        if position < used {
            let count = rate.counts[position];
            column(
                page,
                position as u64,
                "<rect class=\"mark\" x=\"",
                units_of(count, most),
            )?;
            if let Some(refused) = refused {
                let height = units_of(refused.counts[position], most);
                column(
                    page,
                    position as u64,
                    "<rect fill=\"url(#hatched)\" x=\"",
                    height,
                )?;
            }
        }
    }
    page.markup("</svg>\n")?;
    if let Some(refused) = refused {
        marks(page, refused, used)?;
    }
    axis(page, rate, used)
}

fn column(
    page: &mut Page,
    position: u64,
    begin: &'static str,
    height: u64,
) -> Result<(), AllocError> {
    if height == 0 {
        return Ok(());
    }
    page.markup(begin)?;
    page.shown(position.saturating_mul(SPAN_WIDTH))?;
    page.markup("\" y=\"")?;
    page.shown(UNITS.saturating_sub(height))?;
    page.markup("\" width=\"")?;
    page.shown(BAR_WIDTH)?;
    page.markup("\" height=\"")?;
    page.shown(height)?;
    page.markup("\"/>\n")
}

// A triangle below each span with a refused packet.
fn marks(page: &mut Page, refused: &Rate, used: usize) -> Result<(), AllocError> {
    page.markup(
        "<svg class=\"marks\" aria-hidden=\"true\" preserveAspectRatio=\"none\" viewBox=\"0 0 ",
    )?;
    page.shown((used as u64).saturating_mul(SPAN_WIDTH))?;
    page.markup(" 10\">")?;
    for position in 0..SPAN_COUNT {
        if position < used && refused.counts[position] > 0 {
            page.markup("<path class=\"warn\" d=\"M")?;
            page.shown(position as u64 * SPAN_WIDTH)?;
            page.markup(" 10h8l-4 -9z\"/>")?;
        }
    }
    page.markup("</svg>\n")
}

// The times at its ends.
fn axis(page: &mut Page, rate: &Rate, used: usize) -> Result<(), AllocError> {
    let begin = rate.begin.unwrap_or(0);
    let end = begin.saturating_add(rate.span.saturating_mul(used as u64));
    page.markup("<div class=\"ends-of-time\"><span>")?;
    page.shown(utc_text(begin))?;
    page.markup("</span><span>")?;
    page.shown(utc_text(end))?;
    page.markup("</span></div>\n")
}

fn table<S: BuildHasher>(
    page: &mut Page,
    overview: &Overview<S>,
    used: usize,
) -> Result<(), AllocError> {
    let rate = &overview.summary.rate;
    page.markup("<p class=\"key\">Spans of ")?;
    page.text(str::from_utf8(&exact(rate.span)).unwrap_or(""))?;
    page.markup(
        " seconds, of which those without packets are left out; seconds are since the first packet.</p>\n",
    )?;
    page.begin_table(&[
        ("from second", true),
        ("packets", true),
        ("refused", true),
        ("bytes on the wire", true),
    ])?;
    for position in 0..SPAN_COUNT {
        if position < used && rate.counts[position] > 0 {
            page.markup("<tr><td class=\"n\">")?;
            seconds(page, 0, rate.span.saturating_mul(position as u64))?;
            page.markup("</td>")?;
            page.number(rate.counts[position])?;
            page.number(overview.refused.counts[position])?;
            page.number(overview.bytes.counts[position])?;
            page.end_row()?;
        }
    }
    page.end_table()
}

fn seconds(page: &mut Page, from: u64, to: u64) -> Result<(), AllocError> {
    let text = between(from, to);
    page.text(str::from_utf8(&text).unwrap_or(""))
}
