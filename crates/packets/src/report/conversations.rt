//! The greatest conversations. The functions have no contracts: tests compare the texts.

use crate::flows::counted_flows::CountedFlows;
use crate::flows::listing::Greatest;
use crate::flows::row::Row;
use crate::flows::text::Ends;
use crate::report::charts::two_bars;
use crate::report::page::Page;
use header_descriptions::show::seconds::between;
use std::alloc::AllocError;
use std::hash::BuildHasher;
use std::str;

/// The section.
pub(crate) fn write<S: BuildHasher>(
    page: &mut Page,
    flows: &CountedFlows<S>,
) -> Result<(), AllocError> {
    page.begin_section("conversations", "Greatest conversations, by bytes")?;
    if flows.is_empty() {
        page.markup("<p>no conversations</p>\n")?;
        return page.end_section();
    }
    page.begin_table(&[
        ("conversation", false),
        ("packets →", true),
        ("bytes →", true),
        ("← packets", true),
        ("← bytes", true),
        ("seconds", true),
        ("TCP", false),
        ("← bytes →", false),
    ])?;
    let greatest = Greatest::of(flows);
    let most = most_bytes(flows, &greatest);
    for index in greatest.indices() {
        if let Some(row) = flows.row(*index) {
            conversation(page, &row, most)?;
        }
    }
    page.end_table()?;
    let more = flows.len().saturating_sub(greatest.indices().len());
    if more > 0 {
        page.paragraph(format_args!("and {more} more"))?;
    }
    page.markup(
        "<p class=\"key\">→ is the direction of the first packet, from left to right; bytes are those on the wire. Bars have the length of the most bytes in one direction. TCP: S begun, SF begun and ended in both directions, R reset, open all others.</p>\n",
    )?;
    page.end_section()
}

// The most bytes in one direction.
fn most_bytes<S: BuildHasher>(flows: &CountedFlows<S>, greatest: &Greatest) -> u64 {
    let mut most = 0;
    for index in greatest.indices() {
        if let Some(row) = flows.row(*index) {
            most = row.forward.bytes.max(row.backward.bytes).max(most);
        }
    }
    most
}

fn conversation(page: &mut Page, row: &Row, most: u64) -> Result<(), AllocError> {
    page.markup("<tr><th scope=\"row\" class=\"ends\">")?;
    page.shown(Ends {
        conversation: row.conversation,
    })?;
    page.markup("</th>")?;
    page.number(row.forward.packets)?;
    page.number(row.forward.bytes)?;
    page.number(row.backward.packets)?;
    page.number(row.backward.bytes)?;
    let seconds = between(0, row.duration());
    page.number(str::from_utf8(&seconds).unwrap_or(""))?;
    page.markup("<td>")?;
    page.text(match row.tcp_column() {
        Some(column) => column.name(),
        None => "",
    })?;
    page.markup("</td>")?;
    two_bars(page, row.backward.bytes, row.forward.bytes, most)?;
    page.end_row()
}
