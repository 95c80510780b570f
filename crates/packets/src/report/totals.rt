//! Which captures these are, and how much is in them. The functions have no contracts: tests compare the
//! texts.

use crate::report::page::Page;
use crate::report::web_page::WebPage;
use crate::summary::text::a_second;
use header_descriptions::show::seconds::between;
use header_descriptions::show::time::utc_text;
use std::alloc::AllocError;
use std::fmt::Display;
use std::hash::BuildHasher;
use std::str;

/// The names of the files.
pub(crate) fn names(page: &mut Page, names: &[&str]) -> Result<(), AllocError> {
    let mut before = "";
    for name in names {
        page.markup(before)?;
        page.text(match *name {
            "-" => "standard input",
            name => name,
        })?;
        before = ", ";
    }
    Ok(())
}

/// The head of the page, and the numbers of all packets.
pub(crate) fn write<S: BuildHasher>(
    page: &mut Page,
    report: &WebPage<'_, S>,
) -> Result<(), AllocError> {
    page.markup("<h1>Packets: ")?;
    names(page, report.names)?;
    page.markup("</h1>\n<p class=\"key\">Written by <code>packets</code>")?;
    for word in report.words {
        page.markup(" <code>")?;
        page.text(word.as_str())?;
        page.markup("</code>")?;
    }
    page.markup("</p>\n")?;
    if report.failed {
        page.markup(
            "<p>Not all of these files was read, by an error that was reported beside this page: packets after it are not counted.</p>\n",
        )?;
    }
    let summary = &report.overview.summary;
    if summary.all.packets == 0 {
        return page.markup("<p>no packets</p>\n");
    }
    page.markup("<dl id=\"totals\">\n")?;
    figure(page, "packets", summary.all.packets)?;
    figure(page, "bytes on the wire", summary.lengths.wire)?;
    figure(page, "bytes captured", summary.lengths.captured)?;
    figure(page, "cut packets", summary.lengths.cut.packets)?;
    figure(page, "refused packets", summary.refused.packets)?;
    figure(page, "conversations", summary.flows.len())?;
    period(page, report)?;
    page.markup("</dl>\n")
}

fn figure<T: Display + Drop>(
    page: &mut Page,
    name: &'static str,
    value: T,
) -> Result<(), AllocError> {
    page.markup("<div>")?;
    begin_value(page, name)?;
    page.shown(value)?;
    end_figure(page)
}

fn wide_figure<T: Display + Drop>(
    page: &mut Page,
    name: &'static str,
    value: T,
) -> Result<(), AllocError> {
    page.markup("<div class=\"two\">")?;
    begin_value(page, name)?;
    page.shown(value)?;
    end_figure(page)
}

fn begin_value(page: &mut Page, name: &'static str) -> Result<(), AllocError> {
    page.markup("<dt>")?;
    page.markup(name)?;
    page.markup("</dt><dd>")
}

fn end_figure(page: &mut Page) -> Result<(), AllocError> {
    page.markup("</dd></div>\n")
}

// When the earliest and the latest packet came, and what came in a second between them.
fn period<S: BuildHasher>(page: &mut Page, report: &WebPage<'_, S>) -> Result<(), AllocError> {
    let summary = &report.overview.summary;
    let (Some(earliest), Some(latest)) = (summary.period.earliest, summary.period.latest) else {
        return Ok(());
    };
    wide_figure(page, "earliest packet", utc_text(earliest))?;
    wide_figure(page, "latest packet", utc_text(latest))?;
    let seconds = between(earliest, latest);
    page.markup("<div>")?;
    begin_value(page, "seconds between")?;
    page.text(str::from_utf8(&seconds).unwrap_or(""))?;
    end_figure(page)?;
    let nanoseconds = latest.saturating_sub(earliest);
    if nanoseconds == 0 {
        return Ok(());
    }
    let tenths = a_second(u128::from(summary.all.packets) * 10, nanoseconds);
    let (whole, tenth) = (tenths / 10, tenths % 10);
    page.markup("<div>")?;
    begin_value(page, "packets a second")?;
    page.shown(format_args!("{whole}.{tenth}"))?;
    end_figure(page)?;
    let bits = a_second(u128::from(summary.lengths.wire) * 8, nanoseconds);
    figure(page, "bits a second", bits)
}
