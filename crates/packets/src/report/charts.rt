//! Bars, which only repeat what tables say. The functions have no contracts: tests compare the texts.

use crate::report::page::Page;
use std::alloc::AllocError;

/// A whole has so many units.
pub(crate) const UNITS: u64 = 1000;

/// How many units a part of a whole has: one at least, if it isn't 0.
pub(crate) fn units_of(part: u64, whole: u64) -> u64 {
    if part == 0 {
        return 0;
    }
    let units = u128::from(part) * u128::from(UNITS) / u128::from(whole.max(1));
    (units.min(u128::from(UNITS)) as u64).max(1)
}

/// A cell with a bar, as long as a part of a whole.
pub(crate) fn bar(page: &mut Page, part: u64, whole: u64) -> Result<(), AllocError> {
    page.markup(
        "<td class=\"bar\"><svg viewBox=\"0 0 1000 10\" preserveAspectRatio=\"none\" \
        aria-hidden=\"true\"><rect class=\"rule\" width=\"1000\" height=\"10\"/>\
        <rect class=\"mark\" width=\"",
    )?;
    page.shown(units_of(part, whole))?;
    page.markup("\" height=\"10\"/></svg></td>")
}

/// A cell with two bars from its middle: what goes back to the left, and what goes forth to the right.
pub(crate) fn two_bars(
    page: &mut Page,
    back: u64,
    forth: u64,
    whole: u64,
) -> Result<(), AllocError> {
    let left = units_of(back, whole);
    page.markup(
        "<td class=\"bar\"><svg viewBox=\"0 0 2000 10\" preserveAspectRatio=\"none\" \
        aria-hidden=\"true\"><rect class=\"rule\" width=\"2000\" height=\"10\"/>\
        <rect class=\"back\" x=\"",
    )?;
    page.shown(UNITS.saturating_sub(left))?;
    page.markup("\" width=\"")?;
    page.shown(left)?;
    page.markup("\" height=\"10\"/><rect class=\"mark\" x=\"1000\" width=\"")?;
    page.shown(units_of(forth, whole))?;
    page.markup(
        "\" height=\"10\"/><rect class=\"axis\" x=\"995\" width=\"10\" height=\"10\"/></svg></td>",
    )
}
