//! The whole page.

use crate::report::overview::Overview;
use crate::report::page::Page;
use crate::report::{conversations, kinds, protocols, times, totals};
use captures::Skipped;
use std::alloc::{AllocError, Global};
use std::hash::BuildHasher;

const HEAD: &str = "\
<!doctype html>
<html lang=\"en\">
<head>
<meta charset=\"utf-8\">
<meta name=\"viewport\" content=\"width=device-width, initial-scale=1\">
<meta name=\"color-scheme\" content=\"light dark\">
<title>";

const STYLE: &str = "\
</title>
<style>
:root { --ink: #1b1f24; --soft: #57606a; --line: #d0d7de; --page: #fff; --mark: #1f5fa8; --back: #8a5a00; --warn: #a40e26; --rule: #eef1f4 }
@media (prefers-color-scheme: dark) {
  :root { --ink: #e6edf3; --soft: #9aa4ae; --line: #3a424b; --page: #0f1318; --mark: #6cb0ff; --back: #e0a63a; --warn: #ff8a8a; --rule: #1c232b }
}
* { box-sizing: border-box }
body { margin: 0; background: var(--page); color: var(--ink); font: 15px/1.5 system-ui, sans-serif }
main { max-width: 1080px; margin: 0 auto; padding: 1rem 1rem 3rem }
h1 { font-size: 1.5rem; margin: .5rem 0; overflow-wrap: anywhere }
h2 { font-size: 1.15rem; margin: 2rem 0 .5rem; border-bottom: 1px solid var(--line); padding-bottom: .25rem }
h2, h3 { break-after: avoid }
p { margin: .5rem 0; overflow-wrap: anywhere }
ul.files { margin: .25rem 0; padding-left: 1.2rem }
dl { display: grid; grid-template-columns: repeat(auto-fit, minmax(8.5rem, 1fr)); gap: .75rem; margin: 1rem 0 }
dl div { border: 1px solid var(--line); border-radius: 6px; padding: .5rem .75rem }
dl div.two { grid-column: span 2 }
dt { color: var(--soft); font-size: .85rem }
dd { margin: 0; font-size: 1.1rem; font-variant-numeric: tabular-nums; overflow-wrap: anywhere }
dl .two dd { font-size: 1rem; white-space: nowrap }
.wide { overflow-x: auto }
table { border-collapse: collapse; width: 100%; font-variant-numeric: tabular-nums }
th, td { padding: .25rem .6rem; text-align: left; border-bottom: 1px solid var(--line); vertical-align: middle }
thead th { color: var(--soft); font-weight: 600; font-size: .85rem; white-space: nowrap }
tbody th { font-weight: 500 }
.n { text-align: right; white-space: nowrap }
.ends { overflow-wrap: anywhere; min-width: 15rem }
.bar { min-width: 7rem; width: 22% }
.bar svg { display: block; width: 100%; height: .8rem }
.in1 { padding-left: 1.8rem } .in2 { padding-left: 3rem }
.chart { display: block; width: 100%; height: 9rem; border-bottom: 1px solid var(--ink) }
.marks { display: block; width: 100%; height: .9rem }
.ends-of-time { display: flex; justify-content: space-between; color: var(--soft); font-size: .85rem; gap: 1rem }
.key { color: var(--soft); font-size: .9rem }
.key svg { width: 1.1rem; height: .8rem; vertical-align: -.05rem; border: 1px solid var(--ink) }
rect.mark { fill: var(--mark) } rect.back { fill: var(--back) } rect.rule { fill: var(--rule) } rect.axis { fill: var(--ink) }
.hatch { stroke: var(--warn); stroke-width: 3 } .under { fill: var(--page) }
path.warn { fill: var(--warn) }
summary { cursor: pointer; color: var(--soft) }
code { font-family: ui-monospace, monospace; background: var(--rule); padding: 0 .25rem; border-radius: 3px }
footer { margin-top: 3rem; color: var(--soft); font-size: .85rem }
@media (max-width: 560px) {
  body { font-size: 14px } main { padding: .5rem .6rem 2rem } th, td { padding: .25rem .35rem }
  thead th, thead th.n { white-space: normal } h3 { font-size: 1rem } .ends { min-width: 11rem } .ends-of-time span + span { text-align: right } .bar { min-width: 4rem } .in1 { padding-left: .9rem } .in2 { padding-left: 1.5rem }
}
@media print {
  :root { --ink: #000; --soft: #333; --line: #999; --page: #fff; --mark: #444; --back: #999; --warn: #000; --rule: #ddd }
  main { max-width: none; padding: 0 } tr, svg, dl div { break-inside: avoid } .wide { overflow: visible }
  .ends, .bar { min-width: 0 } thead th, thead th.n { white-space: normal } th, td { padding: .2rem .35rem } body { font-size: 12px }
  rect { -webkit-print-color-adjust: exact; print-color-adjust: exact }
}
</style>
</head>
<body>
<main>
";

/// A report on captures, as a page of HTML that loads nothing. All texts in it are escaped
/// ([`append_escaped`](crate::append_escaped)).
#[derive(Drop)]
pub struct WebPage<'s, S: BuildHasher> {
    /// What was counted.
    pub overview: &'s Overview<S>,
    /// The names of the files.
    pub names: &'s [&'s str],
    /// The words of the command after its name.
    pub words: &'s [String],
    /// Whether a file wasn't read to its end.
    pub failed: bool,
    /// How many datagrams were not complete.
    pub open: usize,
    /// How many were dropped, so that the others take no more than they may.
    pub dropped: u64,
    /// How many packets were passed over.
    pub skipped: Skipped,
}

impl<S: BuildHasher> WebPage<'_, S> {
    /// The bytes of the page. It has no contract: tests compare the texts.
    pub(crate) fn write(&self, alloc: Global) -> Result<Page, AllocError> {
        let mut page = Page::new(alloc);
        page.markup(HEAD)?;
        page.markup("Packets: ")?;
        totals::names(&mut page, self.names)?;
        page.markup(STYLE)?;
        totals::write(&mut page, self)?;
        if self.overview.summary.all.packets > 0 {
            times::write(&mut page, self.overview)?;
            protocols::write(&mut page, &self.overview.summary)?;
            conversations::write(&mut page, &self.overview.summary.flows)?;
            kinds::lengths(&mut page, &self.overview.summary)?;
            kinds::checksums(&mut page, &self.overview.summary)?;
        }
        kinds::refused(&mut page, self)?;
        page.markup(
            "<footer>Bars only repeat what the tables say. Bytes on the wire are those that the capture states, with the headers of its link. Bytes of protocols, checksums, refusals and fragments, and lengths, are those of frames as they are read: what was captured, with an Ethernet header of 14 bytes in place of that of another link. So both differ where a capture isn't of Ethernet, or was cut.</footer>\n</main>\n</body>\n</html>\n",
        )?;
        Ok(page)
    }
}
