//! Reports as pages.

use crate::captured::captured;
use crate::checks::{equal, fail, holds, is_text};
use crate::frames::FRAMES;
use crate::outcomes::every_packet;
use captures::{RunError, Skipped};
use fault_devices::UnflushableWriter;
use packets::program::write_page;
use packets::{NoProgress, Overview, Summary, WebPage, append_escaped, count_overview};
use std::alloc::Global;
use std::hash::{BuildHasherDefault, FoldHasher};
use std::io::Write;
use std::process::Abort;
use std::str;

type Counted = Overview<BuildHasherDefault<FoldHasher>>;

fn counted(rt: impl Abort + Copy, alloc: Global) -> Counted {
    let capture = captured(rt, alloc, 1, FRAMES);
    let mut overview = Overview::new(Summary::new(alloc));
    let ending = count_overview(
        alloc,
        BuildHasherDefault::<FoldHasher>::new(),
        &every_packet(alloc),
        &mut overview,
        capture.as_slice(),
        &mut NoProgress,
    );
    equal(rt, (ending.open, ending.result), (1, Ok(())));
    overview
}

// The frames are 1.5 ms apart, and each span has 1/512 second. The first comes in the first span, and the
// seventh, the first that is refused, after 9 ms.
#[test]
fn spans_of_an_overview(rt: HostRuntime) {
    let overview = counted(rt, rt.alloc());
    equal(
        rt,
        overview.summary.rate.counts.get(..3),
        Some([2u64, 1, 1].as_slice()),
    );
    equal(
        rt,
        overview.bytes.counts.get(..3),
        Some([100u64, 42, 74].as_slice()),
    );
    equal(
        rt,
        overview.refused.counts.get(3..6),
        Some([0u64, 1, 1].as_slice()),
    );
}

// A page with this name of a file.
fn written<W: Write>(
    rt: impl Abort + Copy,
    alloc: Global,
    name: &str,
    writer: &mut W,
) -> Result<(), RunError> {
    let overview = counted(rt, alloc);
    let names = [name];
    let page = WebPage {
        overview: &overview,
        names: names.as_slice(),
        words: &[],
        failed: false,
        open: 1,
        dropped: 0,
        skipped: Skipped::NONE,
    };
    write_page(alloc, &page, writer)
}

#[test]
fn names_in_a_page(rt: HostRuntime) {
    let mut text = Vec::new(rt.alloc());
    let written = written(rt, rt.alloc(), "<script>'&\"", &mut text);
    equal(rt, written, Ok(()));
    let Ok(text) = str::from_utf8(text.as_slice()) else {
        fail(rt, "no text");
    };
    holds(
        rt,
        text.contains("<h1>Packets: &lt;script&gt;&#39;&amp;&quot;</h1>"),
    );
    holds(rt, !text.contains("<script"));
}

#[test]
fn pages_that_cannot_be_written(rt: HostRuntime) {
    let mut full = UnflushableWriter::new(rt.alloc(), 10);
    let result = written(rt, rt.alloc(), "x", &mut full);
    equal(rt, result, Err(RunError::WriteZero));
}

#[test]
fn escaped_texts(rt: HostRuntime) {
    let mut text = Vec::new(rt.alloc());
    holds(rt, append_escaped(b"a<b>&c\"d'&amp;\r", &mut text).is_ok());
    is_text(
        rt,
        text.as_slice(),
        "a&lt;b&gt;&amp;c&quot;d&#39;&amp;amp;&#13;",
    );
}
