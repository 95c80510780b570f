//! What the words of the command line request.

use crate::checks::{equal, fail, is_shown_as, is_text};
use captures::Unfit;
use packets::program::{Output, RequestError, command, requested_by};
use std::alloc::{AllocError, Global};
use std::process::Abort;

// The outputs and their options. Nothing is requested by the last ones.
#[rattlefmt::skip]
const OUTPUTS: &[(&[&str], &str)] = &[
    (&["packets", "show", "x.pcap"], "Show(LineRequest { time: SinceFirst, width: None, coloring: Auto, link: false, bytes: Nothing, relative: false })"),
    (&["packets", "x.pcap"], "Show(LineRequest { time: SinceFirst, width: None, coloring: Auto, link: false, bytes: Nothing, relative: false })"),
    (&["packets", "--utc", "--width", "80", "-"], "Show(LineRequest { time: Utc, width: Some(80), coloring: Auto, link: false, bytes: Nothing, relative: false })"),
    (&["packets", "-nn", "-r", "x.pcap"], "Show(LineRequest { time: SinceFirst, width: None, coloring: Auto, link: false, bytes: Nothing, relative: false })"),
    (&["packets", "summary", "-n", "-n", "--read", "-"], "Summary"),
    (&["packets", "show", "--utc", "--width", "80", "--color", "never"], "Show(LineRequest { time: Utc, width: Some(80), coloring: Never, link: false, bytes: Nothing, relative: false })"),
    (&["packets", "show", "--time", "relative"], "Show(LineRequest { time: SinceFirst, width: None, coloring: Auto, link: false, bytes: Nothing, relative: false })"),
    (&["packets", "show", "--time", "delta"], "Show(LineRequest { time: SincePrevious, width: None, coloring: Auto, link: false, bytes: Nothing, relative: false })"),
    (&["packets", "--time", "epoch", "-r", "x.pcap"], "Show(LineRequest { time: Epoch, width: None, coloring: Auto, link: false, bytes: Nothing, relative: false })"),
    (&["packets", "show", "--time=utc"], "Show(LineRequest { time: Utc, width: None, coloring: Auto, link: false, bytes: Nothing, relative: false })"),
    (&["packets", "show", "--link"], "Show(LineRequest { time: SinceFirst, width: None, coloring: Auto, link: true, bytes: Nothing, relative: false })"),
    (&["packets", "-e", "x.pcap"], "Show(LineRequest { time: SinceFirst, width: None, coloring: Auto, link: true, bytes: Nothing, relative: false })"),
    (&["packets", "json", "-e"], ""),
    (&["packets", "json"], "Json(false)"),
    (&["packets", "json", "--payload", "-"], "Json(true)"),
    (&["packets", "summary", "--forget", "30"], "Summary"),
    (&["packets", "flows", "x.pcap"], "Flows(Listing { by: Bytes, top: None, json: false })"),
    (&["packets", "flows", "--json", "--by", "first", "--top", "3"], "Flows(Listing { by: First, top: Some(3), json: true })"),
    (&["packets", "flows", "--by", "packets", "-"], "Flows(Listing { by: Packets, top: None, json: false })"),
    (&["packets", "flows", "--by", "duration"], "Flows(Listing { by: Duration, top: None, json: false })"),
    (&["packets", "flows", "--by", "name"], ""),
    (&["packets", "flows", "--top", "0"], ""),
    (&["packets", "summary", "--top", "3"], ""),
    (&["packets", "report", "--only", "udp", "x.pcap"], "Report"),
    (&["packets", "report", "--json"], ""),
    (&["packets", "-w", "y.pcap", "x.pcap"], "Capture(\"y.pcap\")"),
    (&["packets", "show", "--write=-", "--only", "udp", "-"], "Capture(\"-\")"),
    (&["packets", "--width", "80", "-w", "y.pcap", "x.pcap"], ""),
    (&["packets", "json", "-w", "y.pcap", "x.pcap"], ""),
    (&["packets"], ""),
    (&["packets", "--payload", "x.pcap"], ""),
    (&["packets", "-r", "x.pcap", "y.pcap"], ""),
    (&["packets", "json", "-r", "x.pcap", "-r", "y.pcap"], ""),
    (&["packets", "show", "--time", "local"], "Show(LineRequest { time: Local, width: None, coloring: Auto, link: false, bytes: Nothing, relative: false })"),
    (&["packets", "-x", "x.pcap"], "Show(LineRequest { time: SinceFirst, width: None, coloring: Auto, link: false, bytes: AfterLink, relative: false })"),
    (&["packets", "-X", "--relative", "x.pcap"], "Show(LineRequest { time: SinceFirst, width: None, coloring: Auto, link: false, bytes: AfterLink, relative: true })"),
    (&["packets", "show", "-xx"], "Show(LineRequest { time: SinceFirst, width: None, coloring: Auto, link: false, bytes: Frame, relative: false })"),
    (&["packets", "show", "--bytes", "-X", "-x"], "Show(LineRequest { time: SinceFirst, width: None, coloring: Auto, link: false, bytes: Frame, relative: false })"),
    (&["packets", "-x", "-w", "y.pcap", "x.pcap"], ""),
    (&["packets", "--relative", "-w", "y.pcap", "x.pcap"], ""),
    (&["packets", "json", "-x"], ""),
    (&["packets", "flows", "--relative"], ""),
    (&["packets", "show", "--time", "zone"], ""),
    (&["packets", "show", "--time", "utc", "--utc"], ""),
    (&["packets", "json", "--time", "utc"], ""),
    (&["packets", "show", "--width", "0"], ""),
    (&["packets", "show", "--color", "red"], ""),
    (&["packets", "summary", "--forget", "0"], ""),
    (&["packets", "show", "--no-checksums", "--only", "udp"], "Show(LineRequest { time: SinceFirst, width: None, coloring: Auto, link: false, bytes: Nothing, relative: false })"),
    (&["packets", "show", "--no-checksums", "--only", "bad"], ""),
    (&["packets", "show", "--no-checksums", "--only", "tcp or not bad"], ""),
    (&["packets", "show", "--only", "tcp or not bad"], "Show(LineRequest { time: SinceFirst, width: None, coloring: Auto, link: false, bytes: Nothing, relative: false })"),
    (&["packets", "show", "--count", "0"], ""),
    (&["packets", "json", "--count", "4294967296"], ""),
    (&["packets", "summary", "--count", "1", "--count", "2"], ""),
    (&["packets", "show", "--duration", "0"], ""),
    (&["packets", "json", "--duration", "4294967296"], ""),
    (&["packets", "summary", "--duration", "1", "--duration", "2"], ""),
    (&["packets", "summary", "--only", "tcq"], ""),
    (&["packets", "summary", "--only", "port=65536"], ""),
    (&["packets", "summary", "--only", "host=10.0.0.256"], ""),
];

// What is requested, if anything is.
fn output_of(alloc: Global, words: &[&str]) -> Option<String> {
    let Ok(command) = command(alloc) else {
        return None;
    };
    let Ok(matches) = command.try_get_matches_from(words) else {
        return None;
    };
    match requested_by(alloc, &matches) {
        Ok(requested) => format!(in alloc; "{:?}", requested.output).ok(),
        Err(_) => None,
    }
}

fn is_output(rt: impl Abort + Copy, alloc: Global, words: &[&str], wanted: &str) {
    match output_of(alloc, words) {
        Some(output) => is_text(rt, output.as_bytes(), wanted),
        None => is_text(rt, b"", wanted),
    }
}

#[test]
fn words_of_outputs(rt: HostRuntime) {
    for (words, wanted) in OUTPUTS.iter() {
        is_output(rt, rt.alloc(), *words, *wanted);
    }
}

// Which connection is followed, and how. Nothing is requested by the last ones.
#[rattlefmt::skip]
const FOLLOWED: &[(&[&str], &str)] = &[
    (&["packets", "follow", "10.0.0.1:5-10.0.0.2:80", "x.pcap"], "Follow(FollowOptions { id: ConnectionId { conversation: Conversation { addresses: V4 { source: [10, 0, 0, 1], destination: [10, 0, 0, 2] }, ports: Some(Ports { source: 5, destination: 80 }), protocol: IpNumber(6) } }, direction: None, form: Text, window: 1048576 })"),
    (&["packets", "follow", "--raw", "--direction", "2", "10.0.0.1:5-10.0.0.2:80"], "Follow(FollowOptions { id: ConnectionId { conversation: Conversation { addresses: V4 { source: [10, 0, 0, 1], destination: [10, 0, 0, 2] }, ports: Some(Ports { source: 5, destination: 80 }), protocol: IpNumber(6) } }, direction: Some(FromSecond), form: Raw, window: 1048576 })"),
    (&["packets", "follow", "--hex", "--window", "4095M", "10.0.0.1:5-10.0.0.2:80", "-"], "Follow(FollowOptions { id: ConnectionId { conversation: Conversation { addresses: V4 { source: [10, 0, 0, 1], destination: [10, 0, 0, 2] }, ports: Some(Ports { source: 5, destination: 80 }), protocol: IpNumber(6) } }, direction: None, form: Hex, window: 4293918720 })"),
    (&["packets", "follow", "10.0.0.1:5-10.0.0.2:80", "--direction", "1", "--json", "--window", "1"], "Follow(FollowOptions { id: ConnectionId { conversation: Conversation { addresses: V4 { source: [10, 0, 0, 1], destination: [10, 0, 0, 2] }, ports: Some(Ports { source: 5, destination: 80 }), protocol: IpNumber(6) } }, direction: Some(FromFirst), form: Json, window: 1 })"),
    (&["packets", "follow"], ""),
    (&["packets", "follow", "x.pcap"], ""),
    (&["packets", "follow", "10.0.0.1:5-10.0.0.2"], ""),
    (&["packets", "follow", "--raw", "--hex", "10.0.0.1:5-10.0.0.2:80"], ""),
    (&["packets", "follow", "--raw", "--json", "10.0.0.1:5-10.0.0.2:80"], ""),
    (&["packets", "follow", "--hex", "--json", "10.0.0.1:5-10.0.0.2:80"], ""),
    (&["packets", "follow", "--direction", "3", "10.0.0.1:5-10.0.0.2:80"], ""),
    (&["packets", "follow", "--window", "4G", "10.0.0.1:5-10.0.0.2:80"], ""),
    (&["packets", "follow", "--window", "1T", "10.0.0.1:5-10.0.0.2:80"], ""),
    (&["packets", "follow", "--window", "0", "10.0.0.1:5-10.0.0.2:80"], ""),
];

#[test]
fn words_of_follow(rt: HostRuntime) {
    for (words, wanted) in FOLLOWED.iter() {
        is_output(rt, rt.alloc(), *words, *wanted);
    }
}

const RULES: &[&str] = &[
    "packets",
    "json",
    "--skip",
    "--no-checksums",
    "--forget",
    "7",
    "--only",
    "udp",
    "x",
];

// What becomes of packets and reassemblies.
#[test]
fn words_of_rules(rt: HostRuntime) {
    let Ok(command) = command(rt.alloc()) else {
        fail(rt, "no memory");
    };
    let Ok(matches) = command.try_get_matches_from(RULES) else {
        fail(rt, "refused");
    };
    let Ok(requested) = requested_by(rt.alloc(), &matches) else {
        fail(rt, "refused");
    };
    let rules = (
        requested.names.first().copied().unwrap_or(""),
        requested.rules.unfit,
        requested.rules.forget,
        requested.rules.checksums,
    );
    equal(rt, rules, ("x", Unfit::Skip, Some(7), false));
}

// The command that words request, by its name.
fn is_command(rt: impl Abort + Copy, alloc: Global, words: &[&str], wanted: &str) {
    let Ok(command) = command(alloc) else {
        fail(rt, "no memory");
    };
    let Ok(matches) = command.try_get_matches_from(words) else {
        fail(rt, "refused");
    };
    match requested_by(alloc, &matches) {
        Ok(requested) => {
            let output: &Output = &requested.output;
            is_text(rt, output.command().as_bytes(), wanted);
        }
        Err(_) => fail(rt, "refused"),
    }
}

#[test]
fn words_of_commands(rt: HostRuntime) {
    for name in ["show", "json", "summary"] {
        is_command(rt, rt.alloc(), &["packets", name, "x.pcap"], name);
    }
    is_command(rt, rt.alloc(), &["packets", "x.pcap"], "show");
}

// The words that name files, and their names.
const FILES: &[(&[&str], &str)] = &[
    (&["packets", "x.pcap"], "[\"x.pcap\"]"),
    (&["packets", "-r", "x.pcap"], "[\"x.pcap\"]"),
    (&["packets", "-c", "1"], "[\"-\"]"),
    (&["packets", "./show"], "[\"./show\"]"),
    (&["packets", "--utc", "show"], "[\"show\"]"),
    (&["packets", "show"], "[\"-\"]"),
    (
        &["packets", "b.pcap", "a.pcap", "--utc", "-"],
        "[\"b.pcap\", \"a.pcap\", \"-\"]",
    ),
    (&["packets", "json", "--read=x.pcap"], "[\"x.pcap\"]"),
    (&["packets", "summary", "-r-"], "[\"-\"]"),
    (
        &["packets", "summary", "a.pcap", "summary"],
        "[\"a.pcap\", \"summary\"]",
    ),
];

fn is_file(rt: impl Abort + Copy, alloc: Global, words: &[&str], wanted: &str) {
    let Ok(command) = command(alloc) else {
        fail(rt, "no memory");
    };
    let Ok(matches) = command.try_get_matches_from(words) else {
        fail(rt, "refused");
    };
    match requested_by(alloc, &matches) {
        Ok(requested) => match format!(in alloc; "{:?}", requested.names) {
            Ok(names) => is_text(rt, names.as_bytes(), wanted),
            Err(_) => fail(rt, "no memory"),
        },
        Err(_) => fail(rt, "refused"),
    }
}

#[test]
fn words_of_files(rt: HostRuntime) {
    for (words, wanted) in FILES.iter() {
        is_file(rt, rt.alloc(), *words, *wanted);
    }
}

// The limits that a command has with these words.
fn limits(alloc: Global, words: &[&str]) -> Option<(Option<u64>, Option<u32>)> {
    let Ok(command) = command(alloc) else {
        return None;
    };
    let Ok(matches) = command.try_get_matches_from(words) else {
        return None;
    };
    match requested_by(alloc, &matches) {
        Ok(requested) => Some((requested.rules.count, requested.rules.duration)),
        Err(_) => None,
    }
}

// Each command has both.
#[test]
fn words_of_limits(rt: HostRuntime) {
    for name in ["show", "json", "summary"] {
        let all = [
            "packets_cli",
            name,
            "--count",
            "4294967295",
            "--duration",
            "4294967294",
        ];
        let wanted = Some((Some(4_294_967_295), Some(4_294_967_294)));
        equal(rt, limits(rt.alloc(), &all), wanted);
        equal(rt, limits(rt.alloc(), &all[..2]), Some((None, None)));
    }
    let short = limits(rt.alloc(), &["packets_cli", "-c", "7"]);
    equal(rt, short, Some((Some(7), None)));
}

// The bytes that incomplete messages may take with these words.
fn memory(alloc: Global, words: &[&str]) -> Option<u64> {
    let Ok(command) = command(alloc) else {
        return None;
    };
    let Ok(matches) = command.try_get_matches_from(words) else {
        return None;
    };
    match requested_by(alloc, &matches) {
        Ok(requested) => Some(requested.rules.reassembly_memory),
        Err(_) => None,
    }
}

const SIZES: &[(&str, Option<u64>)] = &[
    ("0", Some(0)),
    ("1", Some(1)),
    ("1K", Some(1024)),
    ("64M", Some(67_108_864)),
    ("1G", Some(1_073_741_824)),
    ("0G", Some(0)),
    ("007", Some(7)),
    ("18446744073709551615", Some(18_446_744_073_709_551_615)),
    ("17179869183G", Some(18_446_744_072_635_809_792)),
    ("18446744073709551616", None),
    ("17179869184G", None),
    ("18014398509481984K", None),
    ("", None),
    ("K", None),
    ("1k", None),
    ("1 K", None),
    ("1KB", None),
    ("1KK", None),
    ("K1", None),
    ("+1", None),
    ("1.5G", None),
    ("0x10", None),
];

#[test]
fn words_of_sizes(rt: HostRuntime) {
    for (word, wanted) in SIZES {
        let words = ["packets", "show", "--reassembly-memory", *word];
        equal(rt, memory(rt.alloc(), &words), *wanted);
    }
    for name in ["show", "json", "summary"] {
        equal(rt, memory(rt.alloc(), &["packets", name]), Some(67_108_864));
    }
}

#[test]
fn no_memory_for_conditions(rt: HostRuntime) {
    is_shown_as(
        rt,
        rt.alloc(),
        &RequestError::Memory(AllocError),
        "out of memory",
    );
}
