//! Lines that have reassemblies dropped, at literal values.
use crate::checks::{append, equal, equal_bytes, joined};
use crate::packet_lines::reports_all;
use captures::{Extra, Skipped, Spans, Unfit, run};
use fault_devices::FaultReader;
use std::process::Abort;

// A classic capture, high byte first, of packets of one byte at these seconds and microseconds.
fn capture_at(rt: impl Abort + AllocGlobal + Copy, times: &[(u32, u32)]) -> Vec<u8> {
    let mut file = joined(
        rt,
        &[b"\xa1\xb2\xc3\xd4\x00\x02\x00\x04\0\0\0\0\0\0\0\0\x00\x04\x00\x00\0\0\0\x01"],
    );
    for (seconds, microseconds) in times {
        append(
            rt,
            &mut file,
            &[
                &seconds.to_be_bytes(),
                &microseconds.to_be_bytes(),
                b"\0\0\0\x01\0\0\0\x01\x01",
            ],
        );
    }
    file
}

#[test]
fn spans_that_pass(rt: HostRuntime) {
    for (seconds, times, wanted) in [
        (10, [].as_slice(), ""),
        (10, &[(100, 0)], "frame 0 01\n"),
        // To the microsecond. The second span begins with line 2, the third with line 5.
        (
            10,
            &[(100, 5), (110, 4), (110, 5), (120, 4), (120, 5)],
            "frame 0 01\nframe 0 01\nforget 1\nframe 0 01\nframe 0 01\nforget 3\nframe 0 01\n",
        ),
        // A long silence is one span.
        (
            10,
            &[(100, 0), (1000, 0), (1010, 0)],
            "frame 0 01\nforget 1\nframe 0 01\nforget 2\nframe 0 01\n",
        ),
        // Times that run backwards end no span and begin none.
        (
            10,
            &[
                (100, 0),
                (0, 0),
                (109, 0),
                (110, 0),
                (101, 0),
                (119, 0),
                (120, 0),
            ],
            "frame 0 01\nframe 0 01\nframe 0 01\nforget 1\nframe 0 01\nframe 0 01\nframe 0 01\n\
            forget 4\nframe 0 01\n",
        ),
        // Of no seconds: each packet but the first that doesn't come before the span began.
        (
            0,
            &[
                (100, 0),
                (99, 0),
                (100, 0),
                (100, 0),
                (99, 999_999),
                (101, 0),
            ],
            "frame 0 01\nframe 0 01\nforget 1\nframe 0 01\nforget 3\nframe 0 01\nframe 0 01\n\
            forget 5\nframe 0 01\n",
        ),
        // The longest span there is.
        (
            4_294_967_295,
            &[(0, 0), (4_294_967_294, 999_999), (4_294_967_295, 0)],
            "frame 0 01\nframe 0 01\nforget 1\nframe 0 01\n",
        ),
    ] {
        let file = capture_at(rt, times);
        reports_all(
            rt,
            Extra::Forget(seconds),
            file.as_slice(),
            wanted.as_bytes(),
        );
    }
}

// Times in seconds, and when the span began that has passed with each.
#[test]
fn spans_that_have_passed(rt: HostRuntime) {
    for (seconds, times) in [
        (
            10,
            [
                (100, None),
                (105, None),
                (110, Some(100)),
                (119, None),
                (90, None),
                (121, Some(110)),
            ]
            .as_slice(),
        ),
        (
            0,
            &[
                (100, None),
                (99, None),
                (100, Some(100)),
                (90, None),
                (101, Some(100)),
            ],
        ),
    ] {
        let mut spans = Spans::new();
        for (time, passed) in times {
            let began = spans.go_on(seconds, *time * 1_000_000_000u64);
            equal(rt, began.map(|began| began / 1_000_000_000), *passed);
        }
    }
}

// Spans last over reads, and over what has no line: no byte was captured, or it is passed over.
#[test]
fn spans_over_reads(rt: HostRuntime) {
    // At 100 seconds IPv4, at 110 nothing, at 120 no version of IP, at 130 and 135 IPv4.
    let file = joined(
        rt,
        &[
            b"\xa1\xb2\xc3\xd4\x00\x02\x00\x04\0\0\0\0\0\0\0\0\x00\x04\x00\x00\0\0\0\x65",
            b"\0\0\0\x64\0\0\0\0\0\0\0\x01\0\0\0\x01\x45",
            b"\0\0\0\x6e\0\0\0\0\0\0\0\x00\0\0\0\x01",
            b"\0\0\0\x78\0\0\0\0\0\0\0\x01\0\0\0\x01\x55",
            b"\0\0\0\x82\0\0\0\0\0\0\0\x01\0\0\0\x01\x45",
            b"\0\0\0\x87\0\0\0\0\0\0\0\x01\0\0\0\x01\x45",
        ],
    );
    let mut reader = FaultReader::new(file.as_slice(), 1);
    let mut lines = Vec::new(rt.alloc());
    let mut skipped = Skipped::NONE;
    let result = run(
        rt.alloc(),
        Extra::Forget(10),
        Unfit::Skip,
        &mut reader,
        &mut lines,
        &mut skipped,
    );
    equal(rt, result, Ok(()));
    equal(rt, skipped.without_frame, 1);
    let wanted = b"frame 0 000000000000000000000000080045\nforget 1\n\
        frame 0 000000000000000000000000080045\nframe 0 000000000000000000000000080045\n";
    equal_bytes(rt, lines.as_slice(), wanted.as_slice());
}
