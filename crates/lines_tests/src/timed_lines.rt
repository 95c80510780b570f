//! Lines of frames with their times. The expected fields were read off the grammar, independently
//! of the code.

use line_grammar::read_timed_line;

// A channel, seconds, nanoseconds, and digits.
type Parts = (u32, u32, u32, &'static [u8]);

#[rattlefmt::skip]
const LINES: [(&[u8], Option<Parts>); 11] = [
    (b"frame 0 ffff", Some((0, 0, 0, b"ffff"))),
    (b"frame 4294967295 00 1700000000 250000", Some((4_294_967_295, 1_700_000_000, 250_000_000, b"00"))),
    (b"frame 1 00 1 999999 999", Some((1, 1, 999_999_999, b"00"))),
    (b"frame 1 00 1", None),
    (b"frame 1 00 1 ", None),
    (b"frame 1 00 1 1000000", None),
    (b"frame 1 00 1 0 1000", None),
    (b"frame 1 00 4294967296 0", None),
    (b"frame 1 00 1 0 0 0", None),
    (b"frame 4294967296 00", None),
    (b"forget 1", None),
];

fn is_read(line: &[u8], parts: Option<Parts>) -> bool {
    match (read_timed_line(line), parts) {
        (Some(line), Some((channel, seconds, nanoseconds, digits))) => {
            line.channel == channel
                && line.time.seconds == seconds
                && line.time.nanoseconds == nanoseconds
                && line.digits == digits
        }
        (None, None) => true,
        _ => false,
    }
}

#[test]
fn lines_with_times(rt: HostRuntime) {
    for (line, parts) in LINES {
        assert!(rt; is_read(line, parts));
    }
}
