//! Lines in several chunks request what they request in one chunk. The expected requests were read
//! off the grammar, independently of the code.
ghost use Rattle.std.specs.Prelude.{◌<◌};

use line_grammar::{LineReader, Request};
use std::test::Fail;

// What a line requests: a frame on a channel, a number, or nothing.
#[derive(Clone, Copy, PartialEq)]
enum Requested<'l> {
    Frame(u32, &'l [u8]),
    Forget(u64),
    Nothing,
}

#[rattlefmt::skip]
const LINES: [(&[u8], Requested<'static>); 16] = [
    (b"frame 0 00", Requested::Frame(0, &[0])),
    (b"frame 4294967295 0A90ff", Requested::Frame(4_294_967_295, &[0x0a, 0x90, 0xff])),
    (b"frame 0000000000 7f", Requested::Frame(0, &[0x7f])),
    (b"forget 0", Requested::Forget(0)),
    (b"forget 00000000000000000001", Requested::Forget(1)),
    (b"forget 18446744073709551615", Requested::Forget(18_446_744_073_709_551_615)),
    (b"", Requested::Nothing),
    (b"frame", Requested::Nothing),
    (b"frame 0 ", Requested::Nothing),
    (b"frame 0 0", Requested::Nothing),
    (b"frame 0 0g", Requested::Nothing),
    (b"frame 0 00g0", Requested::Nothing),
    (b"frame 4294967296 00", Requested::Nothing),
    (b"frame 00000000000 00", Requested::Nothing),
    (b"forget 18446744073709551616", Requested::Nothing),
    (b"forget 000000000000000000001", Requested::Nothing),
];

fn is_requested(reader: &LineReader, requested: Requested<'_>) -> bool {
    match (reader.request(), requested) {
        (Request::Frame(frame), Requested::Frame(channel, bytes)) => {
            frame.channel == channel && frame.bytes == bytes
        }
        (Request::Forget(number), Requested::Forget(line)) => number == line,
        (Request::Bad, Requested::Nothing) => true,
        _ => false,
    }
}

#[test]
fn lines_in_chunks(rt: HostRuntime) -> Result<(), Fail> {
    let mut reader = LineReader::new(rt.alloc())?;
    for (line, requested) in LINES {
        for size in [1, 2, 3, 31, 32, 33, 65_536] {
            for chunk in line.chunks(size) {
                reader.take(chunk);
            }
            assert!(rt; is_requested(&reader, requested));
            reader.restart();
        }
    }
    Ok(())
}

// Split at each offset.
#[test]
fn lines_split_once(rt: HostRuntime) -> Result<(), Fail> {
    let mut reader = LineReader::new(rt.alloc())?;
    for (line, requested) in LINES {
        for at in 0..=line.len() {
            reader.take(&line[..at]);
            reader.take(&line[at..]);
            assert!(rt; is_requested(&reader, requested));
            reader.restart();
        }
    }
    Ok(())
}

fn take_in_chunks(reader: &mut LineReader, bytes: &[u8], size: usize)
    requires { 0 < size }
{
    for chunk in bytes.chunks(size) {
        reader.take(chunk);
    }
}

// Lines of 199,999 to 200,002 bytes: `frame 0 ` and digits. In the first one the last digit has no
// second one, the second line is the longest one, and the last ones are too long.
#[test]
fn greatest_lines(rt: HostRuntime) -> Result<(), Fail> {
    let mut reader = LineReader::new(rt.alloc())?;
    let bytes = vec![in rt.alloc(); 0u8; 99_996]?;
    for (count, requested) in [
        (199_991, Requested::Nothing),
        (199_992, Requested::Frame(0, bytes.as_slice())),
        (199_993, Requested::Nothing),
        (199_994, Requested::Nothing),
    ] {
        let digits = vec![in rt.alloc(); b'0'; count]?;
        reader.take(b"frame 0 ");
        take_in_chunks(&mut reader, digits.as_slice(), 1000);
        assert!(rt; is_requested(&reader, requested));
        reader.restart();
    }
    Ok(())
}
