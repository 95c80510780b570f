//! What an input looks like by its first bytes, for the note on one that is refused.
ghost use Rattle.std.specs.Prelude.{◌≡◌};
ghost use Rattle.std.specs.List.{list_all};
ghost use Rattle.capture_programs.specs.Looks.{begins_capture, is_text, look_of};

/// What an input looks like.
#[derive(Clone, Copy, Debug, PartialEq, Eq)]
pub enum Look {
    /// It has no byte.
    Empty,
    /// A file of gzip (RFC 1952).
    Gzip,
    /// A file of Zstandard (RFC 8878).
    Zstd,
    /// A file of xz.
    Xz,
    /// A file of bzip2.
    Bzip2,
    /// A capture, pcap or pcapng.
    Capture,
    /// All that was read first is text.
    Text,
    /// It can't be read, as it is a directory.
    Directory,
    /// Something else, or its first read failed.
    Other,
}

/// What an input with these first bytes looks like.
pub fn look_at(prefix: &[u8]) -> Look
    ensures { result ≡ look_of prefix.now }
{
    if prefix.is_empty() {
        Look::Empty
    } else if prefix.starts_with(b"\x1f\x8b") {
        Look::Gzip
    } else if prefix.starts_with(b"\x28\xb5\x2f\xfd") {
        Look::Zstd
    } else if prefix.starts_with(b"\xfd7zXZ\x00") {
        Look::Xz
    } else if prefix.starts_with(b"BZh") {
        Look::Bzip2
    } else if begins_capture(prefix) {
        Look::Capture
    } else if is_all_text(prefix) {
        Look::Text
    } else {
        Look::Other
    }
}

// The magic numbers of classic captures in both byte orders and time units, and the type of a
// section header.
fn begins_capture(prefix: &[u8]) -> bool
    ensures { result ≡ begins_capture prefix.now }
{
    prefix.starts_with(b"\xa1\xb2\xc3\xd4")
        || prefix.starts_with(b"\xd4\xc3\xb2\xa1")
        || prefix.starts_with(b"\xa1\xb2\x3c\x4d")
        || prefix.starts_with(b"\x4d\x3c\xb2\xa1")
        || prefix.starts_with(b"\x0a\x0d\x0d\x0a")
}

fn is_all_text(prefix: &[u8]) -> bool
    ensures { result ≡ list_all is_text prefix.now }
{
    prefix.iter().all(|byte| is_text(*byte))
}

// Tabs, ends of lines, and all that UTF-8 has but control characters.
fn is_text(byte: u8) -> bool
    ensures { result ≡ is_text byte }
{
    byte == b'\t' || byte == b'\n' || byte == b'\r' || (byte >= 32 && byte != 127)
}
