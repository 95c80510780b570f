//! The parts of a capture that is written.
ghost use Rattle.std.specs.Prelude.{◌≡◌};
ghost use Rattle.captures.specs.Encoding.{file_header, record_head};
ghost use Rattle.etherparse_structs.specs.Capture.{unit_by};

use captures::{TimeUnit, file_header, record_head};

/// The header of a pcap file.
#[repr(C)]
#[derive(Drop)]
pub struct EpFileHeader {
    /// Its bytes.
    pub bytes: [u8; 24],
}

/// The head of a packet record of a pcap file, which the captured bytes of the packet follow.
#[repr(C)]
#[derive(Drop)]
pub struct EpRecordHead {
    /// Its bytes.
    pub bytes: [u8; 16],
}

/// The header of a file of Ethernet frames, with times in microseconds or nanoseconds.
pub fn capture_header(nanoseconds: bool) -> EpFileHeader
    ensures { result.bytes ≡ file_header (unit_by nanoseconds) }
{
    let time_unit = if nanoseconds {
        TimeUnit::Nanoseconds
    } else {
        TimeUnit::Microseconds
    };
    EpFileHeader {
        bytes: file_header(time_unit),
    }
}

/// The head of a record of such a file.
pub fn packet_head(seconds: u32, fraction: u32, len: u32, wire_len: u32) -> EpRecordHead
    ensures { result.bytes ≡ record_head seconds fraction len wire_len }
{
    EpRecordHead {
        bytes: record_head(seconds, fraction, len, wire_len),
    }
}
