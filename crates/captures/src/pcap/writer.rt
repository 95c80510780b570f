//! Classic captures, written.
ghost use Rattle.std.specs.Prelude.{◌≡◌, ◌≤◌, ◌++◌, length};
ghost use Rattle.device_runs.specs.Writes.{Delivers};
ghost use Rattle.captures.specs.Endings.{ending_of};
ghost use Rattle.captures.specs.Encoding.{file_header, record_head};
ghost use Rattle.captures.specs.declared.time.time_unit.TimeUnit.TheVariants.{Microseconds};

use crate::{FRAME_LIMIT, RunError, TimeUnit};
use device_runs::{Device, write_whole};

/// The file header: low byte first, with times in this unit: version 2.4, a snap length of 262,144,
/// Ethernet.
pub fn file_header(time_unit: TimeUnit) -> [u8; 24]
    ensures { result ≡ file_header time_unit }
{
    match time_unit {
        TimeUnit::Microseconds => [
            0xd4, 0xc3, 0xb2, 0xa1, 2, 0, 4, 0, 0, 0, 0, 0, 0, 0, 0, 0, 0, 0, 4, 0, 1, 0, 0, 0,
        ],
        TimeUnit::Nanoseconds => [
            0x4d, 0x3c, 0xb2, 0xa1, 2, 0, 4, 0, 0, 0, 0, 0, 0, 0, 0, 0, 0, 0, 4, 0, 1, 0, 0, 0,
        ],
    }
}

/// Writes a classic capture of Ethernet frames, with times in microseconds: its header once, and
/// then each packet.
#[derive(Drop)]
pub struct Writer<D> {
    /// What is written to.
    pub device: D,
}

impl<D: Device> Writer<D> {
    /// Writes the file header. Nothing else may come before it.
    pub fn write_header(&mut self) -> Result<(), RunError>
        ensures { Delivers D.transition self.old.device (file_header Microseconds)
            (ending_of result) self.new.device }
    {
        write_whole(&mut self.device, &file_header(TimeUnit::Microseconds))?;
        Ok(())
    }

    /// Writes a packet that is captured whole, with its time in seconds since 1970 and
    /// microseconds. A frame of no bytes is a packet of which nothing was captured.
    pub fn write_packet(
        &mut self,
        seconds: u32,
        microseconds: u32,
        frame: &[u8],
    ) -> Result<(), RunError>
        requires { length frame.now ≤ FRAME_LIMIT }
        ensures { Delivers D.transition self.old.device
            (record_head seconds microseconds (length frame.now) (length frame.now) ++ frame.now)
            (ending_of result) self.new.device }
    {
        let len = frame.len() as u32;
        let head = record_head(seconds, microseconds, len, len);
        write_whole(&mut self.device, &head)?;
        write_whole(&mut self.device, frame)?;
        Ok(())
    }
}

/// The head of a packet record, low byte first: the time, in seconds since 1970 and in whole units of
/// the capture, for a frame of which `len` bytes follow and that had `wire_len` bytes on the wire.
pub fn record_head(seconds: u32, parts: u32, len: u32, wire_len: u32) -> [u8; 16]
    ensures { result ≡ record_head seconds parts len wire_len }
{
    let [a, b, c, d] = seconds.to_le_bytes();
    let [e, f, g, h] = parts.to_le_bytes();
    let [i, j, k, l] = len.to_le_bytes();
    let [m, n, o, p] = wire_len.to_le_bytes();
    [a, b, c, d, e, f, g, h, i, j, k, l, m, n, o, p]
}
