//! Writes of all of some bytes.
ghost use Rattle.std.specs.Prelude.{MatchResult};
ghost use Rattle.device_runs.specs.Writes.{Stops, Written};

use crate::device::Device;
use crate::fault::Fault;

/// Writes all the bytes, by as many writes as that takes.
pub fn write_whole<D: Device>(device: &mut D, bytes: &[u8]) -> Result<(), Fault>
    ensures { MatchResult result (λ _. Written D.transition device.old bytes.now device.new)
        (λ fault. Stops D.transition fault device.old bytes.now device.new) }
{
    let mut rest = bytes;
    'writes: while !rest.is_empty() {
        match device.write_some(rest) {
            Ok(0) => return Err(Fault::NothingTaken),
            Ok(n) => rest = &rest[n..],
            Err(_) => return Err(Fault::WriteFailed),
        }
    }
    Ok(())
}
