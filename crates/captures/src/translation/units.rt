//! All whole units at the start of some bytes.
ghost use Rattle.std.specs.Prelude.{◌≡◌, ◌≤◌, ◌*◌, length, take};
ghost use Rattle.captures.specs.Units.{Takes};

use crate::CaptureError;
use crate::reading::packets::Packets;
use crate::state::State;
use crate::text::ledger::Ledger;

/// What is known after all whole units of some bytes.
#[derive(Drop)]
pub(crate) struct Taken<'a> {
    /// What the capture is known to be.
    pub after: State,
    /// What follows the units.
    pub rest: &'a [u8],
    /// How many bytes the lines of their packets have.
    pub used: usize,
    /// How far the lines are then.
    pub ledger: Ledger,
    /// Why no unit can follow.
    pub refusal: Option<CaptureError>,
}

/// Takes all whole units of some bytes, and puts the lines of their packets at the start of `out`.
pub(crate) fn take_units<'a>(
    state: State,
    ledger: Ledger,
    bytes: &'a [u8],
    out: &mut [u8],
) -> Taken<'a>
    requires { 5 * length bytes.now ≤ length out.old }
    ensures fits { result.used ≤ length out.new }
    ensures parts { length result.rest.now ≤ length bytes.now }
    ensures takes { Takes ledger state bytes.now result.after result.rest.now
        (take result.used out.new) result.refusal result.ledger }
    ensures extra { result.ledger.extra ≡ ledger.extra }
{
    let mut packets = Packets::following(state, bytes);
    let mut used = 0;
    let mut noted = ledger;
    'lines: while let Some(packet) = packets.step() {
        used = noted.report(out, used, packet.origin(), &packet.frame);
    }
    Taken {
        after: packets.state(),
        rest: packets.rest(),
        used,
        ledger: noted,
        refusal: packets.refusal(),
    }
}
