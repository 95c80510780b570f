//! Shows a visitor the packets of a capture.
ghost use Rattle.std.specs.Prelude.{[], List};
ghost use Rattle.packets.specs.Courses.{shown};
ghost use Rattle.packets.specs.PacketRuns.{Leaves};
ghost use Rattle.packets.specs.Reported.{Reports};
ghost use Rattle.packets.specs.declared.dissection.Dissection.{Dissection};

use crate::Dissector;
use crate::run::progress::Progress;
use crate::run::rules::Rules;
use crate::run::walk::{Visitor, walk};
use captures::{PacketReader, RunError, Skipped};
use std::alloc::Global;
use std::hash::BuildHasher;
use std::io::Read;

/// How a run over a capture ended.
#[derive(Clone, Copy, Debug, PartialEq, Eq)]
pub struct Ending {
    /// How many datagrams were not complete.
    pub open: usize,
    /// How many datagrams were dropped, so that the others take no more than
    /// [`Rules::reassembly_memory`] bytes; up to the greatest number of 64 bits.
    pub dropped: u64,
    /// How many packets were passed over by then.
    pub skipped: Skipped,
    /// Whether the whole capture was read, or up to a limit of the rules, or why not.
    pub result: Result<(), RunError>,
}

/// Shows a visitor the packets that the filter lets through, up to the end of the capture, to where it
/// is refused or to a limit. The names of datagrams are hashed by this state.
pub(crate) fn visit_all<R: Read + Drop, S: BuildHasher + Drop, V: Visitor, P: Progress>(
    alloc: Global,
    state: S,
    rules: &Rules,
    visitor: &mut V,
    reader: R,
    progress: &mut P,
) -> Ending
    requires begins { V.goes visitor.old visitor.old [] }
    ensures { (reported : List Dissection)
        × Reports V.writes rules.now (R.remaining reader) result reported
        × Leaves result.result (V.goes visitor.old visitor.new (shown rules.now.filter reported))
        (V.fails visitor.old visitor.new (shown rules.now.filter reported))
        (V.breaks visitor.old visitor.new (shown rules.now.filter reported)) }
{
    let mut dissector = Dissector::with_hasher(alloc, state);
    let Ok(mut packets) = PacketReader::new(alloc, rules.unfit, reader) else {
        return Ending {
            open: 0,
            dropped: 0,
            skipped: Skipped::NONE,
            result: Err(RunError::Memory),
        };
    };
    let result = walk(rules, &mut packets, &mut dissector, visitor, progress);
    Ending {
        open: dissector.open(),
        dropped: dissector.dropped(),
        skipped: packets.skipped(),
        result,
    }
}
