//! What spans of packet time keep and drop, whatever a reassembly is and however it is dropped.
ghost use Rattle.ep_base.specs.Traits.{IsPlainData};
ghost use Rattle.captures.specs.Spans.{SpansDrop, SpansKeep};

use crate::Spans;
use ep_base::laws::traits::Value;

/// While all packets after a fragment come less than this many seconds later, no span has its
/// reassembly dropped.
#[tactic(auto, using(crate::proofs::SpanLemmas::spans_keep))]
pub fn spans_keep()
    ensures { SpansKeep }
{}

/// Let the current span have started when a fragment came, or before. Its reassembly is dropped
/// once a packet has come `seconds` or more after the fragment, and then another packet `seconds`
/// or more after all packets up to that one.
#[tactic(auto, using(crate::proofs::SpanLemmas::spans_drop))]
pub fn spans_drop()
    ensures { SpansDrop }
{}

/// A copy is the value and takes no memory. Equal are the values that are the same.
pub fn spans_are_plain_data()
    ensures { IsPlainData ⟦<Spans as Value>⟧ }
{}
