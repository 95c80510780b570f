//! What `Clone` and `PartialEq` of the types here mean, each clause about the relation that the type's
//! own impl names.
ghost use Rattle.std.specs.Prelude.{◌≡◌, ◌↔◌, IsTrue};
ghost use Rattle.ep_base.specs.Traits.{CopyIsValue, CopyNeverFails};
ghost use Rattle.ep_packet.specs.declared.sliced_fragment.SlicedFragment.{SlicedFragment as SlicedFragmentValue};
ghost use Rattle.etherparse.specs.ReassemblyTable.{fragment_of};

use ep_packet::SlicedFragment;
use ep_packet::laws::traits::{classes_are_equal_by_value, copies_of_fragments_are_values};

/// A copy is the value and takes no memory. Two are equal where they are the same fragment: offset,
/// whether others follow, and bytes.
pub fn sliced_fragments_are_plain_data<'a>()
    ensures copies { CopyIsValue ⟦<SlicedFragment<'a> as Clone>⟧.is_clone }
    ensures never_fails { CopyNeverFails ⟦<SlicedFragment<'a> as Clone>⟧.is_infallible }
    ensures equals { (a b : SlicedFragmentValue) → IsTrue (⟦<SlicedFragment<'a> as PartialEq>⟧.eq a b)
        ↔ (fragment_of a ≡ fragment_of b) }
{
    copies_of_fragments_are_values();
    classes_are_equal_by_value();
}
