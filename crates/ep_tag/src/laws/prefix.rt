//! Laws of prefixes.
ghost use Rattle.std.specs.Prelude.{◌≡◌, ℕ, List, Result};
ghost use Rattle.ep_base.specs.declared.err.layer.Layer.{Layer};
ghost use Rattle.ep_base.specs.declared.err.len_error.LenError.{LenError};
ghost use Rattle.ep_base.specs.Prefixes.{IsOfLength, TakesPrefix};
ghost use Rattle.ep_tag.specs.Prefix.{prefix_at};

/// The first bytes of a slice are taken as a layer's header exactly where there are as many as the
/// layer needs.
pub fn prefixes_are_found()
    ensures { (layer : Layer) (n : ℕ) (bytes : List ℕ) (taken : Result (List ℕ) LenError)
        → taken ≡ prefix_at layer n bytes → TakesPrefix (IsOfLength n) bytes taken }
{}
