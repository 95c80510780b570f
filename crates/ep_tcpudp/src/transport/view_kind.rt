//! What the bytes of a view are.

ghost use Rattle.std.specs.Prelude.{List, ℕ};

/// What the bytes of a view are: a whole message, or its header.
pub trait ViewKind {
    /// The view's name in `Debug`.
    const VIEW: &'static str;

    // What such bytes fulfil.
    ghost holds: { List ℕ → Type 0 };
}
