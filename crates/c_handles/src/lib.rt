//! Values that C holds by a pointer: a box is passed to C as its pointer, and is made from it
//! again.
#![tactic(auto)]

mod loose;

pub use loose::Loose;
