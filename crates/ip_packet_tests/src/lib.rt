//! Tests of `ep_ext` (`extensions`) and `ep_ipslice` (`slices`) over their public calls. They are
//! in a crate of their own, so that they are proved apart from these two, and not again with each
//! function of them.
#![tactic(auto)]

#[cfg(test)]
mod checks;
#[cfg(test)]
mod extensions;
#[cfg(test)]
mod slices;
