//! Tests of `netlines` and `checksum_verdicts` over their public calls. They are a crate of their
//! own, so that they are proved beside these and not with each of their functions once more. Tests
//! of one shape are rows of a table, and functions that they share have no contracts, as tests
//! alone call them.
#![tactic(auto)]

#[cfg(test)]
mod checks;
#[cfg(test)]
mod laws;
#[cfg(test)]
mod memory;
#[cfg(test)]
mod messages;
#[cfg(test)]
mod program;
#[cfg(test)]
mod runs;
