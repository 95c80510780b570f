//! Tests of `captures` and `capture_programs` over their public calls. They are in a crate of their
//! own, so that they are proved beside these and not with each of their functions once more.
//! Functions that they share have no contracts: tests alone call them, and are run.
#![tactic(auto)]

#[cfg(test)]
mod checks;
#[cfg(test)]
mod formats;
#[cfg(test)]
mod packet_lines;
#[cfg(test)]
mod programs;
#[cfg(test)]
mod reports;
#[cfg(test)]
mod runs;
