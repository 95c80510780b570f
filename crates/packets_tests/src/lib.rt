//! Tests of `packets` and `header_descriptions` over their public calls. The rows of
//! `tools/packets_rows` compare the output for whole captures.
#![tactic(auto)]

#[cfg(test)]
mod captured;
#[cfg(test)]
mod checks;
#[cfg(test)]
mod classic_captures;
#[cfg(test)]
mod dropped_messages;
#[cfg(test)]
mod expressions;
#[cfg(test)]
mod faults;
#[cfg(test)]
mod flows;
#[cfg(test)]
mod follow;
#[cfg(test)]
mod frames;
#[cfg(test)]
mod limits;
#[cfg(test)]
mod memory;
#[cfg(test)]
mod names;
#[cfg(test)]
mod original_datagrams;
#[cfg(test)]
mod outcomes;
#[cfg(test)]
mod outputs;
#[cfg(test)]
mod pages;
#[cfg(test)]
mod refusals;
#[cfg(test)]
mod relative;
#[cfg(test)]
mod streams;
#[cfg(test)]
mod summaries;
#[cfg(test)]
mod whole_captures;
#[cfg(test)]
mod words;
#[cfg(test)]
mod written_captures;
