//! Tests of `lines`, by answerers that know no frame, of `device_runs`, `line_grammar` and
//! `digits`.
#![tactic(auto)]

#[cfg(test)]
mod checks;
#[cfg(test)]
mod chunked_lines;
#[cfg(test)]
mod devices;
#[cfg(test)]
mod earlier_lines;
#[cfg(test)]
mod hex_digits;
#[cfg(test)]
mod timed_lines;
