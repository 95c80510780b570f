//! Benchmarks of library calls, a module for each kind of packet, of reassembly, and of TCP streams.
//!
//! The arguments name the benchmarks that are run, one after another, and each prints a line with its
//! name and a sum of all that it computed. One of a call makes it once with each of 1000 packets, one of
//! reassembly completes its datagrams once, one of streams puts them together once. Where the first
//! argument is `--timed`, it does so a thousand times, in blocks of twenty, or twenty times, and also
//! prints the nanoseconds of the fastest block or time.
#![tactic(auto)]

mod built_frames;
mod calls;
mod checksums;
mod colliding;
mod datagrams;
mod echoes;
mod interleaved;
mod ip_packets;
mod ipv4_headers;
mod ipv6_extensions;
mod job;
mod lax_packets;
mod links;
mod measured;
mod order;
mod pools;
mod random;
mod reassemblies;
mod reassembly;
mod segments;
mod sliced_packets;
mod streams;

use std::io;
use std::process::ExitCode;

/// It has no contract: what it prints is compared with what a plain program prints.
fn main(rt: HostRuntime) -> io::Result<ExitCode> {
    measured::run(&rt)
}
