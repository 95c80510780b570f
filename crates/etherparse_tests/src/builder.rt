//! Packets that are built, step by step.

mod extensions;
mod links;
mod memory;
mod parts;
mod refusals;
mod rows;
mod tcp;
mod transports;
mod written;
