//! Runs over captures: reads and writes that fail or move little, packets that are passed over or
//! have reassemblies dropped; and packets one by one.

mod chunks;
mod forgetting;
mod numbers;
mod parsers;
mod readers;
mod reads;
mod skipping;
mod writes;
