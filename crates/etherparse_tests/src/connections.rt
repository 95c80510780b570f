//! `tcp_streams`: keys of connections, their states, the table of them, and their bytes.

mod bytes;
mod flows;
mod followed;
mod keys;
mod memory;
mod states;
