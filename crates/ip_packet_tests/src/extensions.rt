//! Extension headers: alone, in a row, and from readers.

mod auth_headers;
mod exts_errors;
mod failing_reads;
mod headers;
mod ipv4_extensions;
mod ipv6_extensions;
mod ipv6_extensions_follow;
mod kinds;
mod limited_reader;
mod limited_reads;
mod memory;
mod readers;
mod reads;
mod rows;
mod slots;
