//! UDP and TCP: headers, datagrams and segments, options and checksums.

mod checksums;
mod long_payloads;
mod options;
mod tcp;
mod udp;
