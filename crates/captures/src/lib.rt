//! Capture files, read and written: the packets of a capture, from its bytes or a reader; a capture
//! as lines for `netlines`; and a capture of the frames of such lines.
#![tactic(auto)]

mod byte_order;
mod capture_error;
mod end;
mod extra;
pub mod laws;
mod limits;
mod link;
mod origin;
mod packet;
mod pcap;
mod pcapng;
mod position;
mod reading;
mod skipped;
mod spans;
mod state;
mod text;
mod time;
mod translation;
mod unfit;

pub use capture_error::CaptureError;
pub use device_runs::{READ_COUNT_LIMIT, device};
pub use extra::Extra;
pub use limits::{BLOCK_LIMIT, SKIPPED_LIMIT};
pub use line_grammar::FRAME_LIMIT;
pub use link::frame::Frame;
pub use link::header::Header;
pub use link::kind::Link;
pub use link::wire_len::frame_wire_len;
pub use packet::Packet;
pub use pcap::writer::{Writer, file_header, record_head};
pub use position::Position;
pub use reading::packet_parser::PacketParser;
pub use reading::packet_reader::PacketReader;
pub use reading::packets::Packets;
pub use reading::parsed::{Parsed, ParsedPacket};
pub use reading::read_error::ReadError;
pub use reading::refused_at::RefusedAt;
pub use skipped::Skipped;
pub use spans::Spans;
pub use text::bad_line::{BadLine, LineFault};
pub use time::time_unit::TimeUnit;
pub use translation::run_captures::{run, run_over};
pub use translation::run_error::RunError;
pub use translation::run_lines::{write_capture, write_capture_over};
pub use unfit::Unfit;
