//! The reader with a limit, and the texts of errors.

use super::reads::{Limited, Refusal, unread_limited};
use crate::checks::{missing_in_slice, read_alike, read_as, reads_as, shows};
use ep_base::LenSource;
use ep_base::err::Layer;
use ep_ext::err::io::LimitedReadError;
use ep_ext::err::ip_auth::{
    HeaderError, HeaderLimitedReadError, HeaderReadError, HeaderSliceError, IcvLenError,
};
use ep_ext::err::ipv6_exts::ExtPayloadLenError;
use ep_ext::io::LimitedReader;
use fault_devices::{Fault, FaultReader};
use std::io::ErrorKind;
use std::process::Abort;
use std::test::*;

// A reader of six bytes, a byte a call, of which five may be read, 20 bytes into a packet; and the
// third call fails, or none.
fn limited(fails: bool) -> Limited<'static> {
    let call = if fails { 2 } else { usize::MAX };
    let fault = Fault::Fails(ErrorKind::PermissionDenied);
    LimitedReader::new(
        FaultReader::failing(&[1, 2, 3, 4, 5, 6], 1, call, fault),
        5,
        LenSource::Ipv4HeaderTotalLen,
        20,
        Layer::Ipv4Packet,
    )
}

// The limit, the layer with its offset, and how many bytes count as read.
fn observed(reader: &Limited<'_>) -> (usize, Layer, usize, usize) {
    let (layer, offset) = (reader.layer(), reader.layer_offset());
    (reader.max_len(), layer, offset, reader.read_len())
}

// The source of the limit, and what is left.
fn taken(reader: Limited<'static>) -> (LenSource, &'static [u8]) {
    (reader.len_source(), reader.take_reader().rest)
}

#[test]
fn a_new_reader(rt: HostRuntime) {
    let reader = limited(false);
    shows(rt, "new", &observed(&reader), "(5, Ipv4Packet, 20, 0)");
    let left = "(Ipv4HeaderTotalLen, [1, 2, 3, 4, 5, 6])";
    shows(rt, "taken", &taken(reader), left);
}

// How a buffer of so many bytes of 9 is filled: its first four bytes then, and how many count as
// read.
fn filled(reader: &mut Limited<'_>, len: usize) -> (Result<(), Refusal>, [u8; 4], usize) {
    let mut buffer = [9; 4];
    let (room, _) = buffer.split_at_mut(len.min(4));
    let done = match reader.read_exact(room) {
        Ok(()) => Ok(()),
        Err(error) => Err(unread_limited(error)),
    };
    (done, buffer, reader.read_len())
}

fn fills(rt: impl Abort + AllocGlobal + Copy, reader: &mut Limited<'_>, len: usize, wanted: &str) {
    shows(rt, len, &filled(reader, len), wanted);
}

#[test]
fn reads_up_to_the_limit(rt: HostRuntime) {
    let mut reader = limited(false);
    fills(rt, &mut reader, 2, "(Ok(()), [1, 2, 9, 9], 2)");
    // At the limit, and nothing more.
    fills(rt, &mut reader, 3, "(Ok(()), [3, 4, 5, 9], 5)");
    fills(rt, &mut reader, 0, "(Ok(()), [9, 9, 9, 9], 5)");
    shows(rt, "taken", &taken(reader), "(Ipv4HeaderTotalLen, [6])");
}

// One byte above the limit: nothing is read.
#[test]
fn no_reads_beyond_the_limit(rt: HostRuntime) {
    let mut reader = limited(false);
    fills(rt, &mut reader, 2, "(Ok(()), [1, 2, 9, 9], 2)");
    let wanted = "(Err(Len((6, 5, Ipv4HeaderTotalLen, Ipv4Packet, 20))), [9, 9, 9, 9], 2)";
    fills(rt, &mut reader, 4, wanted);
    let left = "(Ipv4HeaderTotalLen, [3, 4, 5, 6])";
    shows(rt, "taken", &taken(reader), left);
}

#[test]
fn a_layer_begins(rt: HostRuntime) {
    let mut reader = limited(false);
    fills(rt, &mut reader, 2, "(Ok(()), [1, 2, 9, 9], 2)");
    reader.start_layer(Layer::IpAuthHeader);
    shows(rt, "begun", &observed(&reader), "(3, IpAuthHeader, 22, 0)");
}

#[test]
fn a_failed_read_counts_for_nothing(rt: HostRuntime) {
    let mut reader = limited(true);
    fills(rt, &mut reader, 2, "(Ok(()), [1, 2, 9, 9], 2)");
    let wanted = "(Err(Io(PermissionDenied)), [9, 9, 9, 9], 2)";
    fills(rt, &mut reader, 2, wanted);
    fills(rt, &mut reader, 2, "(Ok(()), [3, 4, 9, 9], 4)");
}

#[test]
fn words_of_lengths(rt: HostRuntime) {
    reads_as(
        rt,
        &ExtPayloadLenError::TooSmall(5),
        "raw extension header: a payload of 5 byte(s) is too small, it has at least 6",
    );
    reads_as(
        rt,
        &ExtPayloadLenError::TooBig(2047),
        "raw extension header: a payload of 2047 bytes is too big, it has at most 2046",
    );
    reads_as(
        rt,
        &ExtPayloadLenError::Unaligned(7),
        "raw extension header: a payload of 7 bytes, which is not 6 and a multiple of 8",
    );
    reads_as(
        rt,
        &IcvLenError::TooBig(1020),
        "authentication header: a check value of 1020 bytes is too big, it has at most 1016",
    );
    reads_as(
        rt,
        &IcvLenError::Unaligned(5),
        "authentication header: a check value of 5 byte(s), which is no multiple of 4",
    );
}

#[test]
fn words_of_faults(rt: HostRuntime) {
    let zero = "authentication header: the payload length is 0";
    let fault = HeaderError::ZeroPayloadLen;
    let of_slice = HeaderSliceError::Content(fault);
    let read = HeaderReadError::Content(fault);
    let limited = HeaderLimitedReadError::Content(fault);
    read_as(rt, (&of_slice, &read, &limited), zero);
}

// An error that holds a `LenError` has its text.
#[test]
fn texts_of_len_errors(rt: HostRuntime) {
    let missing = missing_in_slice(12, 11, Layer::IpAuthHeader);
    let of_slice = HeaderSliceError::Len(missing);
    let limited = HeaderLimitedReadError::Len(missing);
    read_alike(
        rt,
        (&of_slice, &limited, &LimitedReadError::Len(missing)),
        &missing,
    );
}

#[test]
fn words_of_failed_reads(rt: HostRuntime) {
    let limit = LimitedReadError::Io(ErrorKind::PermissionDenied.into());
    let read = HeaderReadError::Io(ErrorKind::PermissionDenied.into());
    let limited = HeaderLimitedReadError::Io(ErrorKind::PermissionDenied.into());
    read_as(rt, (&limit, &read, &limited), "permission denied");
}
