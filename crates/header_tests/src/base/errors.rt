//! The texts of errors, one of each form.

use crate::checks::{equal, reads, shows};
use ep_base::IpDscpUnknownValueError;
use ep_base::err::{Layer, LenError, SliceWriteSpaceError, ValueTooBigError, ValueType};

#[test]
fn too_few_bytes_at_the_start(rt: HostRuntime) {
    let error = LenError::too_few_bytes(Layer::Ipv4Header, 20, 19);
    let fields = "LenError { required_len: 20, len: 19, len_source: Slice, layer: Ipv4Header, \
        layer_start_offset: 0 }";
    shows(rt, &error, fields);
    let text = "IPv4 header Error: Not enough data to decode 'IPv4 header'. 20 byte(s) would be \
        required, but only 19 byte(s) are available based on the slice length.";
    reads(rt, &error, text);
}

// At byte 14, and from there to the greatest offset that a `usize` holds.
#[test]
fn too_few_bytes_further_on(rt: HostRuntime) {
    let error = LenError::too_few_bytes(Layer::Ipv4Header, 20, 19).add_offset(14);
    equal(rt, error.layer_start_offset, 14);
    let text = "IPv4 header Error: Not enough data to decode 'IPv4 header'. 20 byte(s) would be \
        required, but only 19 byte(s) are available based on the slice length, 'IPv4 header' \
        starts at overall parsed byte 14.";
    reads(rt, &error, text);
    let last = error.add_offset(0xffff_ffff_ffff_fff1);
    let found = (last.layer_start_offset, last.required_len);
    equal(rt, found, (0xffff_ffff_ffff_ffff, 20));
}

#[test]
fn texts_of_errors(rt: HostRuntime) {
    let too_big = ValueTooBigError {
        actual: 64u8,
        max_allowed: 63,
        value_type: ValueType::IpDscp,
    };
    let text = "Error '64' is too big to be a 'DSCP (Differentiated Services Code Point)' \
        (maximum allowed value is '63')";
    reads(rt, &too_big, text);
    let space = SliceWriteSpaceError {
        required_len: 14,
        len: 13,
        layer: Layer::Ethernet2Header,
        layer_start_offset: 0,
    };
    let text = "Ethernet 2 header Error: Not enough space to write 'Ethernet 2 header' to slice. \
        Needed 14 byte(s), but only 13 byte(s) were available.";
    reads(rt, &space, text);
    let unknown = IpDscpUnknownValueError { value: 63 };
    reads(rt, &unknown, "Unknown IP DSCP value 63");
}
