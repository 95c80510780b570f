//! Laws with an argument, a result or a type.
use crate::checks::equal;
use ep_base::laws::{constants, ecn_round_trip, traits};
use ep_base::{IpDscpUnknownValueError, IpEcn};

#[test]
fn laws_of_constants(rt: HostRuntime) {
    ecn_round_trip(IpEcn::Ect0);
    equal(rt, constants::dscp_constants().len(), 25);
    equal(rt, constants::frag_offset_constants().len(), 1);
    equal(rt, constants::flow_label_constants().len(), 1);
}

#[test]
fn laws_of_errors() {
    traits::value_too_big_errors::<u8>();
    traits::value_too_big_errors::<usize>();
    traits::slice_errors::<IpDscpUnknownValueError>();
}
