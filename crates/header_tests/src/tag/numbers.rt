//! Bounded numbers.
use crate::checks::{equal, reads, shows};
use ep_tag::laws::numbers::*;
use ep_tag::{MacsecAn, MacsecShortLen, VlanId, VlanPcp};

#[test]
fn greatest_numbers(rt: HostRuntime) {
    shows(rt, &VlanId::try_new(4095), "Ok(VlanId(4095))");
    shows(rt, &VlanPcp::try_new(7), "Ok(VlanPcp(7))");
    shows(rt, &MacsecAn::try_new(3), "Ok(MacsecAn(3))");
    shows(rt, &MacsecShortLen::try_new(63), "Ok(MacsecShortLen(63))");
    let greatest = [VlanPcp::MAX_U8, MacsecAn::MAX_U8, MacsecShortLen::MAX_U8];
    equal(rt, (VlanId::MAX_U16, greatest), (4095, [7, 3, 63]));
}

#[test]
fn refused_numbers(rt: HostRuntime) {
    let id = "Err(ValueTooBigError { actual: 4096, max_allowed: 4095, value_type: VlanId })";
    shows(rt, &VlanId::try_new(4096), id);
    let pcp = "Err(ValueTooBigError { actual: 8, max_allowed: 7, value_type: VlanPcp })";
    shows(rt, &VlanPcp::try_new(8), pcp);
    let an = "Err(ValueTooBigError { actual: 4, max_allowed: 3, value_type: MacsecAn })";
    shows(rt, &MacsecAn::try_from(4), an);
    let len = "Err(ValueTooBigError { actual: 64, max_allowed: 63, value_type: MacsecShortLen })";
    shows(rt, &MacsecShortLen::try_new(64), len);
}

fn vlan_id(value: u16) -> VlanId {
    VlanId::try_from(value).unwrap_or(VlanId::ZERO)
}

fn vlan_pcp(value: u8) -> VlanPcp {
    VlanPcp::try_from(value).unwrap_or(VlanPcp::ZERO)
}

fn macsec_an(value: u8) -> MacsecAn {
    MacsecAn::try_from(value).unwrap_or(MacsecAn::ZERO)
}

fn macsec_short_len(value: u8) -> MacsecShortLen {
    MacsecShortLen::try_from(value).unwrap_or(MacsecShortLen::ZERO)
}

#[test]
fn converted_numbers(rt: HostRuntime) {
    equal(rt, u16::from(vlan_id(5)), 5);
    equal(rt, u8::from(vlan_pcp(5)), 5);
    equal(rt, u8::from(macsec_an(2)), 2);
    equal(rt, u8::from(macsec_short_len(47)), 47);
}

#[test]
fn texts(rt: HostRuntime) {
    reads(rt, &vlan_id(4095), "4095");
    reads(rt, &vlan_pcp(6), "6");
    reads(rt, &macsec_an(1), "1");
    reads(rt, &macsec_short_len(10), "10");
}

#[test]
fn zeros(rt: HostRuntime) {
    equal(rt, VlanId::default(), VlanId::ZERO);
    equal(rt, VlanPcp::default(), VlanPcp::ZERO);
    equal(rt, MacsecAn::default(), MacsecAn::ZERO);
    equal(rt, MacsecShortLen::default(), MacsecShortLen::ZERO);
}

#[test]
fn laws(rt: HostRuntime) {
    shows(rt, &vlan_id_constants(), "[VlanId(0)]");
    shows(rt, &vlan_pcp_constants(), "[VlanPcp(0)]");
    shows(rt, &macsec_an_constants(), "[MacsecAn(0)]");
    shows(rt, &macsec_short_len_constants(), "[MacsecShortLen(0)]");
}
