//! What `Clone` and `PartialEq` of the types here mean, each clause about the relation that the
//! type's own impl names.

ghost use Rattle.ep_base.specs.Traits.{CopyIsValue, CopyNeverFails, IsPlainData};

use crate::icmpv6::mld::MldMessage;
use crate::icmpv6::ndp;
use crate::igmp::IgmpMessage;
use crate::{
    IcmpEchoHeader, Icmpv4Header, Icmpv4Slice, Icmpv4Type, Icmpv6Header, Icmpv6Slice, Icmpv6Type,
    icmpv4, icmpv6, multicast,
};
use ep_base::laws::traits::Value;

/// A copy is the value and takes no memory. Equal are the values that are the same: all fields of a
/// header, all bytes of a slice.
pub fn types_are_plain_data<'a>()
    ensures icmp_echo_header { IsPlainData ⟦<IcmpEchoHeader as Value>⟧ }
    ensures icmpv4_header { IsPlainData ⟦<Icmpv4Header as Value>⟧ }
    ensures icmpv4_slice { IsPlainData ⟦<Icmpv4Slice<'a> as Value>⟧ }
    ensures icmpv4_type { IsPlainData ⟦<Icmpv4Type as Value>⟧ }
    ensures icmpv6_header { IsPlainData ⟦<Icmpv6Header as Value>⟧ }
    ensures icmpv6_slice { IsPlainData ⟦<Icmpv6Slice<'a> as Value>⟧ }
    ensures icmpv6_type { IsPlainData ⟦<Icmpv6Type as Value>⟧ }
    ensures icmpv4_dest_unreachable_header { IsPlainData
        ⟦<icmpv4::DestUnreachableHeader as Value>⟧ }
    ensures icmpv4_parameter_problem_header { IsPlainData
        ⟦<icmpv4::ParameterProblemHeader as Value>⟧ }
    ensures icmpv4_redirect_code { IsPlainData ⟦<icmpv4::RedirectCode as Value>⟧ }
    ensures icmpv4_redirect_header { IsPlainData ⟦<icmpv4::RedirectHeader as Value>⟧ }
    ensures icmpv4_time_exceeded_code { IsPlainData ⟦<icmpv4::TimeExceededCode as Value>⟧ }
    ensures icmpv4_timestamp_message { IsPlainData ⟦<icmpv4::TimestampMessage as Value>⟧ }
    ensures icmpv6_dest_unreachable_code { IsPlainData ⟦<icmpv6::DestUnreachableCode as Value>⟧ }
    ensures icmpv6_parameter_problem_code { IsPlainData ⟦<icmpv6::ParameterProblemCode as Value>⟧ }
    ensures icmpv6_parameter_problem_header { IsPlainData
        ⟦<icmpv6::ParameterProblemHeader as Value>⟧ }
    ensures icmpv6_time_exceeded_code { IsPlainData ⟦<icmpv6::TimeExceededCode as Value>⟧ }
    ensures multicast_error { IsPlainData ⟦<multicast::MulticastError as Value>⟧ }
    ensures multicast_group_record { IsPlainData ⟦<multicast::GroupRecord<'a, 16> as Value>⟧ }
    ensures multicast_group_record_error { IsPlainData ⟦<multicast::GroupRecordError as Value>⟧ }
    ensures multicast_sources { IsPlainData ⟦<multicast::Sources<'a, 16> as Value>⟧ }
    ensures ndp_header { IsPlainData ⟦<ndp::NdpHeader as Value>⟧ }
    ensures ndp_invalid { IsPlainData ⟦<ndp::NdpInvalid as Value>⟧ }
    ensures ndp_message { IsPlainData ⟦<ndp::NdpMessage as Value>⟧ }
    ensures ndp_option { IsPlainData ⟦<ndp::NdpOption<'a> as Value>⟧ }
    ensures ndp_option_data { IsPlainData ⟦<ndp::NdpOptionData<'a> as Value>⟧ }
    ensures ndp_option_error { IsPlainData ⟦<ndp::NdpOptionError as Value>⟧ }
    ensures ndp_option_write_error { IsPlainData ⟦<ndp::NdpOptionWriteError as Value>⟧ }
    ensures ndp_prefix_information { IsPlainData ⟦<ndp::PrefixInformation as Value>⟧ }
    ensures ndp_slice { IsPlainData ⟦<ndp::NdpSlice<'a> as Value>⟧ }
{}

/// A copy is the value: of an iterator what it has left.
pub fn copies_are_values<'a>()
    ensures group_records { CopyIsValue ⟦<multicast::GroupRecords<'a, 16> as Clone>⟧.is_clone }
    ensures igmp_message { CopyIsValue ⟦<IgmpMessage<'a> as Clone>⟧.is_clone }
    ensures mld_message { CopyIsValue ⟦<MldMessage<'a> as Clone>⟧.is_clone }
    ensures ndp_options_iterator { CopyIsValue ⟦<ndp::NdpOptionsIterator<'a> as Clone>⟧.is_clone }
{}

/// To copy one takes no memory and doesn't fail.
pub fn copies_never_fail<'a>()
    ensures group_records { CopyNeverFails
        ⟦<multicast::GroupRecords<'a, 16> as Clone>⟧.is_infallible }
    ensures igmp_message { CopyNeverFails ⟦<IgmpMessage<'a> as Clone>⟧.is_infallible }
    ensures mld_message { CopyNeverFails ⟦<MldMessage<'a> as Clone>⟧.is_infallible }
    ensures ndp_options_iterator { CopyNeverFails
        ⟦<ndp::NdpOptionsIterator<'a> as Clone>⟧.is_infallible }
{}
