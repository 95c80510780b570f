//! The name of the datagram that a fragment belongs to, and the fragment without that name.

ghost use Rattle.std.specs.Prelude.{◌≡◌, IfSome};
ghost use Rattle.ep_packet.specs.Class.{IdentificationFits, as_class};
ghost use Rattle.ep_packet.specs.declared.class.Class.TheVariants as reported;
ghost use Rattle.etherparse.specs.ReassemblyTable.{fragment_of};
ghost use Rattle.etherparse.specs.IpFragId.{fragment_in, id_named, spec_id};

use super::{IpFragId, IpFragVersionSpecId};
use ep_packet::{Addresses, IpFragment, SlicedFragment};

#[inline(always)]
pub(crate) fn named<'a, CustomChannelId>(
    message: IpFragment<'a>,
    channel_id: CustomChannelId,
) -> (IpFragId<CustomChannelId>, SlicedFragment<'a>)
    requires { IdentificationFits message.addresses message.identification }
    ensures { IfSome (fragment_in (as_class (reported.Cut message.entry)))
        (λ named. (result.0 ≡ id_named named.0 channel_id)
        × (fragment_of result.1 ≡ named.1)) }
{
    let IpFragment {
        vlan_ids,
        addresses,
        identification,
        ip_number,
        fragment,
    } = message;
    let id = IpFragId {
        vlan_ids,
        ip: spec_id(addresses, identification),
        payload_ip_number: ip_number,
        channel_id,
    };
    (id, fragment)
}

#[inline(always)]
fn spec_id(addresses: Addresses, identification: u32) -> IpFragVersionSpecId
    requires { IdentificationFits addresses identification }
    ensures { result ≡ spec_id addresses identification }
{
    match addresses {
        Addresses::V4 {
            source,
            destination,
        } => IpFragVersionSpecId::Ipv4 {
            source,
            destination,
            identification: identification as u16,
        },
        Addresses::V6 {
            source,
            destination,
        } => IpFragVersionSpecId::Ipv6 {
            source,
            destination,
            identification,
        },
    }
}
