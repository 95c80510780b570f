//! The frame with a fragment of a message.
ghost use Rattle.std.specs.Prelude.{◌≡◌, ◌≤◌, ◌<◌, ◌^◌, length, IfOk, None};
ghost use Rattle.etherparse.specs.Built.{build_refusal, packet_with_number, size_of};
ghost use Rattle.netlines.specs.PostRefusal.{room};
ghost use Rattle.netlines.specs.Posted.{frame};
ghost use Rattle.netlines.specs.PostedHeaders.{posted_fragment_header, headers_of, ip_headers_of};

use crate::{IpFragVersionSpecId, Letter};
use etherparse::{
    IpFragOffset, IpHeaders, IpNumber, Ipv4Extensions, Ipv4Header, Ipv6Extensions, Ipv6FlowLabel,
    Ipv6FragmentHeader, Ipv6Header, PacketBuilder, PacketBuilderStep,
};
use std::alloc::{AllocError, Global};

const HOPS: u8 = 64;

// The frame with a fragment of a letter's message: whether the message is cut, the offset of the
// fragment, and whether more fragments follow.
pub(crate) fn frame(
    alloc: Global,
    letter: &Letter,
    is_fragmented: bool,
    offset: IpFragOffset,
    more: bool,
    text: &[u8],
) -> Result<Vec<u8>, AllocError>
    requires { length text.now ≤ room letter.now.version_id is_fragmented }
    ensures { IfOk result (λ bytes. bytes.items
        ≡ frame letter.now is_fragmented (record { offset = offset; more = more; text = text.now })) }
{
    let step = step(letter, is_fragmented, offset, more, text);
    let mut bytes = Vec::with_capacity(alloc, step.size(text.len()))?;
    step.write(&mut bytes, letter.number, text).unwrap();
    Ok(bytes)
}

// The builder of the frame with this fragment.
fn step(
    letter: &Letter,
    is_fragmented: bool,
    offset: IpFragOffset,
    more: bool,
    text: &[u8],
) -> PacketBuilderStep<IpHeaders>
    requires { length text.now ≤ room letter.now.version_id is_fragmented }
    ensures frame { packet_with_number result letter.now.number.0 text.now
        ≡ frame letter.now is_fragmented (record { offset = offset; more = more; text = text.now }) }
    ensures refusal { build_refusal result (length text.now) ≡ None }
    ensures size { size_of result (length text.now) < 2 ^ 64 }
{
    headers(
        letter,
        ip_headers(&letter.version_id, is_fragmented, offset, more),
    )
}

// Link header and tags of a letter's frames, followed by these IP headers.
fn headers(letter: &Letter, ip: IpHeaders) -> PacketBuilderStep<IpHeaders>
    ensures { result ≡ headers_of letter.now ip }
{
    let ethernet = PacketBuilder::ethernet2(letter.ethernet_source, letter.ethernet_destination);
    match letter.vlans.as_slice() {
        [] => ethernet.ip(ip),
        [id] => ethernet.single_vlan(*id).ip(ip),
        [outer, inner, ..] => ethernet.double_vlan(*outer, *inner).ip(ip),
    }
}

// The IP headers of a fragment. Their lengths, numbers and checksum are set when the packet is
// written.
fn ip_headers(
    version_id: &IpFragVersionSpecId,
    is_fragmented: bool,
    offset: IpFragOffset,
    more: bool,
) -> IpHeaders
    ensures { result ≡ ip_headers_of version_id.now is_fragmented offset more }
{
    match version_id {
        IpFragVersionSpecId::Ipv4 {
            source,
            destination,
            identification,
        } => {
            let header = Ipv4Header {
                identification: *identification,
                dont_fragment: false,
                more_fragments: more,
                fragment_offset: offset,
                time_to_live: HOPS,
                source: *source,
                destination: *destination,
                ..Ipv4Header::default()
            };
            IpHeaders::Ipv4(header, Ipv4Extensions { auth: None })
        }
        IpFragVersionSpecId::Ipv6 {
            source,
            destination,
            identification,
        } => {
            let header = Ipv6Header {
                traffic_class: 0,
                flow_label: Ipv6FlowLabel::ZERO,
                payload_length: 0,
                next_header: IpNumber(0),
                hop_limit: HOPS,
                source: *source,
                destination: *destination,
            };
            let extensions = Ipv6Extensions {
                hop_by_hop_options: None,
                destination_options: None,
                routing: None,
                fragment: fragment_header(is_fragmented, offset, more, *identification),
                auth: None,
            };
            IpHeaders::Ipv6(header, extensions)
        }
    }
}

// The fragment header of a message that is cut.
fn fragment_header(
    is_fragmented: bool,
    offset: IpFragOffset,
    more: bool,
    identification: u32,
) -> Option<Ipv6FragmentHeader>
    ensures { result ≡ posted_fragment_header is_fragmented offset more identification }
{
    if is_fragmented {
        Some(Ipv6FragmentHeader::new(IpNumber(0), offset, more, identification))
    } else {
        None
    }
}
