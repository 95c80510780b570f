//! IP headers and their extension headers as values, read from slices and written.
ghost use Rattle.std.specs.Prelude.{◌≡◌, ◌≤◌, ◌<◌, ◌+◌, ℕ, List, length, Ok, Err, IfOk, IfErr, IsOkAnd, MatchResult};
ghost use Rattle.std.specs.Prelude.{vec_capacity, vec_len};
ghost use Rattle.std.specs.Option.{option_map};
ghost use Rattle.ep_ext.specs.Follow.{Follows, Names, header_len as exts_len};
ghost use Rattle.ep_ext.specs.Ipv4Exts.{NamesAfter, ipv4_exts_encoding};
ghost use Rattle.ep_ext.specs.Value.{Piece};
ghost use Rattle.ep_ext.specs.declared.net.ipv4_extensions.Ipv4Extensions.{Ipv4Extensions};
ghost use Rattle.ep_ext.specs.declared.net.ipv6_extensions.Ipv6Extensions.{Ipv6Extensions};
ghost use Rattle.ep_ip.specs.Ipv4.{header_len};
ghost use Rattle.ep_ip.specs.declared.net.ipv4_header.Ipv4Header.{Ipv4Header};
ghost use Rattle.ep_ip.specs.declared.net.ipv6_header.Ipv6Header.{Ipv6Header};
ghost use Rattle.ep_packet.specs.IpHeadersAt.{ip_headers_at, ipv4_headers_at, ipv6_headers_at};
ghost use Rattle.ep_packet.specs.IpHeaders.{AppendsHeaders, AppendsIpv4, AppendsIpv6, IsLinked, ether_type_of};
ghost use Rattle.ep_packet.specs.IpHeaders.{ip_headers_len, ipv4_in, ipv4_parts, ipv6_in, is_fragmenting, or_ipv4};
ghost use Rattle.ep_packet.specs.IpHeaders.{or_ipv6, with_payload_len};
ghost use Rattle.ep_packet.specs.declared.err.ip.headers_write_error.HeadersWriteError.TheVariants.{Memory};
ghost use Rattle.ep_packet.specs.declared.net.ip_headers.IpHeaders.TheVariants as headers;

use crate::err::ip::HeadersWriteError;
use ep_base::err::{Layer, LenError, ValueTooBigError};
use ep_base::{EtherType, IpNumber};
use ep_ext::err::ip_exts::ExtsWalkError;
use ep_ext::{Ipv4Extensions, Ipv6Extensions};
use ep_ip::{Ipv4Header, Ipv6Header};
use ep_ipslice::err::ip::{HeaderError, HeadersError, HeadersSliceError, SliceError};
use ep_ipslice::err::{ipv4, ipv6};
use ep_ipslice::{IpPayloadSlice, Ipv4Slice, Ipv6Slice, laws};

/// The header of an IP packet of either version, and its extension headers.
#[derive(Clone, Debug, PartialEq, Eq, Drop)]
pub enum IpHeaders {
    /// Of IPv4.
    Ipv4(Ipv4Header, Ipv4Extensions),
    /// Of IPv6.
    Ipv6(Ipv6Header, Ipv6Extensions),
}

impl IpHeaders {
    /// The greatest length in bytes, of an IPv6 header of 40 and extension headers of 9228.
    pub const MAX_LEN: usize = 9268;

    /// The headers, if they are of IPv4.
    pub fn ipv4(&self) -> Option<(&Ipv4Header, &Ipv4Extensions)>
        ensures { option_map (λ r. (r.0.now, r.1.now)) result ≡ ipv4_in self.now }
    {
        match self {
            IpHeaders::Ipv4(header, extensions) => Some((header, extensions)),
            IpHeaders::Ipv6(_, _) => None,
        }
    }

    /// The headers, if they are of IPv6.
    pub fn ipv6(&self) -> Option<(&Ipv6Header, &Ipv6Extensions)>
        ensures { option_map (λ r. (r.0.now, r.1.now)) result ≡ ipv6_in self.now }
    {
        match self {
            IpHeaders::Ipv4(_, _) => None,
            IpHeaders::Ipv6(header, extensions) => Some((header, extensions)),
        }
    }

    /// The headers of the IP packet at the start of the slice, of the version in the upper half of
    /// its first byte, and its payload. Refused are, in this order, a slice of no bytes, a version
    /// that is neither 4 nor 6, and what `from_ipv4_slice` or `from_ipv6_slice` refuses.
    pub fn from_slice(slice: &[u8]) -> Result<(IpHeaders, IpPayloadSlice<'_>), HeadersSliceError>
        // What is found, and what is refused: `laws::ip_headers_are_their_parts`,
        // `laws::refusals_are_first_faults`.
        ensures exact { result ≡ ip_headers_at slice.now }
    {
        if slice.is_empty() {
            return Err(HeadersSliceError::Len(LenError::too_few_bytes(Layer::IpHeader, 1, 0)));
        }
        let version_number = slice[0] >> 4;
        if version_number == 4 {
            return match IpHeaders::from_ipv4_slice(slice) {
                Ok(parts) => Ok(parts),
                Err(error) => Err(HeadersSliceError::of_packet(SliceError::of_ipv4(error))),
            };
        }
        if version_number == 6 {
            return match IpHeaders::from_ipv6_slice(slice) {
                Ok(parts) => Ok(parts),
                Err(error) => Err(HeadersSliceError::of_packet(SliceError::of_ipv6(error))),
            };
        }
        Err(HeadersSliceError::Content(HeadersError::Ip(HeaderError::UnsupportedIpVersion {
            version_number,
        })))
    }

    /// The headers of the IP packet at the start of the slice, the IP number that they name last,
    /// and the bytes of the payload, as `from_slice` gives them.
    pub fn read_from_slice(slice: &[u8]) -> Result<(IpHeaders, IpNumber, &[u8]), HeadersSliceError>
        ensures { MatchResult (ip_headers_at slice.now)
            (λ p. IsOkAnd result (λ r. (r.0 ≡ p.0) × (r.1 ≡ p.1.ip_number)
            × (r.2.now ≡ p.1.payload)))
            (λ e. result ≡ Err e) }
    {
        match IpHeaders::from_slice(slice) {
            Ok((headers, payload)) => Ok((headers, payload.ip_number, payload.payload)),
            Err(error) => Err(error),
        }
    }

    /// The headers of the IPv4 packet at the start of the slice, and its payload, without the
    /// padding after the total length. It is refused as by [`Ipv4Slice::from_slice`].
    pub fn from_ipv4_slice(
        slice: &[u8],
    ) -> Result<(IpHeaders, IpPayloadSlice<'_>), ipv4::SliceError>
        ensures exact { result ≡ ipv4_headers_at slice.now }
    {
        match Ipv4Slice::from_slice(slice) {
            Ok(packet) => Ok(ipv4_parts(&packet)),
            Err(error) => Err(error),
        }
    }

    /// The headers of the IPv6 packet at the start of the slice, and its payload, without the
    /// padding after the payload length. If that length is 0 and bytes follow the header, the
    /// packet takes all of them.
    ///
    /// The extension headers are those that [`Ipv6Extensions::from_slice`] takes, and the payload
    /// starts after them. Refused are, in this order, what [`Ipv6Slice::header_and_body`] refuses,
    /// and what [`Ipv6Extensions::from_slice`] refuses in the bytes that the payload length gives
    /// it.
    pub fn from_ipv6_slice(
        slice: &[u8],
    ) -> Result<(IpHeaders, IpPayloadSlice<'_>), ipv6::SliceError>
        ensures exact { result ≡ ipv6_headers_at slice.now }
    {
        laws::bodies_lie_within();
        laws::rows_are_found();
        let (header, len_source, body) = match Ipv6Slice::header_and_body(slice) {
            Ok(parts) => parts,
            Err(error) => return Err(error),
        };
        match Ipv6Extensions::from_slice(header.next_header(), body) {
            Ok((extensions, ip_number, payload)) => {
                let fragmented = extensions.is_fragmenting_payload();
                let headers = IpHeaders::Ipv6(header.to_header(), extensions);
                Ok((
                    headers,
                    IpPayloadSlice {
                        ip_number,
                        fragmented,
                        len_source,
                        payload,
                    },
                ))
            }
            Err(error) => Err(ipv6::SliceError::of_extensions(error, len_source)),
        }
    }

    /// The length of all headers in bytes.
    pub fn header_len(&self) -> usize
        ensures { result ≡ ip_headers_len self.now }
    {
        match self {
            IpHeaders::Ipv4(header, extensions) => header.header_len() + extensions.header_len(),
            IpHeaders::Ipv6(header, extensions) => header.header_len() + extensions.header_len(),
        }
    }

    /// The number that the last header names, if the IP header names the first extension header,
    /// each of these the next, and all are reached; else the error of the version's extension
    /// headers.
    pub fn next_header(&self) -> Result<IpNumber, ExtsWalkError>
        ensures ipv4 { (h : Ipv4Header) (e : Ipv4Extensions) → self.now ≡ headers.Ipv4 h e
            → (r : _) × (result ≡ or_ipv4 r) × NamesAfter e h.protocol.0 r }
        ensures ipv6 { (h : Ipv6Header) (e : Ipv6Extensions) → self.now ≡ headers.Ipv6 h e
            → (r : _) × (result ≡ or_ipv6 r)
            × ((pieces : List Piece) (last : ℕ) → Follows e h.next_header.0 pieces last
            → Names e pieces last r) }
    {
        match self {
            IpHeaders::Ipv4(header, extensions) => extensions
                .next_header(header.protocol)
                .map_err(ExtsWalkError::Ipv4Exts),
            IpHeaders::Ipv6(header, extensions) => extensions
                .next_header(header.next_header)
                .map_err(ExtsWalkError::Ipv6Exts),
        }
    }

    /// Makes each header name the next one, and the last one this number. Returns the ether type of
    /// the version.
    pub fn set_next_headers(&mut self, last: IpNumber) -> EtherType
        ensures ether_type { result.0 ≡ ether_type_of self.old }
        ensures linked { IsLinked self.old last.0 self.new }
    {
        match self {
            IpHeaders::Ipv4(header, extensions) => {
                header.protocol = extensions.set_next_headers(last);
                EtherType::IPV4
            }
            IpHeaders::Ipv6(header, extensions) => {
                header.next_header = extensions.set_next_headers(last);
                EtherType::IPV6
            }
        }
    }

    /// Sets the length field to the length in bytes of the extension headers and a payload of `len`
    /// bytes, over IPv4 with the header.
    ///
    /// Refused, with the headers unchanged, are extension headers and payload of more than 65535
    /// bytes together, over IPv4 less those of the header. The error has that sum and the limit; a
    /// sum that doesn't fit a `usize` is given as the greatest `usize`.
    pub fn set_payload_len(&mut self, len: usize) -> Result<(), ValueTooBigError<usize>>
        ensures ok { IfOk (with_payload_len self.old len)
            (λ headers. (result ≡ Ok tt) × (self.new ≡ headers)) }
        ensures err { IfErr (with_payload_len self.old len)
            (λ e. (result ≡ Err e) × (self.new ≡ self.old)) }
    {
        match self {
            IpHeaders::Ipv4(header, extensions) => {
                header.set_payload_len(len.saturating_add(extensions.header_len()))
            }
            IpHeaders::Ipv6(header, extensions) => {
                header.set_payload_length(len.saturating_add(extensions.header_len()))
            }
        }
    }

    /// Appends the IP header, over IPv4 with the checksum that belongs to it, and the extension
    /// headers in the order in which they name one another.
    ///
    /// What `next_header` refuses is refused before memory is requested. On `Err` the buffer keeps
    /// its bytes.
    pub fn write(&self, buffer: &mut Vec<u8>) -> Result<(), HeadersWriteError>
        ensures appends { AppendsHeaders self.now buffer.old.items buffer.new.items result }
        // It runs out of memory only if the capacity was too small. The capacity never shrinks.
        ensures memory { result ≡ Err Memory
            → vec_capacity buffer.old < vec_len buffer.old + ip_headers_len self.now }
        ensures capacity { vec_capacity buffer.old ≤ vec_capacity buffer.new }
    {
        match self {
            IpHeaders::Ipv4(header, extensions) => write_ipv4(header, extensions, buffer),
            IpHeaders::Ipv6(header, extensions) => write_ipv6(header, extensions, buffer),
        }
    }

    /// Whether the payload is a fragment, by the IPv4 header or the fragment header.
    pub fn is_fragmenting_payload(&self) -> bool
        ensures { result ≡ is_fragmenting self.now }
    {
        match self {
            IpHeaders::Ipv4(header, _) => header.is_fragmenting_payload(),
            IpHeaders::Ipv6(_, extensions) => extensions.is_fragmenting_payload(),
        }
    }
}

// The headers and the payload of the packet.
fn ipv4_parts<'a>(packet: &Ipv4Slice<'a>) -> (IpHeaders, IpPayloadSlice<'a>)
    ensures { result ≡ ipv4_parts packet.now }
{
    let headers = IpHeaders::Ipv4(packet.header().to_header(), packet.extensions().to_header());
    let payload = packet.payload();
    (
        headers,
        IpPayloadSlice {
            ip_number: payload.ip_number,
            fragmented: payload.fragmented,
            len_source: payload.len_source,
            payload: payload.payload,
        },
    )
}

fn write_ipv4(
    header: &Ipv4Header,
    extensions: &Ipv4Extensions,
    buffer: &mut Vec<u8>,
) -> Result<(), HeadersWriteError>
    ensures appends { AppendsIpv4 header.now extensions.now buffer.old.items
        buffer.new.items result }
    ensures memory { result ≡ Err Memory → vec_capacity buffer.old
        < vec_len buffer.old + (header_len header.now + length (ipv4_exts_encoding extensions.now)) }
    ensures capacity { vec_capacity buffer.old ≤ vec_capacity buffer.new }
{
    if let Err(fault) = extensions.next_header(header.protocol) {
        return Err(HeadersWriteError::Ipv4Exts(fault));
    }
    let len = header.header_len() + extensions.header_len();
    if buffer.reserve(len).is_err() {
        return Err(HeadersWriteError::Memory);
    }
    header.write(buffer).unwrap();
    extensions.write(buffer, header.protocol).unwrap();
    Ok(())
}

fn write_ipv6(
    header: &Ipv6Header,
    extensions: &Ipv6Extensions,
    buffer: &mut Vec<u8>,
) -> Result<(), HeadersWriteError>
    ensures appends { AppendsIpv6 header.now extensions.now buffer.old.items
        buffer.new.items result }
    ensures memory { result ≡ Err Memory → vec_capacity buffer.old
        < vec_len buffer.old + (40 + exts_len extensions.now) }
    ensures capacity { vec_capacity buffer.old ≤ vec_capacity buffer.new }
{
    if let Err(fault) = extensions.next_header(header.next_header) {
        return Err(HeadersWriteError::Ipv6Exts(fault));
    }
    let len = header.header_len() + extensions.header_len();
    if buffer.reserve(len).is_err() {
        return Err(HeadersWriteError::Memory);
    }
    header.write(buffer).unwrap();
    extensions.write(buffer, header.next_header).unwrap();
    Ok(())
}
