//! The fields of refusals: the kind, the layer, and of too few bytes how many.
ghost use Rattle.std.specs.Prelude.{◌≡◌, ℕ};
ghost use Rattle.etherparse.specs.base.declared.err.layer.Layer.TheVariants as layer;
ghost use Rattle.etherparse.specs.base.declared.len_source.LenSource.TheVariants as source;
ghost use Rattle.etherparse.specs.ext.declared.err.ip_auth.header_error.HeaderError.{HeaderError as AuthError};
ghost use Rattle.etherparse.specs.ext.declared.err.ipv6_exts.header_error.HeaderError.TheVariants as ipv6_exts;
ghost use Rattle.etherparse.specs.ip.declared.err.ipv4.header_error.HeaderError.TheVariants as ipv4;
ghost use Rattle.etherparse.specs.ip.declared.err.ipv6.header_error.HeaderError.TheVariants as ipv6;
ghost use Rattle.etherparse.specs.ipslice.declared.err.ip.header_error.HeaderError.TheVariants as ip;
ghost use Rattle.etherparse.specs.link.declared.err.linux_sll.header_error.HeaderError.TheVariants as sll;
ghost use Rattle.etherparse.specs.packet.declared.err.packet.slice_error.SliceError.TheVariants as error;
ghost use Rattle.etherparse.specs.tag.declared.err.macsec.header_error.HeaderError.TheVariants as macsec;
ghost use Rattle.etherparse.specs.tcpudp.declared.err.tcp.header_error.HeaderError.TheVariants as tcp;
ghost use Rattle.etherparse_structs.specs.Refusal.{content_refusal, no_refusal, refusal_of};

/// Nothing is refused: all fields are 0. An IPv4 packet after a VLAN tag, whose total length is 40
/// and of which 19 bytes are there.
pub fn too_few_bytes()
    ensures none { no_refusal ≡ record {
      kind = 0;
      layer = 0;
      needed = 0;
      there = 0;
      place = 0;
      source = 0;
      value = 0;
    } }
    ensures cut { refusal_of (error.Len (record {
      required_len = 40;
      len = 19;
      len_source = source.Slice;
      layer = layer.Ipv4Packet;
      layer_start_offset = 18;
    })) ≡ record {
      kind = 1;
      layer = 9;
      needed = 40;
      there = 19;
      place = 18;
      source = 1;
      value = 0;
    } }
{}

/// A header that breaks its format: the kind, the layer, and the wrong value; the others are 0. Of
/// an authentication header and of hop-by-hop options the value is 0.
pub fn broken_headers()
    ensures fields { (kind layer value : ℕ) → content_refusal kind layer value ≡ record {
      kind = kind;
      layer = layer;
      needed = 0;
      there = 0;
      place = 0;
      source = 0;
      value = value;
    } }
    ensures packet_type { refusal_of (error.LinuxSll (sll.UnsupportedPacketTypeField 5))
        ≡ content_refusal 2 1 5 }
    ensures hardware_type { refusal_of (error.LinuxSll (sll.UnsupportedArpHardwareId (record { 0 = 9 })))
        ≡ content_refusal 3 1 9 }
    ensures macsec_version { refusal_of (error.Macsec macsec.UnexpectedVersion)
        ≡ content_refusal 4 5 1 }
    ensures short_len { refusal_of (error.Macsec macsec.InvalidUnmodifiedShortLen)
        ≡ content_refusal 5 5 1 }
    ensures ip_version { refusal_of (error.Ip (ip.UnsupportedIpVersion 5))
        ≡ content_refusal 6 7 5 }
    ensures ipv4_version { refusal_of (error.Ipv4 (ipv4.UnexpectedVersion 6))
        ≡ content_refusal 7 8 6 }
    ensures ipv4_header_len { (refusal_of (error.Ipv4 (ipv4.HeaderLengthSmallerThanHeader 4))
        ≡ content_refusal 8 8 4)
        × (refusal_of (error.Ip (ip.Ipv4HeaderLengthSmallerThanHeader 3))
        ≡ content_refusal 8 8 3) }
    ensures ipv6_version { refusal_of (error.Ipv6 (ipv6.UnexpectedVersion 4))
        ≡ content_refusal 9 11 4 }
    ensures auth_header_len { (e : AuthError) → (refusal_of (error.Ipv4Exts e)
        ≡ content_refusal 10 10 0)
        × (refusal_of (error.Ipv6Exts (ipv6_exts.IpAuth e)) ≡ content_refusal 10 10 0) }
    ensures hop_by_hop { refusal_of (error.Ipv6Exts ipv6_exts.HopByHopNotAtStart)
        ≡ content_refusal 11 14 0 }
    ensures data_offset { refusal_of (error.Tcp (tcp.DataOffsetTooSmall 4))
        ≡ content_refusal 12 20 4 }
{}
