//! The short length of a MACsec header at values of IEEE 802.1AE, section 9.7.
ghost use Rattle.std.specs.Prelude.{◌≡◌};
ghost use Rattle.ep_tag.specs.Macsec.{protected_len};
ghost use Rattle.ep_tag.specs.MacsecLen.{short_len_for};
ghost use Rattle.ep_tag.specs.declared.link.macsec_p_type.MacsecPType.TheVariants as ptype;

/// 47 bytes are the most that a short length counts; an ether type is counted before an unmodified
/// payload alone.
pub fn short_lengths_at_literals()
    ensures most { short_len_for 47 ≡ 47 }
    ensures above { short_len_for 48 ≡ 0 }
    ensures none { short_len_for 0 ≡ 0 }
    ensures unmodified { protected_len (ptype.Unmodified (record { 0 = 0x0800 })) 45 ≡ 47 }
    ensures modified { protected_len ptype.Modified 45 ≡ 45 }
{}
