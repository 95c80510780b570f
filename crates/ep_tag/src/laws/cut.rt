//! Laws of tags of which, together with what follows them, only the first bytes are there.
ghost use Rattle.std.specs.Prelude.{◌≡◌, ◌≤◌, ◌-◌, ℕ, List, ◌++◌, length, take, Ok, IsOkAnd};
ghost use Rattle.std.specs.Option.{option_map};
ghost use Rattle.ep_base.specs.declared.err.layer.Layer.TheVariants.{VlanHeader};
ghost use Rattle.ep_tag.specs.CutTags.{cut_macsec, cut_named, cut_tag, named_bytes};
ghost use Rattle.ep_tag.specs.LinkExt.{fields_of, lax_fields_of, lax_payload_after, payload_after, tag_len};
ghost use Rattle.ep_tag.specs.MacsecLax.{LaxMacsec, lax_macsec_at};
ghost use Rattle.ep_tag.specs.MacsecPayload.{Macsec, macsec_at};
ghost use Rattle.ep_tag.specs.MoreTags.{KeepsMacsec};
ghost use Rattle.ep_tag.specs.Prefix.{whole_at};
ghost use Rattle.ep_tag.specs.Vlan.{vlan_len};
ghost use Rattle.ep_tag.specs.declared.link.link_ext_slice.LinkExtSlice.{LinkExtSlice};

/// A tag that was cut off after its own bytes has the same fields, and its ether type names the bytes
/// that are there; a MACsec payload is incomplete exactly where bytes that the short length promises are
/// missing.
pub fn cut_tags_are_found()
    ensures macsec { (n : ℕ) (bytes : List ℕ) (m : Macsec) → macsec_at bytes ≡ Ok m
        → length m.header ≤ n → lax_macsec_at (take n bytes) ≡ Ok (cut_macsec n m) }
    ensures vlan { (n : ℕ) (bytes tag : List ℕ) → whole_at VlanHeader vlan_len bytes ≡ Ok tag
        → vlan_len ≤ n → whole_at VlanHeader vlan_len (take n bytes) ≡ Ok (take n tag) }
    ensures fields { (n : ℕ) (t : LinkExtSlice) → tag_len t ≤ n
        → lax_fields_of (cut_tag n t) ≡ fields_of t }
    ensures named { (n : ℕ) (t : LinkExtSlice) → tag_len t ≤ n
        → option_map named_bytes (lax_payload_after (cut_tag n t))
        ≡ option_map (cut_named (n - tag_len t)) (payload_after t) }
{}

/// Where more bytes are there, a MACsec header is the same, and of its payload more may be there.
pub fn more_bytes_keep_tags()
    ensures { (bytes more : List ℕ) (before : LaxMacsec) → lax_macsec_at bytes ≡ Ok before
        → IsOkAnd (lax_macsec_at (bytes ++ more)) (λ after. KeepsMacsec before after) }
{}
