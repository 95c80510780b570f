//! Payloads of MACsec headers, as far as they are there.
ghost use Rattle.std.specs.Prelude.{◌≡◌, option_map};
ghost use Rattle.ep_tag.specs.MacsecLax.{complete_in, lax_payload_under};
ghost use Rattle.ep_tag.specs.MacsecView.{lax_payload_parsed, payload_parsed};

use super::{LaxEtherPayloadSlice, MacsecHeaderSlice, MacsecPayloadSlice};
use ep_base::LenSource;

/// What follows a MACsec header, borrowed; only a prefix of it where fewer bytes were there than
/// the short length says.
#[derive(Clone, Debug, PartialEq, Eq, Drop)]
pub enum LaxMacsecPayloadSlice<'a> {
    /// Bytes that the header's ether type names.
    Unmodified(LaxEtherPayloadSlice<'a>),
    /// Bytes that were encrypted or changed.
    Modified {
        /// Whether bytes are missing.
        incomplete: bool,
        /// The bytes that are there.
        payload: &'a [u8],
    },
}

impl<'a> LaxMacsecPayloadSlice<'a> {
    // These bytes as what there is of the payload of a header.
    pub(super) fn under(
        header: &MacsecHeaderSlice<'_>,
        incomplete: bool,
        len_source: LenSource,
        payload: &'a [u8],
    ) -> LaxMacsecPayloadSlice<'a>
        ensures { lax_payload_parsed result
            ≡ lax_payload_under header.now incomplete len_source payload.now }
    {
        match header.next_ether_type() {
            Some(ether_type) => LaxMacsecPayloadSlice::Unmodified(LaxEtherPayloadSlice {
                incomplete,
                ether_type,
                len_source,
                payload,
            }),
            None => LaxMacsecPayloadSlice::Modified {
                incomplete,
                payload,
            },
        }
    }

    // The payload, where nothing of it is missing.
    pub(super) fn complete(&self) -> Option<MacsecPayloadSlice<'a>>
        ensures { option_map payload_parsed result ≡ complete_in (lax_payload_parsed self.now) }
    {
        match self {
            LaxMacsecPayloadSlice::Unmodified(payload) if !payload.incomplete => {
                Some(MacsecPayloadSlice::Unmodified(payload.present()))
            }
            LaxMacsecPayloadSlice::Modified {
                incomplete: false,
                payload,
            } => Some(MacsecPayloadSlice::Modified(payload)),
            _ => None,
        }
    }
}
