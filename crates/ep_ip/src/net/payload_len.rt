//! What a total length leaves for the payload.

ghost use Rattle.std.specs.Prelude.{◌≡◌, ℕ, ◌+◌, Ok};
ghost use Rattle.ep_ip.specs.Ipv4Fault.{IsPayloadLen};

use ep_base::LenSource;
use ep_base::err::{Layer, LenError};

/// What a total length leaves after a header of this length, all in bytes.
pub fn payload_len_of(header_len: u16, total_len: u16) -> Result<u16, LenError>
    ensures exact { IsPayloadLen header_len total_len result }
    ensures only { (n : ℕ) → header_len + n ≡ total_len → result ≡ Ok n }
{
    if total_len < header_len {
        return Err(LenError {
            required_len: header_len.into(),
            len: total_len.into(),
            len_source: LenSource::Ipv4HeaderTotalLen,
            layer: Layer::Ipv4Packet,
            layer_start_offset: 0,
        });
    }
    Ok(total_len - header_len)
}
