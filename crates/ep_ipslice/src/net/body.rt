//! The bytes of a packet after its base header, and faults in them.

ghost use Rattle.std.specs.Prelude.{◌≡◌, length, nat_lt, take};
ghost use Rattle.ep_base.specs.LenError as len_error;
ghost use Rattle.ep_base.specs.SliceError.{CanMove};
ghost use Rattle.ep_ipslice.specs.LaxPackets.{error_within, fault_within, source_within};

use ep_base::LenSource;
use ep_base::err::{LenError, SliceError};

// So many of the bytes after a base header, as this field says, or all of them where fewer are
// there; what their number came from; and whether fewer are there.
#[inline(always)]
pub(super) fn bytes_within(
    following: &[u8],
    len: usize,
    field: LenSource,
) -> (&[u8], LenSource, bool)
    ensures bytes { result.0.now ≡ take len following.now }
    ensures source { result.1 ≡ source_within (length following.now) len field }
    ensures incomplete { result.2 ≡ nat_lt (length following.now) len }
{
    if following.len() < len {
        return (following, LenSource::Slice, true);
    }
    let (body, _padding) = following.split_at(len);
    (body, field, false)
}

// An error of too few bytes after a header of this length, in what this source bounds.
pub(super) fn error_within(error: LenError, len_source: LenSource, header_len: usize) -> LenError
    requires { len_error.CanMove error header_len }
    ensures { result ≡ error_within len_source header_len error }
{
    LenError {
        len_source,
        ..error.add_offset(header_len)
    }
}

// The same of a fault of extension headers.
pub(super) fn fault_within<C>(
    error: SliceError<C>,
    len_source: LenSource,
    header_len: usize,
) -> SliceError<C>
    requires { CanMove error header_len }
    ensures { result ≡ fault_within len_source header_len error }
{
    match error {
        SliceError::Len(error) => { SliceError::Len(error_within(error, len_source, header_len)) }
        SliceError::Content(error) => SliceError::Content(error),
    }
}
