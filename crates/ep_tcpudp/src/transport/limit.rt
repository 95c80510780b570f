//! Greatest lengths.

ghost use Rattle.std.specs.Prelude.{◌≡◌};
ghost use Rattle.ep_tcpudp.specs.Limit.{value_up_to};

use ep_base::err::{ValueTooBigError, ValueType};

/// A length is at most this, or the error names both.
pub fn at_most(
    len: usize,
    max_allowed: usize,
    value_type: ValueType,
) -> Result<(), ValueTooBigError<usize>>
    ensures { result ≡ value_up_to value_type max_allowed len tt }
{
    if len > max_allowed {
        return Err(ValueTooBigError {
            actual: len,
            max_allowed,
            value_type,
        });
    }
    Ok(())
}
