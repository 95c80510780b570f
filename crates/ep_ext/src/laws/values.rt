//! What laws require of extension headers, and every value satisfies.
ghost use Rattle.ep_ext.specs.Follow.{IsReadAgain};

use crate::Ipv6Extensions;

/// Fragment and authentication header are read again from their bytes.
pub fn extensions_are_read_again(headers: &Ipv6Extensions)
    ensures { IsReadAgain headers.now }
{
    headers.has_whole_headers();
}
