//! An authentication header that the protocol number of IPv4 doesn't name.

use ep_base::IpNumber;
use thiserror::Error;

/// Why the first number does not lead to the header.
#[derive(Clone, Copy, Debug, PartialEq, Eq, Hash, Error)]
pub enum ExtsWalkError {
    /// There is an authentication header, and the first number is another than its 51.
    #[error("IPv4 extension headers: no header names the one of number {}", missing_ext.0)]
    ExtNotReferenced {
        /// The number of the header.
        missing_ext: IpNumber,
    },
}
