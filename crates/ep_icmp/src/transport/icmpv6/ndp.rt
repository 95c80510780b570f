//! Neighbor discovery for IPv6 (RFC 4861): its five messages, and the options in them.

mod ndp_header;
mod ndp_invalid;
mod ndp_message;
mod ndp_option;
mod ndp_option_data;
mod ndp_option_error;
mod ndp_options_iterator;
mod ndp_slice;
mod prefix_information;

use ep_base::err::LenError;
pub use ndp_header::NdpHeader;
pub use ndp_invalid::NdpInvalid;
pub use ndp_message::NdpMessage;
pub use ndp_option::NdpOption;
pub use ndp_option_data::NdpOptionData;
pub use ndp_option_error::{NdpOptionError, NdpOptionWriteError};
pub use ndp_options_iterator::NdpOptionsIterator;
pub use ndp_slice::NdpSlice;
pub use prefix_information::PrefixInformation;

/// Why bytes whose type is one of neighbor discovery are no such message: the layer `Icmpv6` needs
/// more bytes than are there.
pub type NdpError = LenError;
