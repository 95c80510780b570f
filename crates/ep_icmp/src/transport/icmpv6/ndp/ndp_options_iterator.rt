//! The options of a message of neighbor discovery, one after the other.
ghost use Rattle.std.specs.Prelude.{◌≡◌, ⊤, ◌+◌, ◌-◌, ◌*◌, ◌<◌, ◌≤◌, ℕ, List, length, OnOk};
ghost use Rattle.std.specs.Iterator.{YieldsFirst, item_count, MakesProgress};
ghost use Rattle.ep_base.specs.Bytes.{num};
ghost use Rattle.ep_icmp.specs.NdpOptions as spec;
ghost use Rattle.ep_icmp.specs.NdpOptions.{Left, items_of};

use super::{NdpOption, NdpOptionError};
use std::marker::Model;

/// The options that bytes encode, one after the other (RFC 4861, section 4.6).
///
/// It ends with the bytes, or after the first fault, which is returned as the last item;
/// [`crate::laws::ndp::items_are_options`] states it. A contract sees it as the bytes that are
/// left, and how many there were.
#[derive(Clone, Debug, Drop)]
pub struct NdpOptionsIterator<'a> {
    options: &'a [u8],
    end: usize,
}

impl<'a> Model for NdpOptionsIterator<'a> {
    ghost Value = { Left };

    ghost view = { λ iterator. record { rest = iterator.options.now; end = iterator.end } };

    ghost invariant = { λ iterator. length iterator.options.now ≤ iterator.end };
}

impl<'a> NdpOptionsIterator<'a> {
    /// The options that these bytes encode.
    pub fn from_slice(options: &'a [u8]) -> NdpOptionsIterator<'a>
        ensures { result ≡ record { rest = options.now; end = length options.now } }
    {
        NdpOptionsIterator {
            options,
            end: options.len(),
        }
    }

    /// The bytes that are left: none after a fault.
    pub fn rest(&self) -> &'a [u8]
        ensures { result.now ≡ self.now.rest }
    {
        self.options
    }
}

impl<'a> Iterator for NdpOptionsIterator<'a> {
    type Item = Result<NdpOption<'a>, NdpOptionError>;

    ghost next_gives = { YieldsFirst items_of };

    ghost remaining = { item_count items_of };

    fn next(&mut self) -> Option<Self::Item>
        ensures steps { YieldsFirst items_of self.old result self.new }
        ensures goes { MakesProgress (λ _. ⊤) (item_count items_of) self.old result self.new }
        // It is the option or the fault at the start of what is left, or none at the end.
        ensures item { result ≡ spec.item_at self.old }
        ensures rest { self.new ≡ spec.left_after self.old }
    {
        let options = self.options;
        if options.is_empty() {
            return None;
        }
        match size_at(options, self.end - options.len()) {
            Ok(size) => {
                let (option, rest) = options.split_at(size);
                self.options = rest;
                Some(Ok(NdpOption::of_bytes(option)))
            }
            Err(error) => {
                self.options = &options[options.len()..];
                Some(Err(error))
            }
        }
    }
}

// The size in bytes of the option at the start of the bytes, which are some, or its fault.
fn size_at(options: &[u8], offset: usize) -> Result<usize, NdpOptionError>
    requires { 0 < length options.now }
    ensures exact { result ≡ spec.size_at offset options.now }
    ensures fits { OnOk result ((0 < 8 * num options.now 1 1)
        × (8 * num options.now 1 1 ≤ length options.now)) }
{
    if options.len() < 2 {
        return Err(NdpOptionError::UnexpectedEnd {
            offset,
            needed_len: 2,
            actual_len: options.len(),
        });
    }
    let size = 8 * usize::from(options[1]);
    if size == 0 {
        return Err(NdpOptionError::ZeroLength { offset });
    }
    if options.len() < size {
        return Err(NdpOptionError::UnexpectedEnd {
            offset,
            needed_len: size,
            actual_len: options.len(),
        });
    }
    Ok(size)
}
