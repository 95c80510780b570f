//! Readers with a limit, from which a packet is read layer after layer.

ghost use Rattle.std.specs.Prelude.{◌≡◌, ℕ, ◌+◌, ◌<◌, ◌≤◌, ◌^◌, length, MatchResult};
ghost use Rattle.ep_ext.specs.Limited.{Limited, at_next_layer, Takes, Refuses};

use crate::err::io::LimitedReadError;
use ep_base::LenSource;
use ep_base::err::{Layer, LenError};
use std::io::Read;
use std::marker::Model;

/// A reader from which at most a given number of bytes is read: the limit that earlier headers of a
/// packet set. It counts what was read of the layer that is read now.
///
/// A contract sees the reader inside, the limit with its source, the layer with its offset, and the
/// number of bytes read of it.
#[derive(Debug, Drop)]
pub struct LimitedReader<T> {
    reader: T,
    max_len: usize,
    len_source: LenSource,
    layer: Layer,
    layer_offset: usize,
    read_len: usize,
}

impl<T> Model for LimitedReader<T> {
    ghost Value = { Limited T };

    ghost view = { λ r. record {
      reader = r.reader;
      max_len = r.max_len;
      len_source = r.len_source;
      layer = r.layer;
      layer_offset = r.layer_offset;
      read_len = r.read_len;
    } };

    ghost invariant = { λ r. (r.read_len ≤ r.max_len) × (r.layer_offset + r.max_len < 2 ^ 64) };
}

impl<T> LimitedReader<T> {
    /// A reader that gives at most `max_len` bytes of a layer, which starts `layer_offset` bytes
    /// after the start of the packet.
    pub fn new(
        reader: T,
        max_len: usize,
        len_source: LenSource,
        layer_offset: usize,
        layer: Layer,
    ) -> LimitedReader<T>
        requires { layer_offset + max_len < 2 ^ 64 }
        ensures { result
            ≡ record {
              reader = reader;
              max_len = max_len;
              len_source = len_source;
              layer = layer;
              layer_offset = layer_offset;
              read_len = 0;
            } }
    {
        LimitedReader {
            reader,
            max_len,
            len_source,
            layer,
            layer_offset,
            read_len: 0,
        }
    }

    /// How many bytes the layer may have.
    pub fn max_len(&self) -> usize
        ensures value { result ≡ self.now.max_len }
        ensures fits { self.now.layer_offset + result < 2 ^ 64 }
    {
        self.max_len
    }

    /// Where the limit came from.
    pub fn len_source(&self) -> LenSource
        ensures { result ≡ self.now.len_source }
    {
        self.len_source
    }

    /// The layer that is read now.
    pub fn layer(&self) -> Layer
        ensures { result ≡ self.now.layer }
    {
        self.layer
    }

    /// The offset of the layer that is read now, from the start of the packet.
    pub fn layer_offset(&self) -> usize
        ensures { result ≡ self.now.layer_offset }
    {
        self.layer_offset
    }

    /// How many bytes of the layer were read.
    pub fn read_len(&self) -> usize
        ensures value { result ≡ self.now.read_len }
        ensures within { result ≤ self.now.max_len }
    {
        self.read_len
    }

    /// Starts a layer after the bytes that were read. The limit goes down by them, the offset up.
    pub fn start_layer(&mut self, layer: Layer)
        ensures { self.new ≡ at_next_layer self.old layer }
    {
        self.layer_offset += self.read_len;
        self.max_len -= self.read_len;
        self.read_len = 0;
        self.layer = layer;
    }

    /// The reader inside.
    pub fn take_reader(self) -> T
        ensures { result ≡ self.reader }
    {
        let LimitedReader {
            reader,
            max_len: _,
            len_source: _,
            layer: _,
            layer_offset: _,
            read_len: _,
        } = self;
        reader
    }
}

impl<T: Read> LimitedReader<T> {
    /// Fills `buf`. Refused with `Len`, and nothing is read, where the bytes that were read of the
    /// layer and those requested are more than the limit; with `Io` where a read fails or the
    /// reader ends, and then none of them count as read.
    pub fn read_exact(&mut self, buf: &mut [u8]) -> Result<(), LimitedReadError>
        ensures read { MatchResult result (λ _. Takes T.remaining self.old buf.new self.new)
            (λ e. Refuses self.old (length buf.old) e self.new) }
        ensures unread { self.old.max_len < self.old.read_len + length buf.old → buf.new ≡ buf.old }
    {
        if self.max_len - self.read_len < buf.len() {
            return Err(LimitedReadError::Len(LenError {
                required_len: self.read_len.saturating_add(buf.len()),
                len: self.max_len,
                len_source: self.len_source,
                layer: self.layer,
                layer_start_offset: self.layer_offset,
            }));
        }
        if let Err(error) = self.reader.read_exact(buf) {
            return Err(LimitedReadError::Io(error));
        }
        self.read_len += buf.len();
        Ok(())
    }
}
