//! A line that is being written.

use crate::show::style::{Style, Tone};
use itoa::Buffer;
use std::alloc::AllocError;

/// The sequence that ends a tone.
const RESET: &[u8; 4] = b"\x1b[0m";

/// A line that is being written after the bytes of `out`. A text is cut by its bytes, so it should
/// be ASCII.
#[derive(Drop)]
pub struct Line<'o> {
    out: &'o mut Vec<u8>,
    style: Style,
    // How many columns are left.
    left: usize,
}

impl<'o> Line<'o> {
    /// Begins a line of this style, of so many columns at most if it is cut. It has no contract:
    /// tests compare the texts.
    pub fn begin(style: Style, width: Option<usize>, out: &'o mut Vec<u8>) -> Line<'o> {
        Line {
            out,
            style,
            left: width.unwrap_or(usize::MAX),
        }
    }

    /// Writes what fits into the columns that are left. It has no contract: tests compare the
    /// texts.
    pub fn text(&mut self, text: &str) -> Result<(), AllocError> {
        self.bytes(text.as_bytes())
    }

    /// A text in ASCII, as [`Line::text`]. It has no contract: tests compare the texts.
    pub fn bytes(&mut self, bytes: &[u8]) -> Result<(), AllocError> {
        let shown = match bytes.get(..self.left) {
            Some(leading) => leading,
            None => bytes,
        };
        self.left = self.left.saturating_sub(shown.len());
        self.out.extend_from_slice(shown)
    }

    /// A number in decimal. It has no contract: tests compare the texts.
    pub fn number(&mut self, n: u64) -> Result<(), AllocError> {
        self.text(Buffer::new().format(n))
    }

    /// A word and a number after it. It has no contract: tests compare the texts.
    pub fn counted(&mut self, word: &str, n: u64) -> Result<(), AllocError> {
        self.text(word)?;
        self.number(n)
    }

    /// A number of 16 bits in hex, as ether types and identifications are written. It has no
    /// contract: tests compare the texts.
    pub fn hex16(&mut self, n: u16) -> Result<(), AllocError> {
        self.text("0x")?;
        for byte in n.to_be_bytes() {
            self.hex(byte)?;
        }
        Ok(())
    }

    /// The two hex digits of a byte. It has no contract: tests compare the texts.
    pub fn hex(&mut self, byte: u8) -> Result<(), AllocError> {
        self.text(digit(byte / 16))?;
        self.text(digit(byte % 16))
    }

    /// So many spaces. It has no contract: tests compare the texts.
    pub fn spaces(&mut self, count: usize) -> Result<(), AllocError> {
        const SPACES: &str = "                ";
        if let Some(spaces) = SPACES.get(..count) {
            return self.text(spaces);
        }
        for _ in 0..count {
            self.text(" ")?;
        }
        Ok(())
    }

    /// What follows is in a tone, where the line has colours. It has no contract: tests compare the
    /// texts.
    pub fn begin_tone(&mut self, tone: Tone) -> Result<(), AllocError> {
        match self.style {
            Style::Plain => Ok(()),
            Style::Ansi => self.out.extend_from_slice(tone.sequence()),
        }
    }

    /// What follows is in no tone. It has no contract: tests compare the texts.
    pub fn end_tone(&mut self) -> Result<(), AllocError> {
        match self.style {
            Style::Plain => Ok(()),
            Style::Ansi => self.out.extend_from_slice(RESET),
        }
    }

    /// A text in a tone. It has no contract: tests compare the texts.
    pub fn toned(&mut self, tone: Tone, text: &str) -> Result<(), AllocError> {
        self.begin_tone(tone)?;
        self.text(text)?;
        self.end_tone()
    }
}

/// That a message has fewer bytes than it needs. It has no contract: tests compare the texts.
pub(crate) fn cut_off(
    line: &mut Line<'_>,
    needed_len: usize,
    actual_len: usize,
) -> Result<(), AllocError> {
    line.counted(", cut off: ", needed_len as u64)?;
    line.counted(" bytes needed, ", actual_len as u64)?;
    line.text(" there")
}

/// The hex digit of a number below 16.
pub(crate) fn digit(value: u8) -> &'static str {
    const DIGITS: &str = "0123456789abcdef";
    let at = usize::from(value % 16);
    DIGITS.get(at..at + 1).unwrap_or("0")
}
