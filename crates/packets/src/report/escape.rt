//! Texts in a page.
ghost use Rattle.std.specs.Prelude.{◌≡◌, ◌++◌, OnOk};
ghost use Rattle.packets.specs.Escaped.{escaped, reference_of};

use std::alloc::AllocError;

/// Appends a text as it stands in HTML, between tags and in attributes: with a character reference in
/// place of each `<`, `>`, `&`, `"` and `'` and of each carriage return. Browsers drop a byte 0, which no
/// name of a file has.
pub fn append_escaped(text: &[u8], out: &mut Vec<u8>) -> Result<(), AllocError>
    ensures { OnOk result (out.new.items ≡ out.old.items ++ escaped text.now) }
{
    for byte in text {
        append_reference(*byte, out)?;
    }
    Ok(())
}

fn append_reference(byte: u8, out: &mut Vec<u8>) -> Result<(), AllocError>
    ensures { OnOk result (out.new.items ≡ out.old.items ++ reference_of byte) }
{
    match byte {
        b'<' => out.extend_from_slice(b"&lt;"),
        b'>' => out.extend_from_slice(b"&gt;"),
        b'&' => out.extend_from_slice(b"&amp;"),
        b'"' => out.extend_from_slice(b"&quot;"),
        b'\'' => out.extend_from_slice(b"&#39;"),
        b'\r' => out.extend_from_slice(b"&#13;"),
        _ => out.extend_from_slice(&[byte]),
    }
}
