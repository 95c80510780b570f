//! What `Clone` and `PartialEq` of the types here mean, lines of bytes, and relative numbers.
ghost use Rattle.std.specs.Prelude.{◌≡◌, ◌∷◌, ◌++◌, [], codes};
ghost use Rattle.ep_base.specs.Traits.{IsPlainData};
ghost use Rattle.header_descriptions.specs.ByteLines.{byte_line, offset_text};
ghost use Rattle.header_descriptions.specs.RelativeNumbers.{relative};

use crate::Protocol;
use crate::show::tcp::InitialNumbers;
use crate::show::{Style, TimeForm, Tone};
use ep_base::laws::traits::Value;

/// A copy is the value and takes no memory. Equal are the values that are the same.
pub fn types_are_plain_data()
    ensures initial_numbers { IsPlainData ⟦<InitialNumbers as Value>⟧ }
    ensures protocol { IsPlainData ⟦<Protocol as Value>⟧ }
    ensures style { IsPlainData ⟦<Style as Value>⟧ }
    ensures time_form { IsPlainData ⟦<TimeForm as Value>⟧ }
    ensures tone { IsPlainData ⟦<Tone as Value>⟧ }
{}

/// How far numbers are from an initial one, also past the greatest number of 32 bits.
pub fn relative_numbers()
    ensures same { relative 1000 1000 ≡ 0 }
    ensures later { relative 1001 1000 ≡ 1 }
    ensures around { (relative 0 4_294_967_295 ≡ 1) × (relative 4 4_294_967_290 ≡ 10) }
    ensures earlier { relative 999 1000 ≡ 4_294_967_295 }
    ensures none { relative 1000 0 ≡ 1000 }
{}

/// Lines as `tcpdump` 4.99 writes them with `-X`: a last one of five bytes, and offsets.
pub fn lines_of_bytes()
    ensures line { byte_line 32 (0x7f ∷ 0x80 ∷ 0x21 ∷ 0x27 ∷ 0x39 ∷ [])
        ≡ 9 ∷ codes "0x0020:  7f80 2127 39                             ..!'9" ++ 10 ∷ [] }
    ensures short { offset_text 16 ≡ codes "0010" }
    ensures four_digits { offset_text 0xffff ≡ codes "ffff" }
    ensures long { offset_text 0x100e0 ≡ codes "100e0" }
    ensures mebibyte { offset_text 0x100000 ≡ codes "100000" }
    ensures ten_digits { offset_text 0x123456789a ≡ codes "123456789a" }
{}
