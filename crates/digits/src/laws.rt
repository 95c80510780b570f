//! Laws of digits: the contract of each function is the law, and its body is empty.

ghost use Rattle.std.specs.Prelude.{◌≡◌, ℕ, List, [], ◌∷◌, ◌++◌, codes, length};
ghost use Rattle.hex.specs.Hex.{IsBytes, decode_of, decode_sized, encode_lower};
ghost use Rattle.hex.specs.declared.error.FromHexError.TheVariants.{InvalidHexCharacter, OddLength};
ghost use Rattle.hex.specs.declared.error.FromHexError.TheVariants.{InvalidStringLength};

/// The digits of some bytes are decoded to those bytes.
pub fn digits_read_back()
    ensures { (bytes : List ℕ) → IsBytes bytes
        → decode_sized (encode_lower bytes) (length bytes) ≡ Ok bytes }
{}

/// Digits that are joined are decoded to their bytes joined.
pub fn texts_are_joined()
    ensures { (a b x y : List ℕ) → decode_of a ≡ Ok x → decode_of b ≡ Ok y
        → decode_of (a ++ b) ≡ Ok (x ++ y) }
{}

/// Some digits and their bytes, and some texts that are refused, one for each error.
pub fn worked_digits()
    ensures encoded { encode_lower (0x0a ∷ 0x90 ∷ 0xff ∷ []) ≡ codes "0a90ff" }
    ensures lower { decode_sized (codes "0a90ff") 3 ≡ Ok (0x0a ∷ 0x90 ∷ 0xff ∷ []) }
    ensures upper { decode_sized (codes "0A90Ff") 3 ≡ Ok (0x0a ∷ 0x90 ∷ 0xff ∷ []) }
    ensures no_digit { decode_sized (codes "0a9g") 2 ≡ Err (InvalidHexCharacter 103 3) }
    ensures odd { decode_sized (codes "0a9") 1 ≡ Err OddLength }
    ensures other_length { decode_sized (codes "0a9g") 1 ≡ Err InvalidStringLength }
{}
