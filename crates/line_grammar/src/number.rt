//! Decimal numbers, which are read digit by digit.
ghost use Rattle.std.specs.Prelude.{◌≡◌, ◌≤◌, ◌++◌, ◌∷◌, ℕ, List, [], true, IfSome, MatchOption};
ghost use Rattle.std.specs.Char.{is_ascii_digit};
ghost use Rattle.line_grammar.specs.Numbers.{GoesOn, IsTooLarge, NoDigit, ReadsNumber};

/// A number of which some digits are read.
#[derive(Clone, Copy)]
pub struct Number {
    pub value: u64,
    /// The digits, leading zeros too.
    pub count: usize,
}

/// A number, and the bytes after its digits.
#[derive(Drop)]
pub struct DigitRun<'b> {
    pub number: Number,
    pub rest: &'b [u8],
}

impl Number {
    /// No digit is read.
    pub fn new() -> Number
        ensures number { ReadsNumber [] result }
        ensures count { result.count ≡ 0 }
    {
        Number { value: 0, count: 0 }
    }

    /// Goes on with the digits that these bytes start with. A number that gets more than `most`
    /// digits, or doesn't fit 64 bits, is `None`.
    pub fn take(self, most: usize, bytes: &[u8]) -> Option<DigitRun<'_>>
        requires { self.count ≤ most }
        ensures reads { (digits : List ℕ) → ReadsNumber digits self → MatchOption result
            (IsTooLarge most (digits ++ bytes.now))
            (λ run. GoesOn digits bytes.now run.number run.rest.now
            × NoDigit run.rest.now) }
        ensures few { IfSome result (λ run. run.number.count ≤ most) }
    {
        let mut number = self;
        let mut rest = bytes;
        'digits: while let Some((byte, later)) = rest.split_first() {
            if !byte.is_ascii_digit() {
                break;
            }
            let Some(next) = number.with_digit(*byte, most) else {
                return None;
            };
            number = next;
            rest = later;
        }
        Some(DigitRun { number, rest })
    }

    // One digit more.
    fn with_digit(self, digit: u8, most: usize) -> Option<Number>
        requires { is_ascii_digit digit ≡ true }
        ensures reads { (digits : List ℕ) → ReadsNumber digits self → MatchOption result
            ((rest : List ℕ) → IsTooLarge most (digits ++ digit ∷ rest))
            (λ next. ReadsNumber (digits ++ digit ∷ []) next) }
        ensures few { IfSome result (λ next. next.count ≤ most) }
    {
        if self.count >= most {
            return None;
        }
        let Some(tens) = self.value.checked_mul(10) else {
            return None;
        };
        let Some(value) = tens.checked_add(u64::from(digit - b'0')) else {
            return None;
        };
        Some(Number {
            value,
            count: self.count + 1,
        })
    }
}
