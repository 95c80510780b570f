//! The words of a line, apart from those that `line_grammar` reads.
ghost use Rattle.std.specs.Prelude.{◌≡◌, position};
ghost use Rattle.std.specs.Char.{is_ascii_digit};
ghost use Rattle.std.specs.List.{list_all};
ghost use Rattle.line_grammar.specs.Commands.{is_space};
ghost use Rattle.line_grammar.specs.TimedLines.{number_of_digits, third_space};
ghost use Rattle.captures.specs.CapturedFrames.{sixth_space};

/// The index of the third space, which comes before a time.
pub(crate) fn third_space(text: &[u8]) -> Option<usize>
    ensures { result ≡ third_space text.now }
{
    let first = space_in(text)?;
    let second = first + 1 + space_in(&text[first + 1..])?;
    Some(second + 1 + space_in(&text[second + 1..])?)
}

/// The index of the sixth space, which comes before a length on the wire.
pub(crate) fn sixth_space(line: &[u8]) -> Option<usize>
    ensures { result ≡ sixth_space line.now }
{
    let space = third_space(line)?;
    Some(space + 1 + third_space(&line[space + 1..])?)
}

fn space_in(text: &[u8]) -> Option<usize>
    ensures { result ≡ position is_space text.now }
{
    text.iter().position(|byte| *byte == b' ')
}

/// The number of one to ten decimal digits, if 32 bits hold it.
pub(crate) fn number(digits: &[u8]) -> Option<u32>
    ensures { result ≡ number_of_digits digits.now }
{
    if digits.is_empty() || digits.len() > 10 || !is_decimal(digits) {
        return None;
    }
    str::from_utf8(digits).ok()?.parse().ok()
}

fn is_decimal(text: &[u8]) -> bool
    ensures { result ≡ list_all is_ascii_digit text.now }
{
    text.iter().all(|byte| byte.is_ascii_digit())
}
