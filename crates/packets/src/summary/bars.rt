//! Bars of block characters.

use std::fmt;

/// A bar that is so many eighths of a column long.
#[derive(Clone, Copy)]
pub(crate) struct Bar {
    pub eighths: u32,
}

/// It has no contract: tests compare the texts.
impl fmt::Display for Bar {
    fn fmt<W: fmt::Write>(&self, f: &mut fmt::Formatter<W>) -> fmt::Result {
        for _ in 0..self.eighths / 8 {
            f.write_str("█")?;
        }
        f.write_str(match self.eighths % 8 {
            0 => "",
            1 => "▏",
            2 => "▎",
            3 => "▍",
            4 => "▌",
            5 => "▋",
            6 => "▊",
            _ => "▉",
        })
    }
}

/// A column of one line's height, so many eighths of it high. It has no contract: tests compare the
/// texts.
pub(crate) fn column(eighths: u32) -> &'static str {
    match eighths {
        0 => " ",
        1 => "▁",
        2 => "▂",
        3 => "▃",
        4 => "▄",
        5 => "▅",
        6 => "▆",
        7 => "▇",
        _ => "█",
    }
}

/// How many of `steps` a part of a whole is, rounded up, so that no part above 0 has none. It has
/// no contract: tests compare the texts.
pub(crate) fn steps_of(part: u64, whole: u64, steps: u32) -> u32 {
    if part == 0 {
        return 0;
    }
    if part >= whole {
        return steps;
    }
    let scaled = u128::from(part).saturating_mul(u128::from(steps));
    let whole = u128::from(whole);
    let rounded = scaled.saturating_add(whole - 1) / whole;
    rounded.min(u128::from(steps)) as u32
}
