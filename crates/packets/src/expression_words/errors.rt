//! What is wrong with an expression in a text.

use std::fmt;
use thiserror::Error;

/// Why a word is no condition.
#[derive(Clone, Copy, Debug, PartialEq, Eq, Error)]
pub enum WordError {
    /// It is the name of no protocol, and none of the other words.
    #[error("no condition")]
    Unknown,
    /// What follows `host` is no IP address.
    #[error("no IP address after `host`")]
    Address,
    /// What follows `net` is no network.
    #[error("no network after `net`, as 10.0.0.0/8")]
    Network,
    /// What follows `src` or `dst` is no IP address and no network.
    #[error("no IP address and no network after `src` or `dst`")]
    AddressOrNetwork,
    /// Bits of the address after the prefix of a network are not 0.
    #[error("bits after the prefix are not 0")]
    BitsAfterPrefix,
    /// What follows `port` is no number up to 65535, and no range of them.
    #[error("no number up to 65535, and no range, after `port`")]
    Port,
    /// What follows `len` is no number up to 4294967295, and no range of them.
    #[error("no number up to 4294967295, and no range, after `len`")]
    WireLen,
    /// What follows `vlan` is no number up to 4095, and no range of them.
    #[error("no number up to 4095, and no range, after `vlan`")]
    VlanId,
    /// What follows `frame` is no number, and no range of them.
    #[error("no number, and no range, after `frame`")]
    Number,
    /// The last number of a range is below the first.
    #[error("the range ends before it begins")]
    Backwards,
    /// Addresses and networks are at least or at most nothing.
    #[error("only `=` comes before an address or a network")]
    Comparison,
}

/// What is wrong at a place of a text.
#[derive(Debug, Drop)]
pub enum ExpressionFault<'t> {
    /// This is no word of an expression. Perhaps another one is meant.
    Unknown(&'t str, Option<&'static str>),
    /// This is no value of the word before.
    Value(WordError),
    /// A condition is missing.
    NoCondition,
    /// `and` or `or` is missing.
    NoOperator,
    /// The parenthesis isn't closed.
    Unclosed,
    /// The parenthesis closes none.
    Unopened,
    /// There are more than [`LEVELS`](crate::LEVELS) levels.
    TooDeep,
}

/// Why a text is no expression.
#[derive(Debug, Drop)]
pub enum ExpressionError<'t> {
    /// This is wrong at this column, counted from 1.
    Fault(usize, ExpressionFault<'t>),
    /// There is no memory for it.
    Memory,
}

impl fmt::Display for ExpressionFault<'_> {
    fn fmt<W: fmt::Write>(&self, f: &mut fmt::Formatter<W>) -> fmt::Result {
        match self {
            ExpressionFault::Unknown(word, None) => write!(f, "no condition \"{word}\""),
            ExpressionFault::Unknown(word, Some(name)) => {
                write!(f, "no condition \"{word}\" (is \"{name}\" meant?)")
            }
            ExpressionFault::Value(error) => write!(f, "{error}"),
            ExpressionFault::NoCondition => f.write_str("a condition is missing"),
            ExpressionFault::NoOperator => f.write_str("\"and\" or \"or\" is missing"),
            ExpressionFault::Unclosed => f.write_str("\"(\" is not closed"),
            ExpressionFault::Unopened => f.write_str("\")\" closes nothing"),
            ExpressionFault::TooDeep => f.write_str("more than 256 levels"),
        }
    }
}
