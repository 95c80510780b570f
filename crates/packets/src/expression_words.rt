//! The words of an expression in a text.

pub(crate) mod conditions;
pub(crate) mod errors;
pub(crate) mod near;

use crate::expression_words::conditions::{
    Comparison, Key, comparison_of, condition_of, key_of, no_value_of, word_of,
};
use crate::expression_words::errors::{ExpressionError, ExpressionFault};
use crate::expression_words::near::nearest;
use crate::{Condition, Expression, GrammarError, Protocol, Word};
use std::alloc::{AllocError, Global};
use std::str;

/// The words of a text.
#[derive(Drop)]
pub struct Words {
    words: Vec<Word>,
    // The columns where they begin, and that after the text.
    columns: Vec<usize>,
    waiting: Option<Waiting>,
}

// A word whose value comes next.
#[derive(Clone, Copy)]
struct Waiting {
    key: Key,
    column: usize,
    comparison: Option<Comparison>,
}

impl Words {
    /// The words of a text. It has no contract: tests compare the expressions, and what is wrong.
    pub fn of<'t>(alloc: Global, text: &'t str) -> Result<Words, ExpressionError<'t>> {
        let Ok(parts) = parts_of(alloc, text) else {
            return Err(ExpressionError::Memory);
        };
        let mut words = Words {
            words: Vec::new(alloc),
            columns: Vec::new(alloc),
            waiting: None,
        };
        for (start, end) in parts.as_slice() {
            words.take(column_at(*start), text_between(text, *start, *end))?;
        }
        words.end(column_at(text.len()))?;
        Ok(words)
    }

    /// Whether one of them is this condition. It has no contract: tests compare what is refused
    /// beside `--no-checksums`.
    pub fn have(&self, condition: Condition) -> bool {
        self.words.iter().any(|word| matches!(word, Word::Test(other) if *other == condition))
    }

    /// The expression that they write. It has no contract: [`Expression::of`] has one, and the column
    /// of what is wrong is compared by tests.
    pub fn expression<'t>(&self, alloc: Global) -> Result<Expression, ExpressionError<'t>> {
        match Expression::of(alloc, self.words.as_slice()) {
            Ok(expression) => Ok(expression),
            Err(GrammarError::NoCondition(left)) => Err(self.fault(
                left,
                ExpressionFault::NoCondition,
            )),
            Err(GrammarError::NoOperator(left)) => Err(self.fault(
                left,
                ExpressionFault::NoOperator,
            )),
            Err(GrammarError::Unclosed(left)) => Err(self.fault(left, ExpressionFault::Unclosed)),
            Err(GrammarError::Unopened(left)) => Err(self.fault(left, ExpressionFault::Unopened)),
            Err(GrammarError::TooDeep(left)) => Err(self.fault(left, ExpressionFault::TooDeep)),
            Err(GrammarError::Memory) => Err(ExpressionError::Memory),
        }
    }

    // What is wrong where so many words are left.
    fn fault<'t>(&self, left: usize, fault: ExpressionFault<'t>) -> ExpressionError<'t> {
        let index = self.words.len().saturating_sub(left);
        let column = self.columns.get(index).copied().unwrap_or(1);
        ExpressionError::Fault(column, fault)
    }

    fn take<'t>(&mut self, column: usize, part: &'t str) -> Result<(), ExpressionError<'t>> {
        let Some(waiting) = self.waiting else {
            return self.begin(column, part);
        };
        match (waiting.comparison, comparison_of(part)) {
            (None, Some(comparison)) => {
                self.waiting = Some(Waiting {
                    key: waiting.key,
                    column: waiting.column,
                    comparison: Some(comparison),
                });
                Ok(())
            }
            (None, None) if waiting.key == Key::Vlan && !begins_with_digit(part) => {
                self.waiting = None;
                self.push(
                    waiting.column,
                    Word::Test(Condition::Protocol(Protocol::Vlan)),
                )?;
                self.begin(column, part)
            }
            (comparison, _) => {
                self.waiting = None;
                let comparison = comparison.unwrap_or(Comparison::Equal);
                match condition_of(waiting.key, comparison, part) {
                    Ok(condition) => self.push(waiting.column, Word::Test(condition)),
                    Err(error) => {
                        let fault = ExpressionFault::Value(error);
                        Err(ExpressionError::Fault(column, fault))
                    }
                }
            }
        }
    }

    // Takes a part that is no value.
    fn begin<'t>(&mut self, column: usize, part: &'t str) -> Result<(), ExpressionError<'t>> {
        if let Some(key) = key_of(part) {
            self.waiting = Some(Waiting {
                key,
                column,
                comparison: None,
            });
            return Ok(());
        }
        match word_of(part) {
            Some(word) => self.push(column, word),
            None => {
                let fault = ExpressionFault::Unknown(part, nearest(part));
                Err(ExpressionError::Fault(column, fault))
            }
        }
    }

    // Ends a text before this column.
    fn end<'t>(&mut self, column: usize) -> Result<(), ExpressionError<'t>> {
        if let Some(waiting) = self.waiting {
            if waiting.key != Key::Vlan || waiting.comparison.is_some() {
                let fault = ExpressionFault::Value(no_value_of(waiting.key));
                return Err(ExpressionError::Fault(column, fault));
            }
            self.push(
                waiting.column,
                Word::Test(Condition::Protocol(Protocol::Vlan)),
            )?;
        }
        match self.columns.push(column) {
            Ok(()) => Ok(()),
            Err(_) => Err(ExpressionError::Memory),
        }
    }

    fn push<'t>(&mut self, column: usize, word: Word) -> Result<(), ExpressionError<'t>> {
        if self.words.push(word).is_err() || self.columns.push(column).is_err() {
            return Err(ExpressionError::Memory);
        }
        Ok(())
    }
}

// The column of an offset.
fn column_at(offset: usize) -> usize {
    offset.saturating_add(1)
}

#[derive(Clone, Copy, PartialEq, Eq)]
enum Class {
    Space,
    Alone,
    Comparison,
    Or,
    And,
    Other,
}

fn class_of(byte: u8) -> Class {
    match byte {
        b' ' | b'\t' | b'\n' | b'\r' => Class::Space,
        b'(' | b')' | b'!' => Class::Alone,
        b'=' | b'<' | b'>' => Class::Comparison,
        b'|' => Class::Or,
        b'&' => Class::And,
        _ => Class::Other,
    }
}

// Where the parts of a text begin and end: bytes of one class in a row, but for spaces.
fn parts_of(alloc: Global, text: &str) -> Result<Vec<(usize, usize)>, AllocError> {
    let mut parts = Vec::new(alloc);
    let mut start = 0;
    let mut class = Class::Space;
    for (offset, byte) in text.as_bytes().iter().enumerate() {
        let next = class_of(*byte);
        if next != class || class == Class::Alone {
            if class != Class::Space {
                parts.push((start, offset))?;
            }
            start = offset;
            class = next;
        }
    }
    if class != Class::Space {
        parts.push((start, text.len()))?;
    }
    Ok(parts)
}

// Parts begin and end at characters.
fn text_between(text: &str, start: usize, end: usize) -> &str {
    match text.as_bytes().get(start..end) {
        Some(bytes) => str::from_utf8(bytes).unwrap_or(""),
        None => "",
    }
}

fn begins_with_digit(part: &str) -> bool {
    match part.as_bytes().first() {
        Some(byte) => byte.is_ascii_digit(),
        None => false,
    }
}
