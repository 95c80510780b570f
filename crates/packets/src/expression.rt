//! Conditions joined by "and", "or" and "not".
ghost use Rattle.std.specs.Prelude.{◌≡◌, ◌∷◌, [], IfOk, IsOkAnd};
ghost use Rattle.packets.specs.Expressions.{Reads, formula_of};
ghost use Rattle.packets.specs.Expressions.Formula.{And, Not, Or, Test};
ghost use Rattle.packets.specs.Expressions.Part.{Alternatives, Joint, Single};
ghost use Rattle.packets.specs.declared.condition.Condition.{Condition};
ghost use Rattle.packets.specs.declared.expression.Word.TheVariants as word;

use crate::{Condition, Dissection};
use std::alloc::Global;

/// A condition, or several joined.
#[derive(Debug, Drop)]
pub enum Expression {
    /// The condition holds.
    Test(Condition),
    /// It doesn't hold.
    Not(Box<Expression>),
    /// Both hold.
    And(Box<Expression>, Box<Expression>),
    /// One of them holds, or both.
    Or(Box<Expression>, Box<Expression>),
}

/// A word of an expression.
#[derive(Clone, Copy, Debug, PartialEq, Eq)]
pub enum Word {
    /// A condition.
    Test(Condition),
    /// `not`, which binds tighter than `and`.
    Not,
    /// `and`, which binds tighter than `or`.
    And,
    /// `or`
    Or,
    /// `(`
    Open,
    /// `)`
    Close,
}

/// Why words are no expression. The number is that of the words from the place of the fault on.
#[derive(Clone, Copy, Debug, PartialEq, Eq)]
pub enum GrammarError {
    /// A condition is missing here.
    NoCondition(usize),
    /// `and` or `or` is missing here.
    NoOperator(usize),
    /// This parenthesis isn't closed.
    Unclosed(usize),
    /// This parenthesis closes none.
    Unopened(usize),
    /// Here it has more than [`LEVELS`] levels.
    TooDeep(usize),
    /// There is no memory for the expression.
    Memory,
}

/// How many levels an expression has at most: each word but a condition and `)` takes what follows
/// it one level deeper.
pub const LEVELS: u32 = 256;

impl Expression {
    ghost use Rattle.packets.specs.Expressions.{IsWritten, formula_of, meets};
    ghost use Rattle.packets.specs.Expressions.Formula.{Test};
    ghost use Rattle.packets.specs.Expressions.Part.{Alternatives};
    ghost use Rattle.packets.specs.declared.condition.Condition.{Condition};
    ghost use Rattle.packets.specs.declared.expression.Word.TheVariants as word;

    /// Whether a packet meets it.
    pub fn holds(&self, dissection: &Dissection<'_>) -> bool
        ensures { result ≡ meets (formula_of self.now) dissection.now }
    {
        match self {
            Expression::Test(condition) => condition.holds(dissection),
            Expression::Not(inner) => !inner.holds(dissection),
            Expression::And(first, second) => first.holds(dissection) && second.holds(dissection),
            Expression::Or(first, second) => first.holds(dissection) || second.holds(dissection),
        }
    }

    /// The expression that words write. A single condition is always read.
    pub fn of(alloc: Global, words: &[Word]) -> Result<Expression, GrammarError>
        ensures written { IfOk result (λ e. IsWritten Alternatives words.now (formula_of e)) }
        ensures condition { (condition : Condition) → words.now ≡ word.Test condition ∷ []
            → IsOkAnd result (λ e. formula_of e ≡ Test condition) }
    {
        let (expression, rest) = read_alternatives(alloc, words, LEVELS)?;
        match rest.first() {
            None => Ok(expression),
            Some(Word::Close) => Err(GrammarError::Unopened(rest.len())),
            Some(_) => Err(GrammarError::NoOperator(rest.len())),
        }
    }
}

// What "or" joins at the start of words, and the words after it.
#[cycle(grammar)]
fn read_alternatives<'w>(
    alloc: Global,
    words: &'w [Word],
    levels: u32,
) -> Result<(Expression, &'w [Word]), GrammarError>
    ensures reads { IfOk result (λ r. Reads Alternatives words.now r.1.now (formula_of r.0)) }
    ensures alone { (condition : Condition) → words.now ≡ word.Test condition ∷ []
        → IsOkAnd result (λ r. (formula_of r.0 ≡ Test condition) × (r.1.now ≡ [])) }
{
    let (first, after) = read_joint(alloc, words, levels)?;
    match after.split_first() {
        Some((Word::Or, later)) => {
            if levels == 0 {
                return Err(GrammarError::TooDeep(after.len()));
            }
            let (second, rest) = read_alternatives(alloc, later, levels - 1)?;
            Ok((either(alloc, first, second)?, rest))
        }
        _ => Ok((first, after)),
    }
}

// What "and" joins at the start of words, and the words after it.
#[cycle(grammar)]
fn read_joint<'w>(
    alloc: Global,
    words: &'w [Word],
    levels: u32,
) -> Result<(Expression, &'w [Word]), GrammarError>
    ensures reads { IfOk result (λ r. Reads Joint words.now r.1.now (formula_of r.0)) }
    ensures alone { (condition : Condition) → words.now ≡ word.Test condition ∷ []
        → IsOkAnd result (λ r. (formula_of r.0 ≡ Test condition) × (r.1.now ≡ [])) }
{
    let (first, after) = read_single(alloc, words, levels)?;
    match after.split_first() {
        Some((Word::And, later)) => {
            if levels == 0 {
                return Err(GrammarError::TooDeep(after.len()));
            }
            let (second, rest) = read_joint(alloc, later, levels - 1)?;
            Ok((both(alloc, first, second)?, rest))
        }
        _ => Ok((first, after)),
    }
}

// A condition, alone, after "not" or in parentheses, at the start of words, and the words after it.
#[cycle(grammar)]
fn read_single<'w>(
    alloc: Global,
    words: &'w [Word],
    levels: u32,
) -> Result<(Expression, &'w [Word]), GrammarError>
    ensures reads { IfOk result (λ r. Reads Single words.now r.1.now (formula_of r.0)) }
    ensures alone { (condition : Condition) → words.now ≡ word.Test condition ∷ []
        → IsOkAnd result (λ r. (formula_of r.0 ≡ Test condition) × (r.1.now ≡ [])) }
{
    let Some((word, later)) = words.split_first() else {
        return Err(GrammarError::NoCondition(0));
    };
    match *word {
        Word::Test(condition) => Ok((Expression::Test(condition), later)),
        Word::Not => {
            if levels == 0 {
                return Err(GrammarError::TooDeep(words.len()));
            }
            let (inner, rest) = read_single(alloc, later, levels - 1)?;
            Ok((negated(alloc, inner)?, rest))
        }
        Word::Open => {
            if levels == 0 {
                return Err(GrammarError::TooDeep(words.len()));
            }
            let (inner, after) = read_alternatives(alloc, later, levels - 1)?;
            match after.split_first() {
                Some((Word::Close, rest)) => Ok((inner, rest)),
                Some(_) => Err(GrammarError::NoOperator(after.len())),
                None => Err(GrammarError::Unclosed(words.len())),
            }
        }
        _ => Err(GrammarError::NoCondition(words.len())),
    }
}

fn negated(alloc: Global, inner: Expression) -> Result<Expression, GrammarError>
    ensures { IfOk result (λ e. formula_of e ≡ Not (formula_of inner)) }
{
    match Box::new(alloc, inner) {
        Ok(inner) => Ok(Expression::Not(inner)),
        Err(_) => Err(GrammarError::Memory),
    }
}

fn both(alloc: Global, first: Expression, second: Expression) -> Result<Expression, GrammarError>
    ensures { IfOk result (λ e. formula_of e ≡ And (formula_of first) (formula_of second)) }
{
    let Ok(first) = Box::new(alloc, first) else {
        return Err(GrammarError::Memory);
    };
    match Box::new(alloc, second) {
        Ok(second) => Ok(Expression::And(first, second)),
        Err(_) => Err(GrammarError::Memory),
    }
}

fn either(alloc: Global, first: Expression, second: Expression) -> Result<Expression, GrammarError>
    ensures { IfOk result (λ e. formula_of e ≡ Or (formula_of first) (formula_of second)) }
{
    let Ok(first) = Box::new(alloc, first) else {
        return Err(GrammarError::Memory);
    };
    match Box::new(alloc, second) {
        Ok(second) => Ok(Expression::Or(first, second)),
        Err(_) => Err(GrammarError::Memory),
    }
}
