//! Which packets are shown or counted.
ghost use Rattle.std.specs.Prelude.{◌≡◌, ◌++◌, ◌∷◌, [], OnOk, OnErr};

use crate::{Condition, Dissection, Expression};
use std::alloc::{AllocError, Global};

/// The expressions that a packet has to meet to be shown or counted.
#[derive(Debug, Drop)]
pub struct Filter {
    expressions: Vec<Expression>,
}

impl Filter {
    ghost use Rattle.packets.specs.Expressions.{expressions_of, lets_through};
    ghost use Rattle.packets.specs.declared.expression.Expression.TheVariants as expression;

    /// Lets every packet through. It takes no memory.
    pub fn new(alloc: Global) -> Filter
        ensures { expressions_of result ≡ [] }
    {
        Filter {
            expressions: Vec::new(alloc),
        }
    }

    /// Lets only packets through that meet this condition too.
    pub fn add(&mut self, condition: Condition) -> Result<(), AllocError>
        ensures ok { OnOk result (expressions_of self.new
            ≡ expressions_of self.old ++ expression.Test condition ∷ []) }
        ensures err { OnErr result (expressions_of self.new ≡ expressions_of self.old) }
    {
        self.add_expression(Expression::Test(condition))
    }

    /// Lets only packets through that meet this expression too.
    pub fn add_expression(&mut self, expression: Expression) -> Result<(), AllocError>
        ensures ok { OnOk result (expressions_of self.new
            ≡ expressions_of self.old ++ expression ∷ []) }
        ensures err { OnErr result (expressions_of self.new ≡ expressions_of self.old) }
    {
        self.expressions.push(expression)?;
        Ok(())
    }

    /// Whether a packet meets all expressions.
    pub fn matches(&self, dissection: &Dissection<'_>) -> bool
        ensures { result ≡ lets_through self.now dissection.now }
    {
        self.expressions
            .iter()
            .all(|expression| expression.holds(dissection))
    }
}
