// What an aggregate folds, from its tokens.

ghost use Rattle.std.specs.Prelude.{◌≡◌, ◌≤◌, pos, neg_ℤ, length, OnOk, IfOk};
ghost use Rattle.star_query.specs.{Private.Reads.{spot_of, No, ReadsOperand, ReadsFactor, ReadsTerm, ReadsExpr, NoTimes, NoOperator}, Maxima.most_nestings, Views.expression_view, Private.Phrases.sum_or_difference};
ghost use Rattle.star_query.specs.Symbols as symbols;
ghost use Rattle.star_query.specs.Tree as tree;

use crate::counts::Part;
use crate::fault::ParseError;
use crate::parser::Parser;
use crate::token::{Additive, Digits, Sign};
use crate::tree::{Expression, Name};
use std::alloc::{AllocError, Global};

impl<'a> Parser<'a> {
    // name | [-] number
    fn operand(&mut self) -> Result<Expression<Name>, ParseError>
        requires { No (symbols.sign Sign.Open) (spot_of self.old) }
        ensures reads { ReadsOperand (spot_of self.old) (spot_of self.new) result }
        ensures shorter { length self.new.rest.now ≤ length self.old.rest.now }
    {
        if self.is_name() {
            let name = self.counted_name(Part::Operand)?;
            return Ok(Expression::Column(name));
        }
        if self.take(Additive::Minus) {
            let number = self.counted_number(Part::Operand)?;
            return Ok(negative(number));
        }
        let digits = self.counted_number(Part::Operand)?;
        Ok(constant(digits))
    }

    // name | [-] number | ( expr )
    #[cycle(expression)]
    fn factor(&mut self, depth: u32) -> Result<Expression<Name>, ParseError>
        requires { depth ≤ most_nestings }
        ensures reads { ReadsFactor depth (spot_of self.old) (spot_of self.new) result }
        ensures shorter { length self.new.rest.now ≤ length self.old.rest.now }
    {
        let opened = self.nest(Sign::Open, None, depth)?;
        if opened {
            let inner = self.expression(depth + 1)?;
            self.expect(Sign::Close)?;
            return Ok(inner);
        }
        self.operand()
    }

    // factor {* factor}
    #[cycle(expression)]
    fn term(&mut self, depth: u32) -> Result<Expression<Name>, ParseError>
        requires { depth ≤ most_nestings }
        ensures reads { ReadsTerm depth (spot_of self.old) (spot_of self.new) result }
        ensures ends { OnOk result (NoTimes (spot_of self.new)) }
        ensures shorter { length self.new.rest.now ≤ length self.old.rest.now }
    {
        let mut product = self.factor(depth)?;
        while self.take(Sign::Star) {
            let next = self.factor(depth)?;
            product = Expression::Mul(Box::new(self.alloc, product)?, Box::new(self.alloc, next)?);
        }
        Ok(product)
    }

    // term {+ term | - term}
    #[cycle(expression)]
    pub(crate) fn expression(&mut self, depth: u32) -> Result<Expression<Name>, ParseError>
        requires { depth ≤ most_nestings }
        ensures reads { ReadsExpr depth (spot_of self.old) (spot_of self.new) result }
        ensures ends { OnOk result (NoOperator (spot_of self.new)) }
        ensures shorter { length self.new.rest.now ≤ length self.old.rest.now }
    {
        let mut sum = self.term(depth)?;
        while let Some(sign) = self.take_any::<Additive>() {
            let next = self.term(depth)?;
            sum = joined(self.alloc, sum, sign, next)?;
        }
        Ok(sum)
    }
}

// A sum or a difference.
fn joined(
    alloc: Global,
    a: Expression<Name>,
    sign: Additive,
    b: Expression<Name>,
) -> Result<Expression<Name>, AllocError>
    ensures { IfOk result (λ sum. expression_view sum
        ≡ sum_or_difference sign (expression_view a) (expression_view b)) }
{
    let a = Box::new(alloc, a)?;
    let b = Box::new(alloc, b)?;
    Ok(match sign {
        Additive::Plus => Expression::Add(a, b),
        Additive::Minus => Expression::Sub(a, b),
    })
}

fn constant(digits: Digits) -> Expression<Name>
    ensures { expression_view result ≡ tree.constant (pos digits.value) }
{
    Expression::Number(digits.value as i64)
}

fn negative(digits: Digits) -> Expression<Name>
    ensures { expression_view result ≡ tree.constant (neg_ℤ (pos digits.value)) }
{
    Expression::Number(-(digits.value as i64))
}
