// The condition of WHERE, from its tokens.

ghost use Rattle.std.specs.Prelude.{◌≡◌, ◌≤◌, pos, neg_ℤ, length, OnOk, IfOk};
ghost use Rattle.star_query.specs.{Private.Reads.{spot_of, No, ReadsLit, ReadsNamed, ReadsUnit, ReadsConj, ReadsCond, NoAnd, NoLogic}, Private.Machine.{unit_wanted, unit_named, equal_had, lit_wanted, low, compared, behind_relation}, Maxima.most_nestings, Views.{name_view, condition_view, literal_view}};
ghost use Rattle.star_schema.specs.Tables.{Number};
ghost use Rattle.star_query.specs.Symbols as symbols;
ghost use Rattle.star_query.specs.Tree as tree;

use crate::counts::Part;
use crate::fault::{Fault, ParseError};
use crate::parser::Parser;
use crate::token::{Additive, Digits, Keyword, Relation, Sign};
use crate::tree::{Comparison, Condition, Literal, Name, Test};
use std::alloc::{AllocError, Global};

impl<'a> Parser<'a> {
    // [-] number | text
    fn literal(&mut self) -> Result<Literal, ParseError>
        ensures reads { ReadsLit (spot_of self.old) (spot_of self.new) result }
        ensures shorter { length self.new.rest.now ≤ length self.old.rest.now }
    {
        if self.take(Additive::Minus) {
            let number = self.number()?;
            return Ok(negated(number));
        }
        if self.is_number() {
            let digits = self.number()?;
            return Ok(whole(digits));
        }
        let text = self.text()?;
        Ok(Literal::Text(text))
    }

    // name between lit and lit, after `between`
    fn between(&mut self, column: Name) -> Result<Condition<Test>, ParseError>
        ensures reads { ReadsNamed (λ h. lit_wanted (low h (name_view column))) (spot_of self.old)
            (spot_of self.new) result }
        ensures shorter { length self.new.rest.now ≤ length self.old.rest.now }
    {
        let least = self.literal()?;
        self.expect(Keyword::And)?;
        let most = self.literal()?;
        Ok(Condition::Test(Test::Comparison(Comparison::Between(column, least, most))))
    }

    // name sign lit, after the sign
    fn compared(&mut self, column: Name, relation: Relation) -> Result<Condition<Test>, ParseError>
        ensures reads { ReadsNamed (λ h. lit_wanted (compared h (name_view column) relation))
            (spot_of self.old) (spot_of self.new) result }
        ensures shorter { length self.new.rest.now ≤ length self.old.rest.now }
    {
        let literal = self.literal()?;
        Ok(Condition::Test(Test::Comparison(Comparison::Compare(column, relation, literal))))
    }

    // name = name | name = lit, after the sign
    fn equal(&mut self, column: Name) -> Result<Condition<Test>, ParseError>
        ensures reads { ReadsNamed (λ h. equal_had h (name_view column)) (spot_of self.old)
            (spot_of self.new) result }
        ensures shorter { length self.new.rest.now ≤ length self.old.rest.now }
    {
        if self.is_name() {
            let other = self.name()?;
            return Ok(Condition::Test(Test::Pair(column, other)));
        }
        self.compared(column, Relation::Equal)
    }

    // The operand after a column and a sign.
    fn related(&mut self, column: Name, relation: Relation) -> Result<Condition<Test>, ParseError>
        ensures reads { ReadsNamed (λ h. behind_relation h (name_view column) relation)
            (spot_of self.old) (spot_of self.new) result }
        ensures shorter { length self.new.rest.now ≤ length self.old.rest.now }
    {
        match relation {
            Relation::Equal => self.equal(column),
            _ => self.compared(column, relation),
        }
    }

    // The rest of a comparison after its column.
    fn compare(&mut self, column: Name) -> Result<Condition<Test>, ParseError>
        ensures reads { ReadsNamed (λ h. unit_named h (name_view column)) (spot_of self.old)
            (spot_of self.new) result }
        ensures shorter { length self.new.rest.now ≤ length self.old.rest.now }
    {
        if self.take(Keyword::Between) {
            return self.between(column);
        }
        let Some(relation) = self.take_any::<Relation>() else {
            return Err(ParseError::Fault(Fault::Unexpected));
        };
        self.related(column, relation)
    }

    // name = name | name sign lit | name between lit and lit
    fn comparison(&mut self) -> Result<Condition<Test>, ParseError>
        requires no_not { No (symbols.keyword Keyword.Not) (spot_of self.old) }
        requires no_open { No (symbols.sign Sign.Open) (spot_of self.old) }
        ensures reads { ReadsNamed unit_wanted (spot_of self.old) (spot_of self.new) result }
        ensures shorter { length self.new.rest.now ≤ length self.old.rest.now }
    {
        let column = self.counted_name(Part::Comparison)?;
        self.compare(column)
    }

    // not unit | ( cond ) | a comparison
    #[cycle(condition)]
    fn unit(&mut self, depth: u32) -> Result<Condition<Test>, ParseError>
        requires { depth ≤ most_nestings }
        ensures reads { ReadsUnit depth (spot_of self.old) (spot_of self.new) result }
        ensures shorter { length self.new.rest.now ≤ length self.old.rest.now }
    {
        let negated = self.nest(Keyword::Not, Some(Part::Comparison), depth)?;
        if negated {
            let inner = self.unit(depth + 1)?;
            return Ok(Condition::Not(Box::new(self.alloc, inner)?));
        }
        let opened = self.nest(Sign::Open, None, depth)?;
        if opened {
            let grouped = self.condition(depth + 1)?;
            self.expect(Sign::Close)?;
            return Ok(grouped);
        }
        self.comparison()
    }

    // unit {and unit}
    #[cycle(condition)]
    fn conjunction(&mut self, depth: u32) -> Result<Condition<Test>, ParseError>
        requires { depth ≤ most_nestings }
        ensures reads { ReadsConj depth (spot_of self.old) (spot_of self.new) result }
        ensures ends { OnOk result (NoAnd (spot_of self.new)) }
        ensures shorter { length self.new.rest.now ≤ length self.old.rest.now }
    {
        let mut all = self.unit(depth)?;
        while self.take(Keyword::And) {
            let next = self.unit(depth)?;
            all = and(self.alloc, all, next)?;
        }
        Ok(all)
    }

    // conj {or conj}
    #[cycle(condition)]
    pub(crate) fn condition(&mut self, depth: u32) -> Result<Condition<Test>, ParseError>
        requires { depth ≤ most_nestings }
        ensures reads { ReadsCond depth (spot_of self.old) (spot_of self.new) result }
        ensures ends { OnOk result (NoLogic (spot_of self.new)) }
        ensures shorter { length self.new.rest.now ≤ length self.old.rest.now }
    {
        let mut any = self.conjunction(depth)?;
        while self.take(Keyword::Or) {
            let next = self.conjunction(depth)?;
            any = or(self.alloc, any, next)?;
        }
        Ok(any)
    }
}

fn and(
    alloc: Global,
    left: Condition<Test>,
    right: Condition<Test>,
) -> Result<Condition<Test>, AllocError>
    ensures { IfOk result (λ c. condition_view c
        ≡ tree.and (condition_view left) (condition_view right)) }
{
    Ok(Condition::And(Box::new(alloc, left)?, Box::new(alloc, right)?))
}

fn or(
    alloc: Global,
    left: Condition<Test>,
    right: Condition<Test>,
) -> Result<Condition<Test>, AllocError>
    ensures { IfOk result (λ c. condition_view c
        ≡ tree.or (condition_view left) (condition_view right)) }
{
    Ok(Condition::Or(Box::new(alloc, left)?, Box::new(alloc, right)?))
}

fn whole(digits: Digits) -> Literal
    ensures { literal_view result ≡ Number (pos digits.value) }
{
    Literal::Number(digits.value as i64)
}

fn negated(digits: Digits) -> Literal
    ensures { literal_view result ≡ Number (neg_ℤ (pos digits.value)) }
{
    Literal::Number(-(digits.value as i64))
}
