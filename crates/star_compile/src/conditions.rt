// Compiles conditions and filters.

ghost use Rattle.std.specs.{Prelude.◌≡◌, Prelude.true, Prelude.map, Prelude.IfOk, List.list_all};
ghost use Rattle.star_query.specs.Tree.{test};
ghost use Rattle.star_plan.specs.{Views.comparison_view, Views.row_condition_view, Spelled.condition_is_spelled};
ghost use Rattle.star_compile_laws.specs.Compiled.{condition_code};
ghost use Rattle.star_compile.specs.Private.Emitted.{HasRegisterRoom, Writes, Wrote};
ghost use Rattle.star_compile_laws.specs.Compiled as spec;

use crate::emitter::Emitter;
use star_plan::{Join, RowCondition};
use star_program::{Operation, Operator};
use star_query::{Comparison, Condition};
use star_schema::ColumnId;
use std::alloc::AllocError;

impl Emitter {
    // Compiles a comparison and returns the register of its result.
    fn comparison(
        &mut self,
        joins: &[Join],
        comparison: &Comparison<ColumnId>,
    ) -> Result<u16, AllocError>
        requires room { HasRegisterRoom self.old
            (condition_code joins.now (test (comparison_view comparison.now))) }
        requires spelled { condition_is_spelled (test (comparison_view comparison.now)) ≡ true }
        ensures written { IfOk result (Writes self.old self.new
            (condition_code joins.now (test (comparison_view comparison.now)))) }
    {
        match comparison {
            Comparison::Compare(column, relation, literal) => {
                let value = self.column(joins, *column)?;
                self.compare(*relation, *column, value, literal)
            }
            Comparison::Between(column, from, upto) => {
                let value = self.column(joins, *column)?;
                self.between(*column, value, from, upto)
            }
        }
    }

    // Compiles both sides, then the operator.
    #[cycle(condition)]
    fn connective(
        &mut self,
        joins: &[Join],
        operator: Operator,
        left: &RowCondition,
        right: &RowCondition,
    ) -> Result<u16, AllocError>
        requires room { HasRegisterRoom self.old (spec.binary_code
            (condition_code joins.now (row_condition_view left.now))
            (condition_code joins.now (row_condition_view right.now)) operator) }
        requires left { condition_is_spelled (row_condition_view left.now) ≡ true }
        requires right { condition_is_spelled (row_condition_view right.now) ≡ true }
        ensures written { IfOk result (Writes self.old self.new (spec.binary_code
            (condition_code joins.now (row_condition_view left.now))
            (condition_code joins.now (row_condition_view right.now)) operator)) }
    {
        let left = self.condition(joins, left)?;
        let right = self.condition(joins, right)?;
        self.write(Operation::Binary {
            operator,
            left,
            right,
        })
    }

    /// Compiles a condition and returns the register of its result.
    #[cycle(condition)]
    pub(crate) fn condition(
        &mut self,
        joins: &[Join],
        condition: &RowCondition,
    ) -> Result<u16, AllocError>
        requires room { HasRegisterRoom self.old
            (condition_code joins.now (row_condition_view condition.now)) }
        requires spelled { condition_is_spelled (row_condition_view condition.now) ≡ true }
        ensures written { IfOk result (Writes self.old self.new
            (condition_code joins.now (row_condition_view condition.now))) }
    {
        match condition {
            Condition::Or(left, right) => self.connective(joins, Operator::Or, left, right),
            Condition::And(left, right) => self.connective(joins, Operator::And, left, right),
            Condition::Not(negated) => {
                let flag = self.condition(joins, negated)?;
                self.write(Operation::Not { flag })
            }
            Condition::Test(comparison) => self.comparison(joins, comparison),
        }
    }

    // Compiles a filter that keeps the rows for which a condition holds.
    fn conjunct(&mut self, joins: &[Join], condition: &RowCondition) -> Result<(), AllocError>
        requires room { HasRegisterRoom self.old
            (spec.conjunct_code joins.now (row_condition_view condition.now)) }
        requires spelled { condition_is_spelled (row_condition_view condition.now) ≡ true }
        ensures written { IfOk result (λ _. Wrote self.old self.new
            (spec.conjunct_code joins.now (row_condition_view condition.now))) }
    {
        let flag = self.condition(joins, condition)?;
        self.keep(flag)
    }

    /// Compiles a filter for each of these conditions.
    pub(crate) fn conjuncts(
        &mut self,
        joins: &[Join],
        conditions: &[RowCondition],
    ) -> Result<(), AllocError>
        requires room { HasRegisterRoom self.old
            (spec.conjuncts_code joins.now (map row_condition_view conditions.now)) }
        requires spelled { list_all condition_is_spelled
            (map row_condition_view conditions.now) ≡ true }
        ensures written { IfOk result (λ _. Wrote self.old self.new
            (spec.conjuncts_code joins.now (map row_condition_view conditions.now))) }
    {
        for condition in conditions {
            self.conjunct(joins, condition)?;
        }
        Ok(())
    }
}
