// Compiles expressions.

ghost use Rattle.std.specs.Prelude.{IfOk};
ghost use Rattle.star_plan.specs.Views.{column_expression_view};
ghost use Rattle.star_compile_laws.specs.Compiled as spec;
ghost use Rattle.star_compile_laws.specs.Compiled.{expression_code};
ghost use Rattle.star_compile.specs.Private.Emitted.{HasRegisterRoom, Writes};

use crate::emitter::Emitter;
use star_plan::Join;
use star_program::{Operation, Operator};
use star_query::Expression;
use star_schema::ColumnId;
use std::alloc::AllocError;

impl Emitter {
    // Compiles both sides, then the operator.
    #[cycle(expression)]
    fn arithmetic(
        &mut self,
        joins: &[Join],
        operator: Operator,
        left: &Expression<ColumnId>,
        right: &Expression<ColumnId>,
    ) -> Result<u16, AllocError>
        requires room { HasRegisterRoom self.old (spec.binary_code
            (expression_code joins.now (column_expression_view left.now))
            (expression_code joins.now (column_expression_view right.now)) operator) }
        ensures written { IfOk result (Writes self.old self.new (spec.binary_code
            (expression_code joins.now (column_expression_view left.now))
            (expression_code joins.now (column_expression_view right.now)) operator)) }
    {
        let left = self.expression(joins, left)?;
        let right = self.expression(joins, right)?;
        self.write(Operation::Binary {
            operator,
            left,
            right,
        })
    }

    /// Compiles an expression and returns the register of its number.
    #[cycle(expression)]
    pub(crate) fn expression(
        &mut self,
        joins: &[Join],
        expression: &Expression<ColumnId>,
    ) -> Result<u16, AllocError>
        requires room { HasRegisterRoom self.old
            (expression_code joins.now (column_expression_view expression.now)) }
        ensures written { IfOk result (Writes self.old self.new
            (expression_code joins.now (column_expression_view expression.now))) }
    {
        match expression {
            Expression::Column(column) => self.column(joins, *column),
            Expression::Number(number) => self.write(Operation::Const { number: *number }),
            Expression::Add(left, right) => self.arithmetic(joins, Operator::Add, left, right),
            Expression::Sub(left, right) => self.arithmetic(joins, Operator::Sub, left, right),
            Expression::Mul(left, right) => self.arithmetic(joins, Operator::Mul, left, right),
        }
    }
}
