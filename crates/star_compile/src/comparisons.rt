// Compiles comparisons of a column with literals.

ghost use Rattle.std.specs.Prelude.{◌≡◌, true, IfOk};
ghost use Rattle.star_plan.specs.{Views.literal_value_view, Spelled.value_is_spelled};
ghost use Rattle.star_program.specs.declared.op.Operation.TheVariants.{Binary};
ghost use Rattle.star_compile.specs.Private.Emitted.{HasRegisterRoom, Writes};
ghost use Rattle.star_query.specs.declared.token.Relation.TheVariants as sign;
ghost use Rattle.star_compile_laws.specs.Compiled as spec;

use crate::emitter::Emitter;
use crate::operands::{edge_of, end_of, start_of};
use star_program::{Edge, Operation, Operator};
use star_query::{Literal, Relation};
use star_schema::ColumnId;
use std::alloc::AllocError;

impl Emitter {
    // Emits an operand, then an operator with the value on the left.
    fn value_first(
        &mut self,
        operator: Operator,
        value: u16,
        operand: Operation,
    ) -> Result<u16, AllocError>
        requires room { HasRegisterRoom self.old (spec.beside operand (λ n. Binary operator value n)) }
        ensures written { IfOk result (
            Writes self.old self.new (spec.beside operand (λ n. Binary operator value n))) }
    {
        let bound = self.write(operand)?;
        self.write(Operation::Binary {
            operator,
            left: value,
            right: bound,
        })
    }

    // Emits an operand, then an operator with the value on the right.
    fn operand_first(
        &mut self,
        operator: Operator,
        operand: Operation,
        value: u16,
    ) -> Result<u16, AllocError>
        requires room { HasRegisterRoom self.old (spec.beside operand (λ n. Binary operator n value)) }
        ensures written { IfOk result (
            Writes self.old self.new (spec.beside operand (λ n. Binary operator n value))) }
    {
        let bound = self.write(operand)?;
        self.write(Operation::Binary {
            operator,
            left: bound,
            right: value,
        })
    }

    /// Compiles a test whether a column's value, in a register, lies between two literals, both
    /// included.
    pub(crate) fn between(
        &mut self,
        column: ColumnId,
        value: u16,
        from: &Literal,
        upto: &Literal,
    ) -> Result<u16, AllocError>
        requires room { HasRegisterRoom self.old
            (spec.between_code column value (literal_value_view from.now) (literal_value_view upto.now)) }
        requires spelled { value_is_spelled (literal_value_view upto.now) ≡ true }
        ensures written { IfOk result (Writes self.old self.new
            (spec.between_code column value (literal_value_view from.now) (literal_value_view upto.now))) }
    {
        let from = self.write(start_of(column, from)?)?;
        let below = self.write(end_of(column, upto)?)?;
        self.write(Operation::Within { value, from, below })
    }

    // Compiles a test whether the value equals the literal.
    fn equal(&mut self, column: ColumnId, value: u16, literal: &Literal) -> Result<u16, AllocError>
        requires room { HasRegisterRoom self.old
            (spec.equal_code column value (literal_value_view literal.now)) }
        requires spelled { value_is_spelled (literal_value_view literal.now) ≡ true }
        ensures written { IfOk result (Writes self.old self.new
            (spec.equal_code column value (literal_value_view literal.now))) }
    {
        match literal {
            Literal::Number(number) => {
                self.value_first(Operator::Equal, value, Operation::Const { number: *number })
            }
            Literal::Text(_) => self.between(column, value, literal, literal),
        }
    }

    /// Compiles a comparison of a column's value, in a register, with a literal.
    pub(crate) fn compare(
        &mut self,
        relation: Relation,
        column: ColumnId,
        value: u16,
        literal: &Literal,
    ) -> Result<u16, AllocError>
        requires room { HasRegisterRoom self.old
            (spec.test_code relation column value (literal_value_view literal.now)) }
        requires spelled { value_is_spelled (literal_value_view literal.now) ≡ true }
        ensures written { IfOk result (Writes self.old self.new
            (spec.test_code relation column value (literal_value_view literal.now))) }
    {
        match relation {
            Relation::Equal => self.equal(column, value, literal),
            Relation::Unequal => {
                let flag = self.equal(column, value, literal)?;
                self.write(Operation::Not { flag })
            }
            Relation::Less => {
                let start = start_of(column, literal)?;
                self.value_first(Operator::Less, value, start)
            }
            Relation::AtMost => match literal {
                Literal::Number(number) => {
                    let bound = Operation::Const { number: *number };
                    self.value_first(Operator::LessOrEqual, value, bound)
                }
                Literal::Text(text) => {
                    let end = edge_of(Edge::High, column, text)?;
                    self.value_first(Operator::Less, value, end)
                }
            },
            Relation::Greater => match literal {
                Literal::Number(number) => {
                    let bound = Operation::Const { number: *number };
                    self.operand_first(Operator::Less, bound, value)
                }
                Literal::Text(text) => {
                    let end = edge_of(Edge::High, column, text)?;
                    self.operand_first(Operator::LessOrEqual, end, value)
                }
            },
            Relation::AtLeast => {
                let start = start_of(column, literal)?;
                self.operand_first(Operator::LessOrEqual, start, value)
            }
        }
    }
}
