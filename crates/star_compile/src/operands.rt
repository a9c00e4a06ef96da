// The operands of comparisons.

ghost use Rattle.std.specs.Prelude.{◌≡◌, true, IfOk};
ghost use Rattle.star_plan.specs.{Views.literal_value_view, Spelled.value_is_spelled};
ghost use Rattle.star_program.specs.declared.op.Operation.TheVariants as operation;
ghost use Rattle.star_compile_laws.specs.Compiled as spec;

use star_program::{Edge, Items, Operation};
use star_query::Literal;
use star_schema::ColumnId;
use std::alloc::AllocError;

/// Returns the operation for an edge of a text among the texts of a column.
pub(crate) fn edge_of(edge: Edge, column: ColumnId, text: &Vec<u8>) -> Result<Operation, AllocError>
    ensures { IfOk result (λ made. made ≡ operation.Edge edge column text.now.items) }
{
    let text = Items::from_vec(text.clone()?);
    Ok(Operation::Edge { edge, column, text })
}

/// Returns the operation for the start of a column's values that equal the literal.
pub(crate) fn start_of(column: ColumnId, literal: &Literal) -> Result<Operation, AllocError>
    ensures { IfOk result (λ made. made ≡ spec.start_of column (literal_value_view literal.now)) }
{
    match literal {
        Literal::Number(number) => Ok(Operation::Const { number: *number }),
        Literal::Text(text) => edge_of(Edge::Low, column, text),
    }
}

/// Returns the operation for the start of a column's values that are greater than the literal.
pub(crate) fn end_of(column: ColumnId, literal: &Literal) -> Result<Operation, AllocError>
    requires spelled { value_is_spelled (literal_value_view literal.now) ≡ true }
    ensures { IfOk result (λ made. made ≡ spec.end_behind column (literal_value_view literal.now)) }
{
    match literal {
        Literal::Number(number) => Ok(Operation::Const {
            number: *number + 1,
        }),
        Literal::Text(text) => edge_of(Edge::High, column, text),
    }
}
