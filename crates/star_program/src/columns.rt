// Equality of columns, by which kinds of registers and keys of groups are compared.

ghost use Rattle.std.specs.Prelude.{◌≡◌};
ghost use Rattle.star_program.specs.World as world;

use star_schema::ColumnId;

/// Tests whether two columns are equal.
pub fn is_column(column: ColumnId, other: ColumnId) -> bool
    ensures { result ≡ world.is_column column other }
{
    column == other
}
