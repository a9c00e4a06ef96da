// The tables and columns that a query names.

ghost use Rattle.std.specs.{Prelude.◌≡◌, Prelude.map, Prelude.nat_eq, List.list_any, Cmp.Lexicographic.pointwise};
ghost use Rattle.star_query.specs.Views.{name_view};
ghost use Rattle.star_plan.specs.Names as spec;

use star_query::Name;
use star_schema::{ColumnId, Kind, TableId, column_named, kind_of, table_named};

/// The table of a name, if there is one.
#[tactic(auto, unfolding(crate::specs::Names::table_called))]
pub(crate) fn table_at(name: &Name) -> Option<TableId>
    ensures { result ≡ spec.table_at (name_view name.now) }
{
    table_named(&name.text)
}

/// The column of a name, if there is one.
#[tactic(auto, unfolding(crate::specs::Names::column_called))]
pub(crate) fn column_at(name: &Name) -> Option<ColumnId>
    ensures { result ≡ spec.column_at (name_view name.now) }
{
    column_named(&name.text)
}

fn any_reads(names: &[Name], text: &[u8]) -> bool
    ensures { result ≡ list_any (λ n. pointwise nat_eq n.text.items text.now) names.now }
{
    names.iter().any(|name| name.text.as_slice() == text)
}

/// Whether one of the names reads so.
pub(crate) fn has_name(names: &[Name], text: &[u8]) -> bool
    ensures { result ≡ spec.has_name (map name_view names.now) text.now }
{
    any_reads(names, text)
}

/// Whether a column, if there is one, holds this kind of value.
pub(crate) fn is_of(kind: Kind, column: Option<ColumnId>) -> bool
    ensures { result ≡ spec.is_of kind column }
{
    match column {
        None => true,
        Some(column) => match (kind_of(column), kind) {
            (Kind::Number, Kind::Number) | (Kind::Text, Kind::Text) => true,
            _ => false,
        },
    }
}
