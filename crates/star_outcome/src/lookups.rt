//! What a run looks up in the catalogue, in the words of the world that programs see.

ghost use Rattle.std.specs.Prelude.{◌≡◌, ◌<◌, true, length, IfSome};
ghost use Rattle.star_schema.specs.Database.{rows_in};
ghost use Rattle.star_program.specs.{Effects.loaded, declared.value.Value.TheVariants.Place};
ghost use Rattle.star_outcome.specs.Sound.{IsSoundValue};
ghost use Rattle.star_world.specs.WorldOf.{world_of};
ghost use Rattle.star_schema.specs.Schema as schema;
ghost use Rattle.star_program.specs.World as world;

use star_catalogue::Catalogue;
use star_program::{Edge, Text, Value};
use star_schema::{ColumnId, TableId, is_text};

/// The position of an edge of a text among the texts of a column.
#[tactic(auto, using(crate::proofs::Found::kind_text))]
pub fn edge_index(catalogue: &Catalogue, edge: Edge, column: ColumnId, text: &Text) -> Value
    requires { world.is_text column ≡ true }
    ensures { result ≡ Place column (world.edge_of (world_of catalogue.now) edge column text.now) }
{
    match edge {
        Edge::Low => Value::Place(column, catalogue.low(column, text.as_slice())),
        Edge::High => Value::Place(column, catalogue.high(column, text.as_slice())),
    }
}

/// A column's value in a row, from 0.
pub fn load(catalogue: &Catalogue, column: ColumnId, row: u32) -> Value
    requires { row < length (rows_in catalogue.now (schema.table_of column)) }
    ensures value { result ≡ loaded (world_of catalogue.now) column row (world.is_text column) }
    ensures sound { IsSoundValue catalogue.now result }
{
    if is_text(column) {
        Value::Text(column, catalogue.code(column, row))
    } else {
        Value::Number(catalogue.number(column, row))
    }
}

/// The row of a table, from 0, with a key, if there is one.
pub fn find(catalogue: &Catalogue, table: TableId, key: i64) -> Option<u32>
    ensures found { result ≡ (world_of catalogue.now).find table key }
    ensures within { IfSome result (λ row. row < length (rows_in catalogue.now table)) }
{
    catalogue.find(table, key)
}
