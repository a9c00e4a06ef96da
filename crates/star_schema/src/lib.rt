//! The star schema: five tables, their columns and keys, and the limits of a load and of a run.
//!
//! `specs/` defines table files, their rows and bounds; every crate above cites it.
#![tactic(auto)]

mod column;
mod group;
pub mod law;
mod limits;
mod name;
mod sizes;
mod table;

pub use column::{
    COLUMNS, ColumnId, Kind, column_named, is_text, kind_of, position_of, references, table_of,
};
pub use group::{
    AGGREGATES, Aggregate, DIRECTIONS, Direction, GroupColumn, SHAPES, Shape, SortKey,
};
pub use limits::{Limits, MOST_ROWS, MOST_VISITS};
pub use name::{Named, first_named, name_of};
pub use sizes::Sizes;
pub use star_common::{Out, Sink, SinkFault};
pub use table::{Key, TABLES, TableId, column_at, columns, is_table, key_of, table_named, width};
