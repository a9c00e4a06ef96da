//! Columns of a table in memory: packed values, bounds of numbers, dictionaries of texts, join
//! indexes.
#![tactic(auto)]

mod coding;
mod column;
mod dictionary;
mod join_index;
mod mask;
mod number;
mod packed;
mod text;
mod view;
mod words;

pub use column::ColumnData;
pub use join_index::JoinIndex;
pub use number::NumberColumn;
pub use packed::PackedColumn;
pub use text::TextColumn;
pub use view::ColumnView;
