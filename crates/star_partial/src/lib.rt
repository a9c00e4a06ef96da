//! Partials: a query's state over one part of lineorder, as a value and as a text.
#![tactic(auto)]

mod counts;
mod listing;
mod partial;
mod writing;

pub use counts::counts_text;
pub use listing::{bounds_of, list_tables};
pub use partial::{ColumnKind, LineKey, Partial, Span};
