//! Query texts: their tokens, their grammar, and the tree that a text means.
//!
//! The tokens of a text, the tokens that are a query, and the first fault of others are defined
//! in `specs/`.
#![tactic(auto)]

mod clauses;
mod conditions;
mod counts;
mod expressions;
mod fault;
pub mod law;
mod lexer;
mod lists;
mod parser;
mod query;
mod terminals;
mod token;
mod tree;

pub use counts::MAX_TEXT;
pub use fault::QueryFault;
pub use query::Query;
pub use token::{Fold, Relation};
pub use tree::{
    Aggregate, Comparison, Condition, Expression, Grouping, Item, Literal, Measure, Name, SortKey,
    Test, Tree,
};
