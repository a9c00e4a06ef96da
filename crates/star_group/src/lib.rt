//! The rows of a group: what the traits of stores promise, a store that keeps every row up to date,
//! one that makes the rows in which keys are ALL at the end, and array aggregation with a dense group
//! id for each key list in known ranges.
//!
//! A store is specified by lists of puts: it has the content of some puts, the newest first, and then
//! its rows are the groups of these puts with their aggregates, and its totals are the aggregates
//! over all of them.
#![tactic(auto)]

mod array_store;
mod batch;
mod cell;
mod deferred;
mod eager;
mod group_rows;
mod keyed;
pub mod law;
mod numbers;
mod rows;
mod store;

pub use array_store::ArrayStore;
pub use batch::{PutBatch, key_of};
pub use deferred::DeferredStore;
pub use eager::EagerStore;
pub use group_rows::GroupRows;
pub use numbers::numbers_put;
pub use rows::PutFault;
pub use star_program::KeyValue;
pub use store::{GroupStore, TryPut};
