//! Partial reports of one query, merged.
#![tactic(auto)]

mod bounds;
mod fault;
mod flat;
mod group;
mod groupings;
pub mod law;
mod merging;
mod sums;
mod totals;

pub use bounds::join_bounds;
pub use fault::MergeFault;
pub use flat::FlatRows;
pub use merging::merge_rows;
