//! Plans: queries with their names resolved and their joins apart, and what a query means.
//!
//! Well named queries are defined in `specs/WellNamed.antt`; the faults of names, and the order in
//! which faults are reported, in `specs/Faults.antt`; the meaning of a resolved query over the rows
//! of the tables, in `specs/Meaning.antt`; which queries fit into 64 bits, in `specs/Fits.antt`.
#![tactic(auto)]

mod fault;
mod joins;
pub mod law;
mod names;
mod order;
mod planner;
mod plans;
mod resolve;
mod select;
mod tree;
mod uses;

pub use fault::PlanFault;
pub use planner::plan;
pub use plans::Plan;
pub use tree::{Aggregate, Join, PlanTree, RowCondition};
