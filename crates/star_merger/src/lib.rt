//! Partials of a query: written, read, and merged into the report over all parts of lineorder.
#![tactic(auto)]

mod columns;
mod dimensions;
mod facts;
mod fault;
mod fields;
pub mod law;
mod merger;
mod merges;
mod order;
mod outcome;
mod partial;
mod pieces;
mod printing;
mod reading;
mod spans;
mod spelled;
mod writing;

pub use fault::{PartialFault, PartialsFault};
pub use merger::Merger;
pub use partial::Partial;
pub use printing::{partial_text, write_partial};
