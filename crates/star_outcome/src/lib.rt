//! The look-ups of a run over a loaded catalogue, its progress so far, and its outcome.
#![tactic(auto)]

mod flow;
pub mod lookups;
mod outcome;
mod work;

pub use flow::Flow;
pub use work::Work;
