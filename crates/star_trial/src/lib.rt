//! The trial: a run that checks each instruction, of any program over a loaded catalogue.
#![tactic(auto)]

mod act;
mod compute;
mod fault;
mod machine;
mod puts;
mod trials;
mod walk;

pub use fault::TrialFault;
pub use trials::trial;
