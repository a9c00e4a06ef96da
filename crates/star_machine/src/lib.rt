//! The machine that runs programs over a loaded catalogue: `trial` takes any program and checks each
//! instruction, `run` takes one that is verified and checks nothing. And the laws of both.
#![tactic(auto)]

pub mod law;

pub use star_program::{Cell, Outcome};
pub use star_run::run;
pub use star_trial::{TrialFault, trial};
