//! Which programs are refused before a run, and what holds of the run of an accepted program.
//!
//! Conditions and laws are about programs as trees; nothing here depends on their texts.
#![tactic(auto)]

pub mod law;
mod reason;

pub use reason::{Reached, ReachedColumns, Reason};
