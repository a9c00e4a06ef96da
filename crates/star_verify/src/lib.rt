//! The verifier: checks a program before a run, and quotes the rows that it visits at most.
#![tactic(auto)]

mod check;
mod contributions;
mod dry_run;
mod facts;
mod input;
mod instructions;
mod known;
mod open_groups;
mod operations;
mod reach;
mod refusal;
mod register;
mod rows;
mod steps;
mod tally;
mod totals;
mod verified;
mod visits;

pub use dry_run::forecast;
pub use facts::Facts;
pub use refusal::Refusal;
pub use star_safety::{Reached, ReachedColumns, Reason};
pub use verified::{Refused, Verified, verify};
pub use visits::quote;
