//! The world of a program: what it can see of the rows of five tables.
//!
//! `specs/` defines it. The crates that run, verify or compile programs cite these definitions.
#![tactic(auto)]

pub mod law;
