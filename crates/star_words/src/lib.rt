//! The requests of command lines, and the errors of arguments that make none.
#![tactic(auto)]

mod fault;
mod help;
mod parser;
mod partials;
mod refusal;
mod request;

pub use crate::fault::WordsFault;
pub use crate::request::{Merge, Partials, Reports, Request, Task, request_of};
