//! Statements of a session, read one after another: their texts, and the request in each.
#![tactic(auto)]

mod blanks;
pub mod law;
mod questions;
mod reading;
mod sources;

pub use questions::{Question, question_of};
pub use reading::read_statement;
pub use sources::{ReadFault, Source};
