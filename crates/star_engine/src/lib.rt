//! The engine: from the bytes of table files and of a query or a program to the bytes of a report.
#![tactic(auto)]

mod benchmark;
mod calls;
mod digest;
mod engine;
mod executions;
mod fault;
mod input;
pub mod law;
mod notes;
mod partials;
mod parts;
pub mod query_laws;
mod question;
mod reading;
mod spans;
mod thirteen;

pub use calls::{
    answer_program, answer_query, bench, check, explain_query, quote_text, trial_program,
};
pub use engine::Engine;
pub use executions::{RunOutput, run_text};
pub use fault::{EngineFault, FaultLine};
pub use input::Input;
pub use parts::read_part;
pub use question::Question;
pub use reading::{FileFault, read_expected, read_whole};
pub use star_catalogue::{LoadFault, ReadTables, Texts, sample};
pub use star_machine::TrialFault;
pub use star_plan::PlanFault;
pub use star_program::{Fault, TextFault, TrapKind};
pub use star_query::QueryFault;
pub use star_reader::TableReader;
pub use star_verify::{Reached, ReachedColumns, Reason, Refusal};
pub use thirteen::{BenchmarkQuery, THIRTEEN};
