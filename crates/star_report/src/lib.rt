//! The printed report of a run.
#![tactic(auto)]

mod law;
mod report;

pub use law::{one_run_has_one_outcome, one_text_has_one_meaning, texts_of_tables_are_fields};
pub use report::report_text;
pub use star_common::{WriteFault, write_whole};
