//! Services over loaded tables: the statements of a session and the reports of many files, with
//! the lines of faults that they share.
#![tactic(auto)]

mod lines;
mod names;
mod report_sink;
mod reports;
mod sessions;

pub use crate::lines::{MEMORY_LINE, MEMORY_STATUS, print, print_fault, status_of};
pub use crate::names::Shown;
pub use crate::report_sink::{ReportSink, ReportSinkFault};
pub use crate::reports::{Halt, ReportJob, forecast_jobs, run_jobs};
pub use crate::sessions::{Stop, run_session, step};
