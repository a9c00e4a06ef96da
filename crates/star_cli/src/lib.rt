//! The commands of the program `star`: their words, the files that they read, the lines of their
//! faults and their exit statuses.
#![tactic(auto)]

mod answers;
mod commands;
mod directory;
mod failure;
mod files;
mod input;
mod jobs;
pub mod law;
mod loads;
mod partials;
mod progress;
mod store;

pub use crate::answers::{answer, explain};
pub use crate::commands::{command, command_to, read_words, run};
pub use crate::input::StandardInput;
pub use crate::loads::load_engine;
pub use crate::progress::{Progress, TableFile, Watch};
pub use crate::store::Store;
