//! The five tables in memory, sound: the keys of each table are distinct, and each foreign key
//! refers to a row.
#![tactic(auto)]

mod catalogue;
mod columns;
mod dimension;
mod far_keys;
mod fault;
mod keys;
pub mod law;
mod read_tables;
mod references;
mod referred;
mod sample_texts;
mod seeded;
mod table;
mod tables;
mod texts;

pub use catalogue::Catalogue;
pub use fault::LoadFault;
pub use read_tables::ReadTables;
pub use sample_texts::sample;
pub use texts::Texts;
