// The text of a program.

mod body_lines;
mod draft;
mod fault;
mod keyword;
mod law;
mod lines;
mod listed;
mod numerals;
pub(crate) mod parsing;
pub(crate) mod program_lines;
mod reading;
mod statement;
mod text_state;
mod writing;

pub use fault::TextFault;
pub use law::{
    no_text_spells_two_programs, spelled_programs_are_written_back,
    texts_without_a_fault_spell_programs,
};
