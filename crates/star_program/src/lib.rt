//! Programs for the register machine: their types and limits, their meaning, and their text.
//!
//! `specs/` defines the meaning of a program; every crate above cites it. `specs/Text/` defines
//! which program a text spells.
#![tactic(auto)]

mod body;
mod cell_rows;
mod columns;
mod fault;
mod group;
mod key;
pub mod law;
mod op;
mod outcome;
mod program;
mod spelling;
mod value;

pub use body::{Body, Step};
pub use cell_rows::{CellRows, row_of};
pub use columns::is_column;
pub use fault::{Fault, TrapKind};
pub use group::{Aggregates, GroupDecl, GroupKey, GroupKeys};
pub use key::KeyValue;
pub use op::{Edge, Op, Operation, Operator, RegisterList, Text};
pub use outcome::{Cell, CellText, CellView, KeptCell, Outcome};
pub use program::{
    Groups, MOST_AGGREGATES, MOST_GROUPS, MOST_INSTRUCTIONS, MOST_KEYS, MOST_REGISTERS, MOST_SCANS,
    MOST_SHOWS, MOST_SORTS, Name, Parts, Program, Show, Shows, Sorts,
};
pub use spelling::{
    TextFault, no_text_spells_two_programs, spelled_programs_are_written_back,
    texts_without_a_fault_spell_programs,
};
pub use star_common::Items;
pub use value::{Kind, Value};
