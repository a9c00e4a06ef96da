//! The faults of an instruction that depend on its position, its registers and their kinds, and of a
//! report's names. A trial asks about the values in registers, the verifier about the register facts it
//! knows.
#![tactic(auto)]

mod instruction;
mod operands;
mod position;
mod register;
mod report;

pub use instruction::check;
pub use register::Kinded;
pub use report::misnamed_line;
