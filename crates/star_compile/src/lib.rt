//! The compiler from plans to programs.
//!
//! The program of a plan is defined in `Compiled.antt` of star_compile_laws. An emitter writes its
//! instructions in order and knows which columns are loaded and which rows are found. A law of
//! star_compile_laws says that compiled plans are within the limits of programs; the next register
//! therefore always exists.
#![tactic(auto)]

mod columns;
mod comparisons;
mod compiler;
mod conditions;
mod declarations;
mod emitter;
mod expressions;
mod operands;
mod values;

pub use compiler::{compile, compile_plain};
