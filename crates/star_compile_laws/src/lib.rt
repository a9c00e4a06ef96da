//! Laws of the program of a query.
//!
//! The program is defined in `specs/Compiled.antt`, the puts and answers of its runs in
//! `specs/Answers.antt`, and its refusal in `specs/Judged.antt`. There is no code here: the
//! functions of `law`, `answers` and `acceptance` are the laws. Nothing here names what checks
//! programs or runs them.
#![tactic(auto)]

pub mod acceptance;
pub mod answers;
pub mod law;
