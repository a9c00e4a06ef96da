//! Laws of tables in parts, whose groups and facts merge exactly.
//!
//! SUM, COUNT, MIN and MAX are distributive (Gray et al. 1997): the groups over all parts of lineorder
//! are made of the plain groups of each part. There is no code here: each function is a law.
#![tactic(auto)]

pub mod parts;
