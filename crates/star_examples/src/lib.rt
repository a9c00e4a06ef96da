//! Worked rows of queries, as theorems by computing: the definitions applied to small texts,
//! plans and tables.
//!
//! They refuse the definitions next to the right ones: a relation, an operator or an aggregate in
//! position of another, an end left out, a row lost. No crate uses this one, and it has no code.
#![tactic(auto)]
