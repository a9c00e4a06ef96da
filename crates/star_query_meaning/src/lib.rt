//! What a query answers: from its text and the five tables to its printed report.
//!
//! The selected rows are defined in `specs/Rows.antt`: the product of FROM's tables, filtered by
//! WHERE. The shown cells of their groups, with their names and their order, are defined in
//! `specs/Shows.antt`; the answer, by the query's own words and by its plan's, in
//! `specs/Answers.antt`; the report for the bytes of a query over the bytes of the tables, in
//! `specs/Reports.antt`. There is no code here: the functions of `law` are laws of these.
#![tactic(auto)]

pub mod law;
