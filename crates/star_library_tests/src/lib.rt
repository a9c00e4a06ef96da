//! Tests of what no command shows, by public items only: columns, intervals, tables in pieces, texts of
//! programs, runs compared with trials, readers and writers that fail, folders whose reads fail, load
//! progress. Whatever a command shows is a text case of `star_cases`.
#![tactic(auto)]

#[cfg(test)]
mod catalogues;
#[cfg(test)]
mod checks;
#[cfg(test)]
mod columns;
#[cfg(test)]
mod commands;
mod files;
#[cfg(test)]
mod flat;
#[cfg(test)]
mod intervals;
#[cfg(test)]
mod limits;
#[cfg(test)]
mod pieces;
#[cfg(test)]
mod programs;
#[cfg(test)]
mod progress;
#[cfg(test)]
mod reading;
#[cfg(test)]
mod scans;
#[cfg(test)]
mod sessions;
mod streams;
#[cfg(test)]
mod writes;
