//! Tests of each call that allocates, by public items only. When memory is refused a call returns out
//! of memory and leaves its arguments as before; made again, it returns the usual result.
//! With ample memory the tests pass too, and no call is made twice. `bench/refuse-memory` refuses each
//! of their requests in turn.
#![tactic(auto)]

#[cfg(test)]
mod asked;
#[cfg(test)]
mod engine;
#[cfg(test)]
mod loads;
#[cfg(test)]
mod programs;
#[cfg(test)]
mod runs;
#[cfg(test)]
mod stores;
#[cfg(test)]
mod texts;
