//! The program `star_cases`: runs the cases on the pages in `cases` and `documents`, and prints the
//! expected and the actual output of each command that differs.
#![tactic(auto)]

mod escapes;
mod files;
mod pages;
mod printed;
mod runs;
mod shell;

use crate::runs::{Tally, run_pages};
use std::io;
use std::process::ExitCode;

fn main(rt: HostRuntime) -> io::Result<ExitCode> {
    let mut tally = Tally {
        passed: 0,
        failed: 0,
    };
    run_pages(&rt, "cases", &mut tally)?;
    run_pages(&rt, "documents", &mut tally)?;
    let Tally { passed, failed } = tally;
    eprintln!(rt; "{passed} passed, {failed} failed")?;
    let is_well = failed == 0 && passed > 0;
    Ok(ExitCode::from(u8::from(!is_well)))
}
