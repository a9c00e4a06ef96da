//! The program `star`: reports over the tables of the Star Schema Benchmark.
#![tactic(auto)]

use star_cli::{Progress, StandardInput};
use std::io::IsTerminal;
use std::process::ExitCode;

fn main(rt: HostRuntime) -> ExitCode {
    let mut out = rt.stdout();
    let mut err = rt.stderr();
    let reader = rt.stdin();
    let terminal = if err.is_terminal() {
        Some(rt.stderr())
    } else {
        None
    };
    let is_terminal = reader.is_terminal() && err.is_terminal();
    let input = StandardInput {
        reader,
        is_terminal,
    };
    let mut progress = Progress::new(rt.alloc(), &rt, terminal);
    ExitCode::from(star_cli::run(&rt, input, &mut progress, &mut out, &mut err))
}
