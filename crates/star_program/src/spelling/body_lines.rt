// Writing the lines of a body.

ghost use Rattle.std.specs.{Prelude.{◌≡◌, ◌≤◌, ◌+◌, ◌++◌, OnOk}, List.flat_map};
ghost use Rattle.star_program.specs.{Code.scan_depth, Private.Followed.code_of_step, Text.Statements.lines_of_code, Text.Written.written_line};

use crate::body::{Body, Step};
use crate::spelling::program_lines::{push_end_line, push_op_line, push_scan_line};
use std::alloc::AllocError;

/// Appends the lines of a body inside `depth` scans.
#[cycle(writing)]
pub(crate) fn push_body(out: &mut Vec<u8>, depth: u8, body: &Body) -> Result<(), AllocError>
    requires { depth + scan_depth body.now ≤ 3 }
    ensures { OnOk result (out.new.items ≡ out.old.items
        ++ flat_map written_line (lines_of_code depth body.now)) }
{
    for step in body.as_slice() {
        push_step(out, depth, step)?;
    }
    Ok(())
}

#[cycle(writing)]
fn push_step(out: &mut Vec<u8>, depth: u8, step: &Step) -> Result<(), AllocError>
    requires { depth + scan_depth (code_of_step step.now) ≤ 3 }
    ensures { OnOk result (out.new.items ≡ out.old.items
        ++ flat_map written_line (lines_of_code depth (code_of_step step.now))) }
{
    match step {
        Step::Act(op) => push_op_line(out, depth, op),
        Step::Scan {
            table,
            target,
            body,
        } => {
            push_scan_line(out, depth, *table, *target)?;
            push_body(out, depth + 1, body)?;
            push_end_line(out, depth)
        }
    }
}
