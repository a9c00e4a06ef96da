// The lines of faults, and how they are printed.

ghost use Rattle.std.specs.Prelude.{◌≡◌, IfOk, string_bytes};
ghost use Rattle.star_engine.specs.Answered.{change};
ghost use Rattle.star_service.specs.Lines.{IsFaultPrinted, IsTextPrinted, fault_line, fault_status};

use star_common::{Sink, write_whole};
use star_engine::{EngineFault, FaultLine};
use std::alloc::{AllocError, Global};

/// The line if memory is refused, which takes none.
pub const MEMORY_LINE: &str = "memory\n";

/// The exit status if memory is refused.
pub const MEMORY_STATUS: u8 = 7;

/// Writes a text on a sink, as far as the sink takes it.
pub fn print<S: Sink>(sink: &mut S, text: &[u8])
    ensures { IsTextPrinted (change S.contents S.is_failed sink.old sink.new) text.now }
{
    let _ = write_whole(sink, text);
}

// The line of a fault.
#[tactic(auto, unfolding(crate::specs::Lines::fault_line))]
fn line_of(alloc: Global, fault: &EngineFault) -> Result<String, AllocError>
    ensures { IfOk result (λ line. string_bytes line ≡ fault_line fault.now) }
{
    format!(in alloc; "{}\n", FaultLine(fault))
}

/// Gives the exit status of `fault`.
pub fn status_of(fault: &EngineFault) -> u8
    ensures { result ≡ fault_status fault.now }
{
    match fault {
        EngineFault::Refused(_) | EngineFault::Trial(_) => 1,
        EngineFault::Load(_) => 3,
        EngineFault::Query(_) | EngineFault::Plan(_) => 4,
        EngineFault::Program(_) => 5,
        EngineFault::Write { .. } => 6,
        EngineFault::OutOfMemory => MEMORY_STATUS,
    }
}

// The line of a fault is made whole before any of it is written, so that the law of sinks says what
// the stream gains.
/// Writes the line of a fault, and returns its exit status; those of out of memory if there is
/// none for the line.
pub fn print_fault<S: Sink>(alloc: Global, err: &mut S, fault: &EngineFault) -> u8
    ensures { IsFaultPrinted (change S.contents S.is_failed err.old err.new) fault.now result }
{
    match line_of(alloc, fault) {
        Ok(line) => {
            print(err, line.as_bytes());
            status_of(fault)
        }
        Err(_) => {
            print(err, MEMORY_LINE.as_bytes());
            MEMORY_STATUS
        }
    }
}
