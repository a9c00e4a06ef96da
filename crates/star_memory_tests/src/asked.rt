// Calls that are made again when they are refused memory.

use std::alloc::{AllocError, Global};
use std::io;
use std::test::Fail;

/// Prints that a call was refused memory and that the test goes on. `bench/refuse-memory` looks for
/// the line: a test prints it if a request was refused, and only then.
pub(crate) fn print_refused(rt: &impl Print) -> io::Result<()> {
    println!(rt; "memory was refused")
}

/// Fails with a message unless something holds.
pub(crate) fn expect(holds: bool, what: &str) -> Result<(), Fail> {
    if holds { Ok(()) } else { Err(Fail::from(what)) }
}

/// Makes a call, and makes it again if it is refused memory. Its result is as expected.
pub(crate) fn check_call<F: Fn() -> Result<String, AllocError>>(
    rt: &impl Print,
    expected: &str,
    call: F,
) -> Result<(), Fail>
    requires { F.IsAlwaysCallable call }
{
    let answer = match call() {
        Ok(answer) => answer,
        Err(AllocError) => {
            print_refused(rt)?;
            call()?
        }
    };
    if answer.as_str() == expected {
        Ok(())
    } else {
        Err(Fail::from(format_args!("{answer} where {expected} is expected")))
    }
}

/// Copies a text.
pub(crate) fn text_of(alloc: Global, bytes: &[u8]) -> Result<String, AllocError> {
    String::from_str(alloc, str::from_utf8(bytes).unwrap_or("not a text"))
}
