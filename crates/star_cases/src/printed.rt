// The output of a command.

use crate::escapes::push_unescaped;
use std::alloc::Global;
use std::io;

/// The output of a command on both streams, and its exit status.
#[derive(Drop, PartialEq, Eq)]
pub(crate) struct Printed {
    pub(crate) out: Vec<u8>,
    pub(crate) err: Vec<u8>,
    pub(crate) status: u8,
}

// Appends the bytes of a line of a page.
fn push_line(stream: &mut Vec<u8>, line: &str) -> io::Result<()> {
    let (line, is_escaped) = match line.strip_suffix(" (esc)") {
        Some(line) => (line, true),
        None => (line, false),
    };
    let (line, end) = match line.strip_suffix(" (no-eol)") {
        Some(line) => (line, ""),
        None => (line, "\n"),
    };
    if is_escaped {
        push_unescaped(stream, line)?;
    } else {
        stream.extend_from_slice(line.as_bytes())?;
    }
    stream.extend_from_slice(end.as_bytes())?;
    Ok(())
}

// Returns the status in a line `[N]`.
fn status_of(line: &str) -> Option<u8> {
    line.strip_prefix('[')?.strip_suffix(']')?.parse().ok()
}

impl Printed {
    /// Returns no output, and status 0.
    pub(crate) fn nothing(alloc: Global) -> Printed {
        Printed {
            out: Vec::new(alloc),
            err: Vec::new(alloc),
            status: 0,
        }
    }

    /// Appends a line of a page to its stream, or keeps the status in it.
    pub(crate) fn push(&mut self, line: &str) -> io::Result<()> {
        if let Some(status) = status_of(line) {
            self.status = status;
            return Ok(());
        }
        if line == "2>" {
            return push_line(&mut self.err, "");
        }
        match line.strip_prefix("2> ") {
            Some(line) => push_line(&mut self.err, line),
            None => push_line(&mut self.out, line),
        }
    }

    /// Prints the output in the form of a page, with a sign before each line.
    pub(crate) fn show(&self, rt: &HostRuntime, sign: char) -> io::Result<()> {
        show_stream(rt, sign, "", self.out.as_slice())?;
        show_stream(rt, sign, "2> ", self.err.as_slice())?;
        if self.status != 0 {
            let status = self.status;
            println!(rt; "  {sign} [{status}]")?;
        }
        Ok(())
    }
}

// Prints the lines of a stream.
fn show_stream(rt: &HostRuntime, sign: char, before: &str, bytes: &[u8]) -> io::Result<()> {
    let text = String::from_utf8_lossy(rt.alloc(), bytes)?;
    for line in text.split_inclusive('\n') {
        match line.strip_suffix('\n') {
            Some(line) => show_line(rt, sign, before, line, "")?,
            None => show_line(rt, sign, before, line, " (no-eol)")?,
        }
    }
    Ok(())
}

// Prints a line, with escapes if it has control characters.
fn show_line(
    rt: &HostRuntime,
    sign: char,
    before: &str,
    line: &str,
    after: &str,
) -> io::Result<()> {
    if line.bytes().all(|byte| byte >= b' ') {
        println!(rt; "  {sign} {before}{line}{after}")
    } else {
        let line = line.escape_debug();
        println!(rt; "  {sign} {before}{line}{after} (esc)")
    }
}
