// Pages of cases: each heading begins a case, and lines after four spaces are its commands and their
// output.

use crate::printed::Printed;
use std::alloc::Global;
use std::io;

/// A command of a case.
#[derive(Drop)]
pub(crate) struct Step<'a> {
    pub(crate) line: usize,
    pub(crate) command: &'a str,
    /// The lines of its here document.
    pub(crate) input: Vec<u8>,
    pub(crate) expected: Printed,
}

/// A heading and the commands below it.
#[derive(Drop)]
pub(crate) struct Case<'a> {
    pub(crate) line: usize,
    pub(crate) title: &'a str,
    pub(crate) steps: Vec<Step<'a>>,
}

// The kind of the next line after four spaces: text for the reader, a line of a here document that ends
// with this word, or output of the last command.
#[derive(Clone, Copy)]
enum Next<'a> {
    Prose,
    Input(&'a str),
    Output,
}

/// The cases of the lines read.
#[derive(Drop)]
pub(crate) struct Page<'a> {
    alloc: Global,
    pub(crate) cases: Vec<Case<'a>>,
    next: Next<'a>,
    // The number of blank lines since the last line of output.
    blanks: u32,
}

impl<'a> Page<'a> {
    /// Returns a page without lines.
    pub(crate) fn new(alloc: Global) -> Page<'a> {
        Page {
            alloc,
            cases: Vec::new(alloc),
            next: Next::Prose,
            blanks: 0,
        }
    }

    /// Reads the line with this number.
    pub(crate) fn read(&mut self, number: usize, line: &'a str) -> io::Result<()> {
        if let Next::Input(end) = self.next {
            return self.read_input(line, end);
        }
        if line.trim().is_empty() {
            self.blanks = self.blanks.saturating_add(1);
            return Ok(());
        }
        let Some(text) = line.strip_prefix("    ") else {
            return self.read_prose(number, line);
        };
        match text.strip_prefix("$ ") {
            Some(command) => self.begin(number, command),
            None => self.read_output(text),
        }
    }

    // Reads a line of prose, or a heading.
    fn read_prose(&mut self, line: usize, text: &'a str) -> io::Result<()> {
        self.next = Next::Prose;
        if !text.starts_with('#') {
            return Ok(());
        }
        let case = Case {
            line,
            title: text,
            steps: Vec::new(self.alloc),
        };
        self.cases.push(case)?;
        Ok(())
    }

    // Reads a line with a command.
    fn begin(&mut self, line: usize, command: &'a str) -> io::Result<()> {
        let step = Step {
            line,
            command,
            input: Vec::new(self.alloc),
            expected: Printed::nothing(self.alloc),
        };
        let Some(case) = self.cases.last_mut() else {
            return Err(io::Error::other("a command before the first heading"));
        };
        case.steps.push(step)?;
        self.blanks = 0;
        self.next = match command.rsplit_once(" << ") {
            Some((_, end)) => Next::Input(end),
            None => Next::Output,
        };
        Ok(())
    }

    // Returns the last command.
    fn last_step(&mut self) -> Option<&mut Step<'a>> {
        self.cases.last_mut()?.steps.last_mut()
    }

    // Reads a line of a here document, or the word that ends it.
    fn read_input(&mut self, line: &str, end: &str) -> io::Result<()> {
        let Some(text) = line.strip_prefix("    >") else {
            return Err(io::Error::other("expected a line of the here document"));
        };
        let text = text.strip_prefix(' ').unwrap_or(text);
        if text == end {
            self.next = Next::Output;
            return Ok(());
        }
        let Some(step) = self.last_step() else {
            return Ok(());
        };
        step.input.extend_from_slice(text.as_bytes())?;
        step.input.push(b'\n')?;
        Ok(())
    }

    // Reads a line of output of the last command, with the blank lines before it.
    fn read_output(&mut self, text: &str) -> io::Result<()> {
        let Next::Output = self.next else {
            return Ok(());
        };
        let blanks = self.blanks;
        self.blanks = 0;
        let Some(step) = self.last_step() else {
            return Ok(());
        };
        for _ in 0..blanks {
            step.expected.out.push(b'\n')?;
        }
        step.expected.push(text)
    }

    /// Returns an error if the page ends in a here document.
    pub(crate) fn end(&self) -> io::Result<()> {
        match self.next {
            Next::Input(_) => Err(io::Error::other("the here document does not end")),
            Next::Prose | Next::Output => Ok(()),
        }
    }
}
