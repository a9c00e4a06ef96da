// Runs of pages and of their cases.

use crate::files::copy_folder;
use crate::pages::{Case, Page, Step};
use crate::printed::Printed;
use crate::shell::{run, words_of};
use std::{env, fs, io};

/// The number of cases that passed and failed.
#[derive(Drop)]
pub(crate) struct Tally {
    pub(crate) passed: u64,
    pub(crate) failed: u64,
}

impl Tally {
    fn count(&mut self, is_passed: bool) {
        if is_passed {
            self.passed = self.passed.saturating_add(1);
        } else {
            self.failed = self.failed.saturating_add(1);
        }
    }
}

// Runs a command of a case.
fn run_step(rt: &HostRuntime, step: &Step<'_>) -> io::Result<Printed> {
    let words = words_of(rt.alloc(), step.command)?;
    run(rt, words.as_slice(), step.input.as_slice())
}

// Runs a command of a case, and returns whether its output is as expected. If not, prints both.
fn passes(rt: &HostRuntime, path: &str, title: &str, step: &Step<'_>) -> io::Result<bool> {
    let found = run_step(rt, step);
    if matches!(&found, Ok(printed) if *printed == step.expected) {
        return Ok(true);
    }
    let line = step.line;
    let command = step.command;
    println!(rt; "{path}:{line}: {title}\n  $ {command}")?;
    match found {
        Ok(printed) => {
            step.expected.show(rt, '-')?;
            printed.show(rt, '+')?;
        }
        Err(error) => println!(rt; "  {error}")?,
    }
    Ok(false)
}

// Runs the commands of a case in the current folder.
fn passes_all(rt: &HostRuntime, path: &str, case: &Case<'_>) -> io::Result<bool> {
    copy_folder(rt, "../examples", "examples")?;
    let mut is_passed = true;
    for step in case.steps.iter() {
        is_passed = passes(rt, path, case.title, step)? && is_passed;
    }
    Ok(is_passed)
}

// Runs a case in a folder of its own.
fn run_case(rt: &HostRuntime, path: &str, case: &Case<'_>, tally: &mut Tally) -> io::Result<()> {
    if case.steps.is_empty() {
        return Ok(());
    }
    fs::create_dir(rt, "room")?;
    env::set_current_dir(rt, "room")?;
    let is_passed = passes_all(rt, path, case);
    env::set_current_dir(rt, "..")?;
    fs::remove_dir_all(rt, "room")?;
    tally.count(is_passed?);
    Ok(())
}

// Returns the cases of a page, or prints the first line that can't be read.
fn page_of<'a>(rt: &HostRuntime, path: &str, text: &'a str) -> io::Result<Option<Page<'a>>> {
    let mut page = Page::new(rt.alloc());
    for (line, number) in text.lines().zip(1usize..) {
        if let Err(error) = page.read(number, line) {
            println!(rt; "{path}:{number}: {error}")?;
            return Ok(None);
        }
    }
    if let Err(error) = page.end() {
        println!(rt; "{path}: {error}")?;
        return Ok(None);
    }
    Ok(Some(page))
}

// Runs the cases of a page. A page that can't be read counts as a failed case.
fn run_page(rt: &HostRuntime, path: &str, tally: &mut Tally) -> io::Result<()> {
    let text = fs::read_to_string(rt, path)?;
    let Some(page) = page_of(rt, path, text.as_str())? else {
        tally.count(false);
        return Ok(());
    };
    for case in page.cases.iter() {
        run_case(rt, path, case, tally)?;
    }
    Ok(())
}

// Returns the sorted paths of the pages in a folder.
fn pages_in(rt: &HostRuntime, folder: &str) -> io::Result<Vec<String>> {
    let mut paths = Vec::new(rt.alloc());
    for entry in fs::read_dir(rt, folder)? {
        let path = String::from_str(rt.alloc(), entry?.path().as_str())?;
        if path.ends_with(".md") {
            paths.push(path)?;
        }
    }
    paths.sort_unstable();
    Ok(paths)
}

/// Runs the cases of the pages in a folder.
pub(crate) fn run_pages(rt: &HostRuntime, folder: &str, tally: &mut Tally) -> io::Result<()> {
    for path in pages_in(rt, folder)?.iter() {
        run_page(rt, path.as_str(), tally)?;
    }
    Ok(())
}
