// The files of reports: each with the name of its report, read and checked before any table.

ghost use Rattle.std.specs.{Prelude.{◌≡◌, ◌++◌, ◌∷◌, [], IfErr, IfOk, OnOk}, List.AllZip, Option.option_copied, Path.path_file_stem};
ghost use Rattle.star_cli.specs.{Commands.{IsOneRefused, IsPathRefused}, Stores.Known, Private.Errands.{IsErrandFor, IsReadFrom}};

use crate::failure::Failure;
use crate::files::read_file;
use crate::store::Store;
use star_engine::Question;
use star_service::ReportJob;
use std::alloc::{AllocError, Global};
use std::path::Path;

/// A file that was read and that is a query or a program, with the name of its report.
#[derive(Drop)]
pub(crate) struct ReadFile<'a> {
    name: &'a str,
    bytes: Vec<u8>,
}

impl<'a> ReadFile<'a> {
    fn job(&self) -> ReportJob<'_>
        ensures { IsErrandFor self.now result }
    {
        ReportJob {
            name: self.name,
            file: self.bytes.as_slice(),
        }
    }
}

// The name of a file's report: the last part of the file's path, without its last ending.
fn name_of(path: &str) -> Option<&str>
    ensures { option_copied result ≡ path_file_stem path.now }
{
    Path::new(path).file_stem()
}

// There are 1,000 names at most, so each is compared with all before it.
fn is_taken(names: &[&str], name: &str) -> bool {
    names.iter().any(|taken| *taken == name)
}

fn add_name<'a>(names: &mut Vec<&'a str>, path: &'a str) -> Result<(), Failure<'a>>
    ensures { (known : Known) → IfErr result (IsPathRefused known path.entry) }
{
    let Some(name) = name_of(path) else {
        return Err(Failure::Unnamed(path));
    };
    if is_taken(names.as_slice(), name) {
        return Err(Failure::NamedTwice(name));
    }
    names.push(name).map_err(AllocError::from)?;
    Ok(())
}

// Checks that no two files have reports of one name.
fn check_names<'a>(alloc: Global, paths: &[&'a str]) -> Result<(), Failure<'a>>
    ensures { (known : Known) → IfErr result (IsOneRefused known paths.now) }
{
    let mut names = Vec::new(alloc);
    for path in paths {
        add_name(&mut names, path)?;
    }
    Ok(())
}

// Reads a file, and checks that it is a query or a program.
fn read_checked<'a, R: Store + AllocGlobal>(
    rt: &R,
    path: &'a str,
) -> Result<ReadFile<'a>, Failure<'a>>
    ensures read { IfOk result (IsReadFrom (R.known rt.now) path.entry) }
    ensures refused { IfErr result (IsPathRefused (R.known rt.now) path.entry) }
{
    let Some(name) = name_of(path) else {
        return Err(Failure::Unnamed(path));
    };
    let bytes = read_file(rt, path)?;
    match Question::of_file(rt.alloc(), bytes.as_slice()) {
        Ok(_) => Ok(ReadFile { name, bytes }),
        Err(fault) => Err(Failure::of_file(path, fault)),
    }
}

// Adds a file.
fn keep<'a>(files: &mut Vec<ReadFile<'a>>, file: ReadFile<'a>) -> Result<(), AllocError>
    ensures { OnOk result (files.new.items ≡ files.old.items ++ file.entry ∷ []) }
{
    files.push(file)?;
    Ok(())
}

/// Reads the files at some paths, and checks that each is a query or a program. The first failure is
/// returned. Before any file is read, the names of the reports are checked: no two are the same.
pub(crate) fn read_files<'a, R: Store + AllocGlobal>(
    rt: &R,
    paths: &[&'a str],
) -> Result<Vec<ReadFile<'a>>, Failure<'a>>
    ensures read { IfOk result
        (λ files. AllZip (IsReadFrom (R.known rt.now)) paths.now files.items) }
    ensures refused { IfErr result (IsOneRefused (R.known rt.now) paths.now) }
{
    check_names(rt.alloc(), paths)?;
    let mut files = Vec::new(rt.alloc());
    for path in paths {
        let file = read_checked(rt, path)?;
        keep(&mut files, file)?;
    }
    Ok(files)
}

/// Returns the errands of some files.
pub(crate) fn jobs_of<'f>(
    alloc: Global,
    files: &'f [ReadFile<'_>],
) -> Result<Vec<ReportJob<'f>>, AllocError>
    ensures { IfOk result (λ jobs. AllZip IsErrandFor files.now jobs.items) }
{
    let mut jobs = Vec::new(alloc);
    for file in files {
        jobs.push(file.job())?;
    }
    Ok(jobs)
}
