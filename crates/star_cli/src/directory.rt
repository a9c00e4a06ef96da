// A folder as a report sink.

ghost use Rattle.std.specs.Prelude.{None, IfErr};
ghost use Rattle.star_cli.specs.Private.FailedWrites.{IsFailedBehind, IsFailedWithin};

use star_common::{Out, write_whole};
use star_service::{ReportSink, ReportSinkFault};
use std::alloc::Global;
use std::fs::{File, OpenFile};
use std::rt::Files;
use std::{fs, io};

// A part that a killed run left is written over by the next. A folder is one command's at a time:
// two that write reports of one name at once share its part.
/// A folder as a report sink. A report is the file `NAME.report`, a partial `NAME.partial`. It is written
/// whole under another name, `NAME.report.part`, and then renamed, so that no half report is ever seen
/// under its own.
#[derive(Clone, Copy)]
pub(crate) struct Directory<'a, R> {
    pub(crate) rt: &'a R,
    pub(crate) folder: &'a str,
    pub(crate) ending: &'static str,
    // How many bytes of the last report were sent, if a write of it failed.
    pub(crate) failed_at: Option<u64>,
}

// The error of a failure after the first `sent` bytes of a report.
fn fault_of(error: &io::Error, sent: usize) -> ReportSinkFault
    ensures { IsFailedBehind sent result }
{
    match error.kind() {
        io::ErrorKind::OutOfMemory => ReportSinkFault::OutOfMemory,
        _ => ReportSinkFault::Write { sent: sent as u64 },
    }
}

// Writes a whole report to a file, and sees to it that the file is stored.
fn write_file<R: Files>(rt: &R, path: &str, report: &[u8]) -> Result<(), ReportSinkFault>
    ensures { IfErr result (IsFailedWithin report.now) }
{
    let mut file = match File::create(rt, path) {
        Ok(file) => file,
        Err(error) => return Err(fault_of(&error, 0)),
    };
    if let Err(fault) = write_whole(&mut Out::new(&mut file), report) {
        return Err(ReportSinkFault::Write { sent: fault.sent });
    }
    match file.sync_all() {
        Ok(()) => Ok(()),
        Err(error) => Err(fault_of(&error, report.len())),
    }
}

// Writes a whole report to a file of another name, and gives it its own.
fn write_renamed<R: Files>(
    rt: &R,
    part: &str,
    path: &str,
    report: &[u8],
) -> Result<(), ReportSinkFault>
    ensures { IfErr result (IsFailedWithin report.now) }
{
    match write_file(rt, part, report) {
        Ok(()) => match fs::rename(rt, part, path) {
            Ok(()) => Ok(()),
            Err(error) => Err(fault_of(&error, report.len())),
        },
        Err(fault) => Err(fault),
    }
}

impl<'a, R: Files> ReportSink for Directory<'a, R> {
    ghost reports = { λ directory. None };

    ghost failed_at = { λ directory. directory.failed_at };

    fn store(&mut self, alloc: Global, name: &str, report: &[u8]) -> Result<(), ReportSinkFault> {
        let folder = self.folder;
        let ending = self.ending;
        let path = format!(in alloc; "{folder}/{name}.{ending}")?;
        let part = format!(in alloc; "{folder}/{name}.{ending}.part")?;
        match write_renamed(self.rt, part.as_str(), path.as_str(), report) {
            Ok(()) => {
                self.failed_at = None;
                Ok(())
            }
            Err(fault) => {
                let _ = fs::remove_file(self.rt, part.as_str());
                if let ReportSinkFault::Write { sent } = fault {
                    self.failed_at = Some(sent);
                }
                Err(fault)
            }
        }
    }
}
