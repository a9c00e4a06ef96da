// A program whose text has been read in part.

ghost use Rattle.std.specs.Prelude.{◌≡◌, ◌<◌, OnOk, length};
ghost use Rattle.star_program.specs.Private.Drafts as spec;
ghost use Rattle.star_program.specs.declared.spelling.statement.Statement.TheVariants as says;

use crate::body::{Body, Step};
use crate::program::{Groups, Parts, Shows, Sorts};
use crate::spelling::statement::Statement;
use star_common::Items;
use star_schema::TableId;
use std::alloc::{AllocError, Global};
use std::mem::replace;

/// A scan whose end has not been read, and the steps before it.
#[derive(Drop)]
pub struct OpenScan {
    pub before: Body,
    pub table: TableId,
    pub target: u16,
}

/// The part of a program that has been read. `scans` are the open scans, outermost first, and
/// `body` the steps after the line of the innermost.
pub struct Draft {
    pub registers: u16,
    pub groups: Groups,
    pub scans: Items<OpenScan>,
    pub body: Body,
    pub report: u16,
    pub shows: Shows,
    pub sorts: Sorts,
}

impl Drop for Draft {
    fn drop(self) {
        let Self {
            registers,
            groups,
            scans,
            body,
            report,
            shows,
            sorts,
        } = self;
    }
}

impl Draft {
    /// Returns the draft before the first line.
    #[tactic(auto, unfolding(crate::specs::Private::Drafts::nothing_read))]
    pub(crate) fn new(alloc: Global) -> Draft
        ensures { result ≡ spec.nothing_read }
    {
        Draft {
            registers: 0,
            groups: Items::from_vec(Vec::new(alloc)),
            scans: Items::from_vec(Vec::new(alloc)),
            body: Body::from_vec(Vec::new(alloc)),
            report: 0,
            shows: Items::from_vec(Vec::new(alloc)),
            sorts: Items::from_vec(Vec::new(alloc)),
        }
    }

    fn open_scan(&mut self, table: TableId, target: u16) -> Result<(), AllocError>
        ensures { OnOk result (spec.IsAdded self.old (says.Scan table target) self.new) }
    {
        let inner = Body::from_vec(Vec::new(self.groups.allocator()));
        let before = replace(&mut self.body, inner);
        self.scans.push(OpenScan {
            before,
            table,
            target,
        })
    }

    fn close_scan(&mut self) -> Result<(), AllocError>
        requires { 0 < length self.old.scans }
        ensures { OnOk result (spec.IsClosed self.old self.new) }
    {
        if let Some(
            OpenScan {
                before,
                table,
                target,
            },
        ) = self.scans.pop()
        {
            let body = replace(&mut self.body, before);
            self.body.push(Step::Scan {
                table,
                target,
                body,
            })?;
        }
        Ok(())
    }

    /// Appends a statement. If it ends a scan, one is open.
    pub(crate) fn add(&mut self, statement: Statement) -> Result<(), AllocError>
        requires { statement ≡ says.End → 0 < length self.old.scans }
        ensures { OnOk result (spec.IsAdded self.old statement self.new) }
    {
        match statement {
            Statement::Header => {}
            Statement::Registers(registers) => self.registers = registers,
            Statement::Group { group, .. } => self.groups.push(group)?,
            Statement::Act(op) => self.body.push(Step::Act(op))?,
            Statement::Scan { table, target } => self.open_scan(table, target)?,
            Statement::End => self.close_scan()?,
            Statement::Report(group) => self.report = group,
            Statement::Show(show) => self.shows.push(show)?,
            Statement::Sort(key) => self.sorts.push(key)?,
        }
        Ok(())
    }

    /// Returns the program at the end of its text.
    pub(crate) fn finish(self) -> Parts
        ensures { result ≡ spec.finished self }
    {
        let Self {
            registers,
            groups,
            scans: _scans,
            body,
            report,
            shows,
            sorts,
        } = self;
        Parts {
            registers,
            groups,
            body,
            report,
            shows,
            sorts,
        }
    }
}
