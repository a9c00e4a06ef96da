// Programs and their parts.

ghost use Rattle.std.specs.Prelude.{◌≡◌, ◌≤◌, ◌<◌, ◌↔◌, All, length, IsSome, IfErr, IfNone, IfOk, IfSome, IsTrue};
ghost use Rattle.star_program.specs.{Text.Written.program_text, Faults.group_at, Limits.IsSmall, Limits.IsWithinLimits, Text.Spellable.IsSpellable, Text.FirstFaults.IsFirstTextFault, Text.Spelling.IsRead, Text.Spelling.Spells};

use crate::body::Body;
use crate::group::GroupDecl;
use crate::spelling::TextFault;
use crate::spelling::parsing::read_parts;
use crate::spelling::program_lines::write_parts;
use star_common::Items;
use star_schema::{GroupColumn, SortKey};
use std::alloc::{AllocError, Global};
use std::marker::Model;

/// The maximum number of instructions of a program.
pub const MOST_INSTRUCTIONS: u16 = 4_096;

/// The maximum number of registers of a program.
pub const MOST_REGISTERS: u16 = 4_096;

/// The maximum number of groups of a program.
pub const MOST_GROUPS: usize = 8;

/// The maximum number of keys of a group.
pub const MOST_KEYS: usize = 6;

/// The maximum number of aggregates of a group.
pub const MOST_AGGREGATES: usize = 8;

/// The maximum nesting depth of scans.
pub const MOST_SCANS: u8 = 3;

/// The maximum number of show lines of a program.
pub const MOST_SHOWS: usize = 16;

/// The maximum number of sort lines of a program.
pub const MOST_SORTS: usize = 16;

/// The name of a shown column as its bytes.
pub type Name = Items<u8>;

/// A column of the report: its name, and the column of the reported group that it shows.
#[derive(Drop)]
pub struct Show {
    pub name: Name,
    pub column: GroupColumn,
}

/// The groups of a program, by number from 0.
pub type Groups = Items<GroupDecl>;

/// The columns of the report in order.
pub type Shows = Items<Show>;

/// The sort keys of the report's rows, the first key first.
pub type Sorts = Items<SortKey>;

/// The parts of a program: the number of its registers, its groups, its instructions, and which
/// group it reports and how.
pub struct Parts {
    pub registers: u16,
    pub groups: Groups,
    pub body: Body,
    pub report: u16,
    pub shows: Shows,
    pub sorts: Sorts,
}

impl Drop for Parts {
    fn drop(self) {
        let Self {
            registers,
            groups,
            body,
            report,
            shows,
            sorts,
        } = self;
    }
}

/// A program: parts within the limits, seen in contracts as these parts.
#[derive(Drop)]
pub struct Program {
    parts: Parts,
}

impl Model for Program {
    ghost use Rattle.star_program.specs.{declared.program.Parts.Parts, contracts.program.Parts.the_row};

    ghost Value = { Parts };

    ghost coded = { the_row.coded };

    ghost use Rattle.star_program.specs.Limits.{IsWithinLimits};

    ghost view = { λ program. program.parts };

    ghost invariant = { λ program. IsWithinLimits program.parts };
}

impl Program {
    /// Makes a program of these parts, or returns `None` if a limit is exceeded.
    pub fn new(parts: Parts) -> Option<Program>
        ensures exactly { IsSome result ↔ IsWithinLimits parts }
        ensures given { IfSome result (λ program. program ≡ parts) }
    {
        if parts.are_within_limits() {
            Some(Program { parts })
        } else {
            None
        }
    }

    /// Returns the parts of the program.
    pub fn parts(&self) -> &Parts
        ensures same { result.now ≡ self.now }
        ensures limits { IsWithinLimits self.now }
    {
        &self.parts
    }

    /// Reads the program that a text spells, or returns its first error: that of the first bad
    /// line, and within a line an open scan before a bad line, and a bad line before a limit. Out
    /// of memory may come before any error.
    pub fn parse(alloc: Global, text: &[u8]) -> Result<Program, TextFault>
        // The result is the program that the text spells.
        ensures spelled { IfOk result (λ program. Spells text.now program) }
        // A text that spells a program within the limits is read as that program, unless memory
        // runs out.
        ensures only { (parts : Parts) → Spells text.now parts → IsWithinLimits parts
            → IsRead parts result }
        // An error is the first one of the text.
        ensures fault { IfErr result (λ fault. IsFirstTextFault text.now fault) }
    {
        let parts = read_parts(alloc, text)?;
        Ok(Program { parts })
    }

    // A program that no text spells is written too: `new` accepts registers, positions and names
    // that no line can state, and keys of groups that are of a numeric column.
    /// Returns the program's text: a line for each statement, one space between words, two more
    /// spaces at the start of a line for each enclosing scan, numbers without leading zeros, a line
    /// feed after each line.
    pub fn to_text(&self) -> Result<Vec<u8>, AllocError>
        ensures written { IfOk result (λ text. text.items ≡ program_text self.now) }
        // If some text spells the program, this one does, and it is read back as the program.
        ensures spells { IfOk result (λ text. IsSpellable self.now → Spells text.items self.now) }
    {
        write_parts(self.parts.groups.allocator(), &self.parts)
    }
}

impl Parts {
    /// Returns the group with a number, if it is declared. Allocates nothing.
    pub fn group(&self, number: u16) -> Option<&GroupDecl>
        ensures group { IfSome result (λ group. group.now ≡ group_at self.now number) }
        ensures there { IfSome result (λ _. number < length self.now.groups) }
        ensures none { IfNone result (length self.now.groups ≤ number) }
    {
        self.groups.as_slice().get(number as usize)
    }

    /// Returns the group with a number that is declared. Allocates nothing.
    pub fn group_at(&self, number: u16) -> &GroupDecl
        requires { number < length self.now.groups }
        ensures { result.now ≡ group_at self.now number }
    {
        &self.groups.as_slice()[number as usize]
    }

    fn are_within_limits(&self) -> bool
        ensures { IsTrue result ↔ IsWithinLimits self.now }
    {
        let shows = self.shows.as_slice();
        let sorts = self.sorts.as_slice();
        self.registers <= MOST_REGISTERS
            && self.body.room_left(MOST_INSTRUCTIONS).is_some()
            && self.body.is_nested_within(MOST_SCANS)
            && are_few(self.groups.as_slice())
            && shows.len() <= MOST_SHOWS
            && sorts.len() <= MOST_SORTS
    }
}

// Tests whether there are at most 8 groups, each with at most 6 keys and 8 aggregates.
fn are_few(groups: &[GroupDecl]) -> bool
    ensures { IsTrue result ↔ ((length groups.now ≤ 8) × All IsSmall groups.now) }
{
    groups.len() <= MOST_GROUPS && groups.iter().all(is_small)
}

fn is_small(group: &GroupDecl) -> bool
    ensures { IsTrue result ↔ IsSmall group.now }
{
    group.keys.as_slice().len() <= MOST_KEYS && group.aggregates.as_slice().len() <= MOST_AGGREGATES
}
