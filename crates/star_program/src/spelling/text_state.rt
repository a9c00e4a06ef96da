// The state of a text that is being read, and what may follow it.

ghost use Rattle.std.specs.Prelude.{◌≡◌, Ok, Err, Some, MatchResult};
ghost use Rattle.star_common.specs.Memory.{UnlessMemory};
ghost use Rattle.star_program.specs.{Private.Within.IsWithinLargest, Text.Lines.words_of, Text.Said.said};
ghost use Rattle.star_program.specs.Text.FirstFaults as spec;
ghost use Rattle.star_program.specs.declared.spelling.fault.TextFault.TheVariants as faults;

use crate::program::{
    MOST_AGGREGATES, MOST_GROUPS, MOST_INSTRUCTIONS, MOST_KEYS, MOST_REGISTERS, MOST_SCANS,
    MOST_SHOWS, MOST_SORTS,
};
use crate::spelling::fault::{LineFault, TextFault};
use crate::spelling::lines::split_word;
use crate::spelling::reading::read_line;
use crate::spelling::statement::Statement;
use std::alloc::Global;

/// The part of a program that a text is in: the header or the registers are expected, or other
/// statements follow.
#[derive(Clone, Copy)]
pub enum Stage {
    Header,
    Registers,
    Groups,
    Body,
    Shows,
    Sorts,
}

/// The state of a text: its part, and how many statements of each kind came before. `depth` counts
/// the open scans.
#[derive(Clone, Copy)]
pub struct TextState {
    pub stage: Stage,
    pub groups: u16,
    pub instructions: u16,
    pub depth: u8,
    pub shows: u16,
    pub sorts: u16,
}

impl TextState {
    /// Returns the state before the first line.
    #[tactic(auto, unfolding(crate::specs::Text::FirstFaults::start))]
    pub(crate) fn start() -> TextState
        ensures { result ≡ spec.start }
    {
        TextState {
            stage: Stage::Header,
            groups: 0,
            instructions: 0,
            depth: 0,
            shows: 0,
            sorts: 0,
        }
    }

    // Returns the state after a line of the body.
    fn after_step(self, statement: &Statement) -> Option<TextState>
        requires { IsWithinLargest self }
        ensures { result ≡ spec.state_after_step self statement.now }
    {
        match statement {
            Statement::Act(_) => Some(TextState {
                stage: Stage::Body,
                instructions: self.instructions + 1,
                ..self
            }),
            Statement::Scan { .. } => Some(TextState {
                stage: Stage::Body,
                instructions: self.instructions + 1,
                depth: self.depth + 1,
                ..self
            }),
            Statement::End if self.depth > 0 => Some(TextState {
                depth: self.depth - 1,
                ..self
            }),
            Statement::Report(_) if self.depth == 0 => Some(TextState {
                stage: Stage::Shows,
                ..self
            }),
            _ => None,
        }
    }

    // Returns the state after a line, if it is allowed here: groups are numbered in order.
    #[tactic(auto, unfolding(crate::specs::Text::FirstFaults::state_after))]
    fn after(self, statement: &Statement) -> Option<TextState>
        requires { IsWithinLargest self }
        ensures { result ≡ spec.state_after self statement.now }
    {
        match (self.stage, statement) {
            (Stage::Header, Statement::Header) => Some(TextState {
                stage: Stage::Registers,
                ..self
            }),
            (Stage::Registers, Statement::Registers(_)) => Some(TextState {
                stage: Stage::Groups,
                ..self
            }),
            (Stage::Groups, Statement::Group { index, .. }) if *index == self.groups => {
                Some(TextState {
                    groups: self.groups + 1,
                    ..self
                })
            }
            (Stage::Groups | Stage::Body, _) => self.after_step(statement),
            (Stage::Shows, Statement::Show(_)) => Some(TextState {
                shows: self.shows + 1,
                ..self
            }),
            (Stage::Shows, Statement::Sort(_)) => Some(TextState {
                stage: Stage::Sorts,
                sorts: 1,
                ..self
            }),
            (Stage::Sorts, Statement::Sort(_)) => Some(TextState {
                sorts: self.sorts + 1,
                ..self
            }),
            _ => None,
        }
    }

    #[tactic(auto, unfolding(crate::specs::Text::FirstFaults::is_within))]
    fn is_within(self) -> bool
        ensures { result ≡ spec.is_within self }
    {
        self.groups <= MOST_GROUPS as u16
            && self.instructions <= MOST_INSTRUCTIONS
            && self.depth <= MOST_SCANS
            && self.shows <= MOST_SHOWS as u16
            && self.sorts <= MOST_SORTS as u16
    }

    // Returns the error of a line that is not allowed here.
    fn bad_line(self, line: usize) -> TextFault
        ensures { result ≡ spec.bad_in self.stage line }
    {
        match self.stage {
            Stage::Header => TextFault::BadHeader,
            _ => TextFault::BadLine { line },
        }
    }

    /// Returns the error of a text that ends here, before the line with this number.
    pub(crate) fn end_fault(self, line: usize) -> Option<TextFault>
        ensures { result ≡ spec.end_in self.stage self.depth line }
    {
        match self.stage {
            Stage::Header => Some(TextFault::BadHeader),
            Stage::Registers => Some(TextFault::BadLine { line }),
            Stage::Groups | Stage::Body => {
                if self.depth == 0 {
                    Some(TextFault::BadLine { line })
                } else {
                    Some(TextFault::OpenScan)
                }
            }
            Stage::Shows | Stage::Sorts => None,
        }
    }
}

// Tests whether a statement by itself is within the limits.
#[tactic(auto, unfolding(crate::specs::Text::FirstFaults::is_small))]
fn is_small(statement: &Statement) -> bool
    ensures { result ≡ spec.is_small statement.now }
{
    match statement {
        Statement::Registers(count) => *count <= MOST_REGISTERS,
        Statement::Group { group, .. } => {
            group.keys.as_slice().len() <= MOST_KEYS
                && group.aggregates.as_slice().len() <= MOST_AGGREGATES
        }
        _ => true,
    }
}

// Tests whether the first word of a line is `report`.
fn begins_report(line: &[u8]) -> bool
    ensures { result ≡ spec.begins_report (words_of line.now) }
{
    match split_word(line) {
        Some((word, _)) => word == "report".as_bytes(),
        None => false,
    }
}

// Returns the state after a statement, or its error.
fn reach(state: TextState, line: usize, statement: &Statement) -> Result<TextState, TextFault>
    requires { IsWithinLargest state }
    ensures { result ≡ spec.state_reached state line statement.now (spec.state_after state statement.now) }
{
    match state.after(statement) {
        Some(next) => {
            if next.is_within() && is_small(statement) {
                Ok(next)
            } else {
                Err(TextFault::TooLarge { line })
            }
        }
        None => Err(state.bad_line(line)),
    }
}

/// Returns the state after a line that is not blank, and its statement, or its error.
#[tactic(auto, unfolding(crate::specs::Text::FirstFaults::advance))]
pub(crate) fn advance(
    alloc: Global,
    state: TextState,
    line: usize,
    text: &[u8],
) -> Result<(TextState, Statement), TextFault>
    requires { IsWithinLargest state }
    ensures { MatchResult result (λ (next, statement). (said text.now ≡ Some statement)
        × (spec.advance state line text.now ≡ Ok next))
        (λ fault. UnlessMemory faults.OutOfMemory fault
        (spec.advance state line text.now ≡ Err fault)) }
{
    if state.depth > 0 && begins_report(text) {
        return Err(TextFault::OpenScan);
    }
    match read_line(alloc, text) {
        Ok(statement) => match reach(state, line, &statement) {
            Ok(next) => Ok((next, statement)),
            Err(fault) => Err(fault),
        },
        Err(LineFault::OutOfMemory) => Err(TextFault::OutOfMemory),
        Err(LineFault::Unreadable) => Err(state.bad_line(line)),
    }
}
