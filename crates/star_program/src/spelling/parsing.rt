// Reading a program from its text.

ghost use Rattle.std.specs.Prelude.{◌≡◌, None, MatchResult, false};
ghost use Rattle.star_program.specs.{Limits.IsWithinLimits, Text.Lines.is_blank_line as blank, Text.FirstFaults.IsFirstTextFault, Text.Spelling.Spells};
ghost use Rattle.star_program.specs.Private.Drafts as spec;

use crate::program::Parts;
use crate::spelling::draft::Draft;
use crate::spelling::fault::TextFault;
use crate::spelling::lines::{is_blank, split_line};
use crate::spelling::text_state::{TextState, advance};
use std::alloc::Global;

// Reads a line that is not blank: its statement is added to the draft. Returns the state after it.
fn take_statement(
    alloc: Global,
    state: TextState,
    draft: &mut Draft,
    line: usize,
    text: &[u8],
) -> Result<TextState, TextFault>
    requires at { spec.IsAt state draft.old }
    requires filled { blank text.now ≡ false }
    ensures { MatchResult result (λ next. spec.IsPassed state draft.old line text.now next
        draft.new) (λ fault. spec.IsLineRefused fault state line text.now) }
{
    match advance(alloc, state, line, text) {
        Ok((next, statement)) => {
            draft.add(statement)?;
            Ok(next)
        }
        Err(fault) => Err(fault),
    }
}

// Reads a line, and returns the state after it. A blank one changes nothing.
fn take_line(
    alloc: Global,
    state: TextState,
    draft: &mut Draft,
    line: usize,
    text: &[u8],
) -> Result<TextState, TextFault>
    requires { spec.IsAt state draft.old }
    ensures { MatchResult result (λ next. spec.IsPassed state draft.old line text.now next
        draft.new) (λ fault. spec.IsLineRefused fault state line text.now) }
{
    if is_blank(text) {
        Ok(state)
    } else {
        take_statement(alloc, state, draft, line, text)
    }
}

/// Reads the program that a text spells, or returns its first error.
pub(crate) fn read_parts(alloc: Global, text: &[u8]) -> Result<Parts, TextFault>
    ensures { MatchResult result (λ parts. Spells text.now parts × IsWithinLimits parts)
        (λ fault. IsFirstTextFault text.now fault) }
{
    let mut state = TextState::start();
    let mut draft = Draft::new(alloc);
    let mut line = 1;
    let mut rest = text;
    while let Some((first, after)) = split_line(rest) {
        state = take_line(alloc, state, &mut draft, line, first)?;
        rest = after;
        line += 1;
    }
    match state.end_fault(line) {
        Some(fault) => Err(fault),
        None => Ok(draft.finish()),
    }
}
