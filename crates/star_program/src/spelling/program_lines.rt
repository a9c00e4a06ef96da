// Writing the lines of a program.

ghost use Rattle.std.specs.{Prelude.{◌≡◌, ◌*◌, ◌≤◌, ◌<◌, ◌++◌, Some, OnOk, IfOk, length, replicate, slice_get}, List.flat_map};
ghost use Rattle.star_program.specs.Text.Statements as lines;
ghost use Rattle.star_program.specs.Text.Written as spec;
ghost use Rattle.star_program.specs.declared.spelling.statement.Statement.TheVariants as says;
ghost use Rattle.star_program.specs.Limits.{IsWithinLimits};

use crate::group::GroupDecl;
use crate::op::Op;
use crate::program::{Parts, Show};
use crate::spelling::body_lines::push_body;
use crate::spelling::writing::{
    Written, push_each, push_group, push_op, push_register, push_show, push_sort,
};
use star_schema::{SortKey, TableId};
use std::alloc::{AllocError, Global};

// Appends two spaces for each scan around a line.
fn push_indent(out: &mut Vec<u8>, depth: u8) -> Result<(), AllocError>
    ensures { OnOk result (out.new.items ≡ out.old.items ++ replicate (2 * depth) 32) }
{
    let mut left = depth;
    while left > 0 {
        out.extend_from_slice(b"  ")?;
        left -= 1;
    }
    Ok(())
}

/// Appends the line of an instruction.
#[tactic(auto, unfolding(crate::specs::Text::Written::written_line))]
pub(crate) fn push_op_line(out: &mut Vec<u8>, depth: u8, op: &Op) -> Result<(), AllocError>
    ensures { OnOk result (out.new.items ≡ out.old.items
        ++ spec.written_line (lines.line depth (says.Act op.now))) }
{
    push_indent(out, depth)?;
    push_op(out, op)?;
    out.push(b'\n')?;
    Ok(())
}

/// Appends the first line of a scan.
#[tactic(auto, unfolding(crate::specs::Text::Written::written_line))]
pub(crate) fn push_scan_line(
    out: &mut Vec<u8>,
    depth: u8,
    table: TableId,
    target: u16,
) -> Result<(), AllocError>
    ensures { OnOk result (out.new.items ≡ out.old.items
        ++ spec.written_line (lines.line depth (says.Scan table target))) }
{
    push_indent(out, depth)?;
    let text = format!(in *out.allocator(); "scan {table}")?;
    out.extend_from_slice(text.as_bytes())?;
    push_register(out, target)?;
    out.push(b'\n')?;
    Ok(())
}

/// Appends the last line of a scan.
#[tactic(auto, unfolding(crate::specs::Text::Written::written_line))]
pub(crate) fn push_end_line(out: &mut Vec<u8>, depth: u8) -> Result<(), AllocError>
    ensures { OnOk result (out.new.items ≡ out.old.items
        ++ spec.written_line (lines.line depth says.End)) }
{
    push_indent(out, depth)?;
    out.extend_from_slice(b"end\n")
}

#[tactic(auto, unfolding(crate::specs::Text::Written::written_line))]
fn push_head(out: &mut Vec<u8>, registers: u16) -> Result<(), AllocError>
    ensures { OnOk result (out.new.items ≡ out.old.items
        ++ (spec.written_line (lines.line 0 says.Header)
        ++ spec.written_line (lines.line 0 (says.Registers registers)))) }
{
    let text = format!(in *out.allocator(); "star program 1\nregisters {registers}\n")?;
    out.extend_from_slice(text.as_bytes())
}

#[tactic(auto, unfolding(crate::specs::Text::Written::written_line))]
fn push_group_line(out: &mut Vec<u8>, index: u16, group: &GroupDecl) -> Result<(), AllocError>
    ensures { OnOk result (out.new.items ≡ out.old.items
        ++ spec.written_line (lines.line 0 (says.Group index group.now))) }
{
    push_group(out, index, group)?;
    out.push(b'\n')?;
    Ok(())
}

fn group_at(groups: &[GroupDecl], index: usize) -> &GroupDecl
    requires { index < length groups.now }
    ensures { slice_get groups.now index ≡ Some result.now }
{
    &groups[index]
}

fn push_groups(out: &mut Vec<u8>, groups: &[GroupDecl]) -> Result<(), AllocError>
    requires { length groups.now ≤ 8 }
    ensures { OnOk result (out.new.items ≡ out.old.items
        ++ flat_map spec.written_line (lines.group_lines 0 groups.now)) }
{
    for index in 0..groups.len() {
        push_group_line(out, index as u16, group_at(groups, index))?;
    }
    Ok(())
}

#[tactic(auto, unfolding(crate::specs::Text::Written::written_line))]
fn push_report(out: &mut Vec<u8>, group: u16) -> Result<(), AllocError>
    ensures { OnOk result (out.new.items ≡ out.old.items
        ++ spec.written_line (lines.line 0 (says.Report group))) }
{
    let text = format!(in *out.allocator(); "report {group}\n")?;
    out.extend_from_slice(text.as_bytes())
}

/// The line of a shown column.
impl Written for Show {
    ghost text = { λ show. spec.written_line (lines.show_line show) };

    #[tactic(auto, unfolding(crate::specs::Text::Written::written_line))]
    fn push(&self, out: &mut Vec<u8>) -> Result<(), AllocError> {
        push_show(out, self)?;
        out.push(b'\n')?;
        Ok(())
    }
}

/// The line of a sort key.
impl Written for SortKey {
    ghost text = { λ key. spec.written_line (lines.sort_line key) };

    #[tactic(auto, unfolding(crate::specs::Text::Written::written_line))]
    fn push(&self, out: &mut Vec<u8>) -> Result<(), AllocError> {
        push_sort(out, *self)?;
        out.push(b'\n')?;
        Ok(())
    }
}

/// Returns the text of a program's parts.
pub(crate) fn write_parts(alloc: Global, parts: &Parts) -> Result<Vec<u8>, AllocError>
    requires { IsWithinLimits parts.now }
    ensures { IfOk result (λ text. text.items ≡ spec.program_text parts.now) }
{
    let mut out = Vec::new(alloc);
    push_head(&mut out, parts.registers)?;
    push_groups(&mut out, parts.groups.as_slice())?;
    push_body(&mut out, 0, &parts.body)?;
    push_report(&mut out, parts.report)?;
    push_each(&mut out, parts.shows.as_slice())?;
    push_each(&mut out, parts.sorts.as_slice())?;
    Ok(out)
}
