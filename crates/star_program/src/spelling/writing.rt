// Writing the statements of a program.

ghost use Rattle.std.specs.{Prelude.{◌≡◌, ◌++◌, ℕ, List, OnOk, codes, decimal}, Fmt.signed_decimal, List.flat_map};
ghost use Rattle.star_schema.specs.Schema.{column_name, table_name};
ghost use Rattle.star_common.specs.Quotes.{quoted};
ghost use Rattle.star_program.specs.Text.Written as spec;
ghost use Rattle.star_program.specs.declared.spelling.keyword.Mnemonic.TheVariants as mnemonic;

use crate::group::{GroupDecl, GroupKey};
use crate::op::{Edge, Op, Operation, Operator};
use crate::program::Show;
use crate::spelling::keyword::Mnemonic;
use star_common::push_quoted;
use star_schema::{Aggregate, ColumnId, GroupColumn, Named, SortKey, TableId};
use std::alloc::AllocError;

#[tactic(auto, unfolding(crate::specs::Text::Written::register_text))]
pub(crate) fn push_register(out: &mut Vec<u8>, register: u16) -> Result<(), AllocError>
    ensures { OnOk result (out.new.items ≡ out.old.items ++ spec.register_text register) }
{
    let text = format!(in *out.allocator(); " r{register}")?;
    out.extend_from_slice(text.as_bytes())
}

/// An item that is written after others.
pub(crate) trait Written {
    ghost text: { Self → List ℕ };

    /// Appends its text.
    fn push(&self, out: &mut Vec<u8>) -> Result<(), AllocError>
        ensures { OnOk result (out.new.items ≡ out.old.items ++ text self.now) };
}

/// Appends each of some items, in order.
pub(crate) fn push_each<T: Written>(out: &mut Vec<u8>, items: &[T]) -> Result<(), AllocError>
    ensures { OnOk result (out.new.items ≡ out.old.items ++ flat_map T.text items.now) }
{
    for item in items {
        item.push(out)?;
    }
    Ok(())
}

/// A register.
impl Written for u16 {
    ghost text = { spec.register_text };

    fn push(&self, out: &mut Vec<u8>) -> Result<(), AllocError> {
        push_register(out, *self)
    }
}

// Appends the start of an instruction that writes a register.
#[tactic(auto, unfolding(crate::specs::Text::Written::target_text))]
fn push_target(out: &mut Vec<u8>, target: u16, mnemonic: Mnemonic) -> Result<(), AllocError>
    ensures { OnOk result (out.new.items ≡ out.old.items ++ spec.target_text target mnemonic) }
{
    let text = format!(in *out.allocator(); "r{target} = {mnemonic}")?;
    out.extend_from_slice(text.as_bytes())
}

// Appends an operator on two registers.
fn push_binary(
    out: &mut Vec<u8>,
    target: u16,
    operator: Operator,
    left: u16,
    right: u16,
) -> Result<(), AllocError>
    ensures { OnOk result (out.new.items ≡ out.old.items
        ++ (spec.target_text target (mnemonic.Binary operator)
        ++ (spec.register_text left ++ spec.register_text right))) }
{
    push_target(out, target, Mnemonic::Binary(operator))?;
    push_register(out, left)?;
    push_register(out, right)
}

fn push_column(out: &mut Vec<u8>, column: ColumnId) -> Result<(), AllocError>
    ensures { OnOk result (out.new.items ≡ out.old.items ++ (codes " " ++ column_name column)) }
{
    let text = format!(in *out.allocator(); " {column}")?;
    out.extend_from_slice(text.as_bytes())
}

// Appends an edge of a text.
fn push_edge(
    out: &mut Vec<u8>,
    target: u16,
    edge: Edge,
    column: ColumnId,
    text: &[u8],
) -> Result<(), AllocError>
    ensures { OnOk result (out.new.items ≡ out.old.items
        ++ (spec.target_text target (mnemonic.Edge edge)
        ++ (codes " " ++ (column_name column ++ (codes " " ++ quoted text.now))))) }
{
    push_target(out, target, Mnemonic::Edge(edge))?;
    push_column(out, column)?;
    out.push(b' ')?;
    push_quoted(out, text)
}

// Appends a constant.
fn push_constant(out: &mut Vec<u8>, target: u16, number: i64) -> Result<(), AllocError>
    ensures { OnOk result (out.new.items ≡ out.old.items
        ++ (spec.target_text target mnemonic.Const ++ (codes " " ++ signed_decimal number))) }
{
    push_target(out, target, Mnemonic::Const)?;
    let text = format!(in *out.allocator(); " {number}")?;
    out.extend_from_slice(text.as_bytes())
}

// Appends the total of an aggregate.
fn push_read(
    out: &mut Vec<u8>,
    target: u16,
    group: u16,
    aggregate: u16,
    default: i64,
) -> Result<(), AllocError>
    ensures { OnOk result (out.new.items ≡ out.old.items
        ++ (spec.target_text target mnemonic.Read
        ++ (codes " " ++ (decimal group ++ (codes " "
        ++ (decimal aggregate ++ (codes " " ++ signed_decimal default))))))) }
{
    push_target(out, target, Mnemonic::Read)?;
    let text = format!(in *out.allocator(); " {group} {aggregate} {default}")?;
    out.extend_from_slice(text.as_bytes())
}

// Appends a look-up of a row.
fn push_find(out: &mut Vec<u8>, target: u16, table: TableId, key: u16) -> Result<(), AllocError>
    ensures { OnOk result (out.new.items ≡ out.old.items
        ++ (spec.target_text target mnemonic.Find
        ++ (codes " " ++ (table_name table ++ spec.register_text key)))) }
{
    push_target(out, target, Mnemonic::Find)?;
    let text = format!(in *out.allocator(); " {table}")?;
    out.extend_from_slice(text.as_bytes())?;
    push_register(out, key)
}

// Appends an update of a group.
fn push_put(out: &mut Vec<u8>, group: u16, keys: &[u16], values: &[u16]) -> Result<(), AllocError>
    ensures { OnOk result (out.new.items ≡ out.old.items
        ++ (codes "put " ++ (decimal group ++
        (flat_map spec.register_text keys.now
        ++ (codes " :" ++ flat_map spec.register_text values.now))))) }
{
    let text = format!(in *out.allocator(); "put {group}")?;
    out.extend_from_slice(text.as_bytes())?;
    push_each(out, keys)?;
    out.extend_from_slice(b" :")?;
    push_each(out, values)
}

fn push_load(out: &mut Vec<u8>, target: u16, column: ColumnId, row: u16) -> Result<(), AllocError>
    ensures { OnOk result (out.new.items ≡ out.old.items
        ++ (spec.target_text target mnemonic.Load
        ++ (codes " " ++ (column_name column ++ spec.register_text row)))) }
{
    push_target(out, target, Mnemonic::Load)?;
    push_column(out, column)?;
    push_register(out, row)
}

fn push_within(
    out: &mut Vec<u8>,
    target: u16,
    value: u16,
    from: u16,
    below: u16,
) -> Result<(), AllocError>
    ensures { OnOk result (out.new.items ≡ out.old.items
        ++ (spec.target_text target mnemonic.Within
        ++ (spec.register_text value ++ (spec.register_text from ++ spec.register_text below)))) }
{
    push_target(out, target, Mnemonic::Within)?;
    push_register(out, value)?;
    push_register(out, from)?;
    push_register(out, below)
}

fn push_not(out: &mut Vec<u8>, target: u16, flag: u16) -> Result<(), AllocError>
    ensures { OnOk result (out.new.items ≡ out.old.items
        ++ (spec.target_text target mnemonic.Not ++ spec.register_text flag)) }
{
    push_target(out, target, Mnemonic::Not)?;
    push_register(out, flag)
}

fn push_keep(out: &mut Vec<u8>, flag: u16) -> Result<(), AllocError>
    ensures { OnOk result (out.new.items ≡ out.old.items
        ++ (codes "keep" ++ spec.register_text flag)) }
{
    out.extend_from_slice(b"keep")?;
    push_register(out, flag)
}

// Appends an instruction that writes a register.
#[tactic(auto, unfolding(crate::specs::Text::Written::assigned_text))]
fn push_assigned(out: &mut Vec<u8>, target: u16, source: &Operation) -> Result<(), AllocError>
    ensures { OnOk result (out.new.items ≡ out.old.items ++ spec.assigned_text target source.now) }
{
    match source {
        Operation::Const { number } => push_constant(out, target, *number),
        Operation::Edge { edge, column, text } => {
            push_edge(out, target, *edge, *column, text.as_slice())
        }
        Operation::Load { column, row } => push_load(out, target, *column, *row),
        Operation::Find { table, key } => push_find(out, target, *table, *key),
        Operation::Binary {
            operator,
            left,
            right,
        } => push_binary(out, target, *operator, *left, *right),
        Operation::Within { value, from, below } => {
            push_within(out, target, *value, *from, *below)
        }
        Operation::Not { flag } => push_not(out, target, *flag),
        Operation::Read {
            group,
            aggregate,
            default,
        } => push_read(out, target, *group, *aggregate, *default),
    }
}

// Appends an instruction.
#[tactic(auto, unfolding(crate::specs::Text::Written::op_text))]
pub(crate) fn push_op(out: &mut Vec<u8>, op: &Op) -> Result<(), AllocError>
    ensures { OnOk result (out.new.items ≡ out.old.items ++ spec.op_text op.now) }
{
    match op {
        Op::Assign { target, operation } => push_assigned(out, *target, operation),
        Op::Keep { flag } => push_keep(out, *flag),
        Op::Put {
            group,
            keys,
            values,
        } => { push_put(out, *group, keys.as_slice(), values.as_slice()) }
    }
}

impl Written for GroupKey {
    ghost text = { spec.key_text };

    #[tactic(auto, unfolding(crate::specs::Text::Written::key_text))]
    fn push(&self, out: &mut Vec<u8>) -> Result<(), AllocError> {
        match self {
            GroupKey::Number => out.extend_from_slice(b" number"),
            GroupKey::Text(column) => push_column(out, *column),
        }
    }
}

impl Written for Aggregate {
    ghost text = { spec.aggregate_text };

    fn push(&self, out: &mut Vec<u8>) -> Result<(), AllocError> {
        out.push(b' ')?;
        out.extend_from_slice(self.name().as_bytes())
    }
}

// Appends a group by its number.
#[tactic(auto, unfolding(crate::specs::Text::Written::group_text))]
pub(crate) fn push_group(out: &mut Vec<u8>, index: u16, group: &GroupDecl) -> Result<(), AllocError>
    ensures { OnOk result (out.new.items ≡ out.old.items ++ spec.group_text index group.now) }
{
    let shape = group.shape.name();
    let text = format!(in *out.allocator(); "group {index} {shape}")?;
    out.extend_from_slice(text.as_bytes())?;
    push_each(out, group.keys.as_slice())?;
    out.extend_from_slice(b" :")?;
    push_each(out, group.aggregates.as_slice())
}

// Appends the column of a group.
#[tactic(auto, unfolding(crate::specs::Text::Written::written_column))]
fn push_index(out: &mut Vec<u8>, column: GroupColumn) -> Result<(), AllocError>
    ensures { OnOk result (out.new.items ≡ out.old.items ++ spec.written_column column) }
{
    let text = match column {
        GroupColumn::Key(index) => format!(in *out.allocator(); " key {index}")?,
        GroupColumn::Aggregate(index) => format!(in *out.allocator(); " aggregate {index}")?,
    };
    out.extend_from_slice(text.as_bytes())
}

#[tactic(auto, unfolding(crate::specs::Text::Written::show_text))]
pub(crate) fn push_show(out: &mut Vec<u8>, show: &Show) -> Result<(), AllocError>
    ensures { OnOk result (out.new.items ≡ out.old.items ++ spec.show_text show.now) }
{
    out.extend_from_slice(b"show ")?;
    out.extend_from_slice(show.name.as_slice())?;
    push_index(out, show.column)
}

#[tactic(auto, unfolding(crate::specs::Text::Written::sort_text))]
pub(crate) fn push_sort(out: &mut Vec<u8>, key: SortKey) -> Result<(), AllocError>
    ensures { OnOk result (out.new.items ≡ out.old.items ++ spec.sort_text key) }
{
    out.extend_from_slice(b"sort")?;
    push_index(out, key.column)?;
    out.push(b' ')?;
    out.extend_from_slice(key.direction.name().as_bytes())
}
