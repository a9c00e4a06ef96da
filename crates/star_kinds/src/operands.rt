// Checks that each operand is a declared register with a value of an allowed kind.

ghost use Rattle.std.specs.{Prelude.{◌≡◌, ◌<◌, length, slice_get, Some}, Option.option_or};
ghost use Rattle.star_program.specs.declared.fault.Fault.TheVariants.{BadColumn};
ghost use Rattle.star_kinds.specs.{Kinds.Answers, Kinds.register_kinds, Private.Taken.taken};
ghost use Rattle.star_schema.specs.Schema as schema;
ghost use Rattle.star_program.specs.World as world;
ghost use Rattle.star_program.specs.Faults as faults;

use crate::register::{Kinded, kind_at};
use star_program::{Fault, GroupKey, Kind, Operation, Operator, is_column};
use star_schema::{ColumnId, is_table, is_text, table_of};

// The kinds that an operand may have.
#[derive(Clone, Copy)]
pub(crate) enum Wanted {
    Number,
    Flag,
    Row,
    Ordered,
    // A kind that can be compared with this one.
    Like(Option<Kind>),
    Key(GroupKey),
}

fn compares(left: Option<Kind>, right: Kind) -> bool
    ensures { result ≡ faults.compares_with left right }
{
    match (left, right) {
        (Some(Kind::Number), Kind::Number) => true,
        (Some(Kind::Text(column) | Kind::Place(column)), Kind::Text(other) | Kind::Place(other)) =>
            is_column(column, other),
        _ => false,
    }
}

fn fits_key(declared: GroupKey, kind: Kind) -> bool
    ensures { result ≡ faults.fits_key declared kind }
{
    match (declared, kind) {
        (GroupKey::Number, Kind::Number) => true,
        (GroupKey::Text(column), Kind::Text(other)) => is_column(column, other),
        _ => false,
    }
}

fn takes(wanted: Wanted, kind: Kind) -> bool
    ensures { result ≡ taken wanted kind }
{
    match wanted {
        Wanted::Number => matches!(kind, Kind::Number),
        Wanted::Flag => matches!(kind, Kind::Flag),
        Wanted::Row => matches!(kind, Kind::Row(_)),
        Wanted::Ordered => matches!(kind, Kind::Number | Kind::Text(_) | Kind::Place(_)),
        Wanted::Like(other) => compares(other, kind),
        Wanted::Key(declared) => fits_key(declared, kind),
    }
}

// Checks an operand: a declared register with a value of an allowed kind.
pub(crate) fn check_operand<R: Kinded>(
    registers: &[R],
    wanted: Wanted,
    number: u16,
) -> Result<(), Fault>
    ensures { Answers result (faults.operand_fault (length registers.now)
        (register_kinds R.kind registers.now) (taken wanted) number) }
{
    if number as usize >= registers.len() {
        return Err(Fault::BadRegister);
    }
    match kind_at(registers, number) {
        None => Err(Fault::Unset),
        Some(kind) if takes(wanted, kind) => Ok(()),
        Some(_) => Err(Fault::WrongKind),
    }
}

fn check_both<R: Kinded>(
    registers: &[R],
    wanted: Wanted,
    left: u16,
    right: u16,
) -> Result<(), Fault>
    ensures { Answers result (faults.both_fault (length registers.now)
        (register_kinds R.kind registers.now) (taken wanted) left right) }
{
    check_operand(registers, wanted, left)?;
    check_operand(registers, wanted, right)
}

fn check_comparison<R: Kinded>(registers: &[R], left: u16, right: u16) -> Result<(), Fault>
    ensures { Answers result (faults.compare_fault (length registers.now)
        (register_kinds R.kind registers.now) left right) }
{
    check_operand(registers, Wanted::Ordered, left)?;
    check_operand(registers, Wanted::Like(kind_at(registers, left)), right)
}

fn check_within<R: Kinded>(registers: &[R], value: u16, from: u16, below: u16) -> Result<(), Fault>
    ensures { Answers result (option_or
        (faults.compare_fault (length registers.now) (register_kinds R.kind registers.now) value from)
        (faults.operand_fault (length registers.now) (register_kinds R.kind registers.now)
        (faults.compares_with (register_kinds R.kind registers.now value)) below)) }
{
    check_comparison(registers, value, from)?;
    check_operand(registers, Wanted::Like(kind_at(registers, value)), below)
}

fn entry_at<T: Copy>(entries: &[T], index: usize) -> T
    requires { index < length entries.now }
    ensures { slice_get entries.now index ≡ Some result }
{
    entries[index]
}

// Checks the keys of a put.
pub(crate) fn check_keys<R: Kinded>(
    registers: &[R],
    declared: &[GroupKey],
    keys: &[u16],
) -> Result<(), Fault>
    requires { length keys.now ≡ length declared.now }
    ensures { Answers result (faults.keys_fault (length registers.now)
        (register_kinds R.kind registers.now) declared.now keys.now) }
{
    for index in 0..keys.len() {
        let key = entry_at(declared, index);
        let number = entry_at(keys, index);
        check_operand(registers, Wanted::Key(key), number)?;
    }
    Ok(())
}

// Checks the values of a put.
pub(crate) fn check_numbers<R: Kinded>(registers: &[R], values: &[u16]) -> Result<(), Fault>
    ensures { Answers result (faults.numbers_fault (length registers.now)
        (register_kinds R.kind registers.now) values.now) }
{
    for value in values {
        check_operand(registers, Wanted::Number, *value)?;
    }
    Ok(())
}

fn check_load<R: Kinded>(registers: &[R], column: ColumnId, row: u16) -> Result<(), Fault>
    ensures { Answers result (option_or (faults.operand_fault (length registers.now)
        (register_kinds R.kind registers.now) faults.is_row_kind row)
        (faults.unless (faults.is_row_of (schema.table_of column)
        (register_kinds R.kind registers.now row)) BadColumn)) }
{
    check_operand(registers, Wanted::Row, row)?;
    match kind_at(registers, row) {
        Some(Kind::Row(table)) if is_table(table, table_of(column)) => Ok(()),
        _ => Err(Fault::BadColumn),
    }
}

fn check_text_column(column: ColumnId) -> Result<(), Fault>
    ensures { Answers result (faults.unless (world.is_text column) BadColumn) }
{
    if is_text(column) {
        Ok(())
    } else {
        Err(Fault::BadColumn)
    }
}

fn check_binary<R: Kinded>(
    registers: &[R],
    operator: Operator,
    left: u16,
    right: u16,
) -> Result<(), Fault>
    ensures { Answers result (faults.binary_fault (length registers.now)
        (register_kinds R.kind registers.now) operator left right) }
{
    match operator {
        Operator::Add | Operator::Sub | Operator::Mul => {
            check_both(registers, Wanted::Number, left, right)
        }
        Operator::Less | Operator::LessOrEqual | Operator::Equal => {
            check_comparison(registers, left, right)
        }
        Operator::And | Operator::Or => check_both(registers, Wanted::Flag, left, right),
    }
}

// Checks the operands of an operation from the left, then its columns.
pub(crate) fn check_operation<R: Kinded>(
    registers: &[R],
    operation: &Operation,
) -> Result<(), Fault>
    ensures { Answers result (faults.operation_fault (length registers.now)
        (register_kinds R.kind registers.now) operation.now) }
{
    match operation {
        Operation::Const { .. } | Operation::Read { .. } => Ok(()),
        Operation::Edge { column, .. } => check_text_column(*column),
        Operation::Load { column, row } => check_load(registers, *column, *row),
        Operation::Find { key, .. } => check_operand(registers, Wanted::Number, *key),
        Operation::Binary {
            operator,
            left,
            right,
        } => check_binary(registers, *operator, *left, *right),
        Operation::Within { value, from, below } => {
            check_within(registers, *value, *from, *below)
        }
        Operation::Not { flag } => check_operand(registers, Wanted::Flag, *flag),
    }
}
