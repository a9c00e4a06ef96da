// What an instruction computes from the registers that it reads.

ghost use Rattle.std.specs.{Prelude.{◌≡◌, ◌<◌, ◌&&◌, None, length, slice_index_or}, Ordering.{is_lt, is_le}};
ghost use Rattle.star_program.specs.{Values.{number_read, flag_read, row_read, key_read, with_entry}, Effects.{answer_of, compared}, Private.Doing.fitting};
ghost use Rattle.star_trial.specs.Private.Views.{registers_view};

use star_program::{KeyValue, Operator, Value};
use std::cmp::Ordering;

// A register, which may be empty.
pub(crate) type Register = Option<Value>;

// The register of a number.
fn register(registers: &[Register], number: u16) -> Register
    ensures { result ≡ slice_index_or registers.now number None }
{
    match registers.get(number as usize) {
        Some(register) => *register,
        None => None,
    }
}

// The number in a register: codes and positions compare as numbers.
pub(crate) fn number(registers: &[Register], at: u16) -> i64
    ensures { result ≡ number_read (registers_view registers.now at) }
{
    match register(registers, at) {
        Some(Value::Number(number)) => number,
        Some(Value::Text(_, index) | Value::Place(_, index)) => i64::from(index),
        _ => 0,
    }
}

pub(crate) fn flag(registers: &[Register], at: u16) -> bool
    ensures { result ≡ flag_read (registers_view registers.now at) }
{
    match register(registers, at) {
        Some(Value::Flag(flag)) => flag,
        _ => false,
    }
}

pub(crate) fn row(registers: &[Register], at: u16) -> u32
    ensures { result ≡ row_read (registers_view registers.now at) }
{
    match register(registers, at) {
        Some(Value::Row(_, row)) => row,
        _ => 0,
    }
}

pub(crate) fn key(registers: &[Register], at: u16) -> KeyValue
    ensures { result ≡ key_read (registers_view registers.now at) }
{
    match register(registers, at) {
        Some(Value::Number(number)) => KeyValue::Number(number),
        Some(Value::Text(_, code)) => KeyValue::Code(code),
        _ => KeyValue::Code(0),
    }
}

// How the numbers in two registers compare.
fn compare(registers: &[Register], left: u16, right: u16) -> Ordering
    ensures { result ≡ compared (registers_view registers.now left) (registers_view registers.now right) }
{
    number(registers, left).cmp(&number(registers, right))
}

// Whether a register is at least `from` and less than `below`.
pub(crate) fn is_within(registers: &[Register], value: u16, from: u16, below: u16) -> bool
    ensures { result
        ≡ (is_le (compared (registers_view registers.now from) (registers_view registers.now value))
        && is_lt (compared (registers_view registers.now value) (registers_view registers.now below))) }
{
    compare(registers, from, value).is_le() && compare(registers, value, below).is_lt()
}

// An operator's answer on two flags or numbers, if it is no number beyond 64 bits.
#[tactic(auto, unfolding(star_interval::specs::Range::is_i64))]
pub(crate) fn answer(
    registers: &[Register],
    operator: Operator,
    left: u16,
    right: u16,
) -> Option<Value>
    ensures { result
        ≡ fitting (answer_of operator (registers_view registers.now left) (registers_view registers.now right)) }
{
    let (x, y) = (number(registers, left), number(registers, right));
    match operator {
        Operator::Add => x.checked_add(y).map(Value::Number),
        Operator::Sub => x.checked_sub(y).map(Value::Number),
        Operator::Mul => x.checked_mul(y).map(Value::Number),
        Operator::Less => Some(Value::Flag(x.cmp(&y).is_lt())),
        Operator::LessOrEqual => Some(Value::Flag(x.cmp(&y).is_le())),
        Operator::Equal => Some(Value::Flag(x.cmp(&y).is_eq())),
        Operator::And => Some(Value::Flag(flag(registers, left) & flag(registers, right))),
        Operator::Or => Some(Value::Flag(flag(registers, left) | flag(registers, right))),
    }
}

// Writes a register.
#[tactic(auto, using(crate::proofs::Registers::held_set))]
pub(crate) fn set(registers: &mut [Register], target: u16, value: Value)
    requires { target < length registers.old }
    ensures set { registers_view registers.new ≡ with_entry (registers_view registers.old) target value }
    ensures len { length registers.new ≡ length registers.old }
{
    registers[target as usize] = Some(value);
}
