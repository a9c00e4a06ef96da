// The kinds of register values.

ghost use Rattle.std.specs.{Prelude.◌≡◌, Prelude.Option, Option.option_map};
ghost use Rattle.star_program.specs.{declared.value.Kind.Kind, Values.register_kind};
ghost use Rattle.star_kinds.specs.Kinds.{register_kinds};

use star_program::{Kind, Value};

/// A register, by its value or by what is known about its value.
pub trait Kinded {
    // The kind of its value, or None if it has none.
    ghost kind: { Self → Option Kind };

    /// Returns the kind of its value, or `None` if it has none. Allocates nothing.
    fn kind(&self) -> Option<Kind>
        ensures { result ≡ kind self.now };
}

fn kind_of(value: Value) -> Kind
    ensures { result ≡ register_kind value }
{
    match value {
        Value::Number(_) => Kind::Number,
        Value::Text(column, _) => Kind::Text(column),
        Value::Place(column, _) => Kind::Place(column),
        Value::Row(table, _) => Kind::Row(table),
        Value::Flag(_) => Kind::Flag,
    }
}

// A register of a run holds a value or nothing.
impl Kinded for Option<Value> {
    ghost kind = { option_map register_kind };

    fn kind(&self) -> Option<Kind> {
        match *self {
            Some(value) => Some(kind_of(value)),
            None => None,
        }
    }
}

// Returns the kind of the value in the register with a number.
pub(crate) fn kind_at<R: Kinded>(registers: &[R], number: u16) -> Option<Kind>
    ensures { result ≡ register_kinds R.kind registers.now number }
{
    match registers.get(number as usize) {
        Some(register) => register.kind(),
        None => None,
    }
}
