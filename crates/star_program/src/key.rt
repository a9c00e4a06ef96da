// The values of keys.

ghost use Rattle.std.{specs.Cmp.Rules.comparing, proofs.Common.rules};
ghost use Rattle.star_program.specs.Keys.{value_eq};

/// A key's value: a number, or the code of a text in its column's dictionary.
#[derive(Clone, Copy, Debug, Eq)]
pub enum KeyValue {
    Number(i64),
    Code(u32),
}

impl PartialEq for KeyValue {
    ghost eq = { value_eq };

    ghost laws = { Prim.search (comparing, rules) };

    fn eq(&self, other: &KeyValue) -> bool {
        match (*self, *other) {
            (KeyValue::Number(x), KeyValue::Number(y)) => x == y,
            (KeyValue::Code(m), KeyValue::Code(n)) => m == n,
            _ => false,
        }
    }
}
