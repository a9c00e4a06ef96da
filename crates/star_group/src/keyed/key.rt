// The keys of rows by their keys.

ghost use Rattle.std.specs.{Prelude.{◌≡◌, ◌≤◌, ◌<◌, Some, None, length, slice_set, take}, List.list_all, Option.is_some};
ghost use Rattle.star_schema.specs.declared.group.Shape.TheVariants.{Rollup};
ghost use Rattle.star_group.specs.{BaseKeys.padded, Base.key_view, Base.key_value_view, Keyed.filled};
ghost use Rattle.star_schema.specs.Groups as spec;

use crate::KeyValue;
use star_schema::Shape;

// One position of a row's key.
#[derive(Clone, Copy, PartialEq, Eq)]
pub(crate) enum KeyPart {
    All,
    Number(i64),
    Code(u32),
}

// A row's key in six positions; past the group's keys there is `All`.
pub(crate) type OrderedKey = [KeyPart; 6];

pub(crate) const ALL_HIDDEN: OrderedKey = [KeyPart::All; 6];

fn part_of(value: KeyValue) -> KeyPart
    ensures { key_value_view result ≡ Some value }
{
    match value {
        KeyValue::Number(number) => KeyPart::Number(number),
        KeyValue::Code(code) => KeyPart::Code(code),
    }
}

pub(super) fn value_in(part: KeyPart) -> Option<KeyValue>
    ensures { result ≡ key_value_view part }
{
    match part {
        KeyPart::All => None,
        KeyPart::Number(number) => Some(KeyValue::Number(number)),
        KeyPart::Code(code) => Some(KeyValue::Code(code)),
    }
}

// A key in six positions.
pub(crate) fn in_six_slots(key: &[KeyPart]) -> OrderedKey
    requires { length key.now ≤ 6 }
    ensures { result ≡ filled key.now }
{
    let mut parts = ALL_HIDDEN;
    parts[..key.len()].copy_from_slice(key);
    parts
}

// The key of the row that a put with these keys changes.
pub(crate) fn base_key(keys: &[KeyValue]) -> OrderedKey
    requires { length keys.now ≤ 6 }
    ensures { key_view result ≡ padded 6 keys.now }
{
    let mut parts = ALL_HIDDEN;
    for index in 0..keys.len() {
        parts[index] = part_of(keys[index]);
    }
    parts
}

// The key with ALL at this position.
pub(crate) fn with_all_at(parts: &OrderedKey, index: usize) -> OrderedKey
    requires { index < 6 }
    ensures key { key_view result ≡ slice_set (key_view parts.now) index None }
    ensures parts { result ≡ slice_set parts.now index KeyPart.All }
{
    let mut coarser = *parts;
    coarser[index] = KeyPart::All;
    coarser
}

fn is_shown(part: &KeyPart) -> bool
    ensures { result ≡ is_some (key_value_view part.now) }
{
    match *part {
        KeyPart::All => false,
        _ => true,
    }
}

// Whether none of these parts is ALL.
fn are_shown(parts: &[KeyPart]) -> bool
    ensures { result ≡ list_all (λ part. is_some (key_value_view part)) parts.now }
{
    parts.iter().all(is_shown)
}

// Whether no part that isn't ALL comes after one that is.
fn are_shown_first(parts: &[KeyPart]) -> bool
    ensures { result ≡ spec.is_grouping Rollup (key_view parts.now) }
{
    let mut hides = false;
    for part in parts {
        let shown = is_shown(part);
        if shown && hides {
            return false;
        }
        hides = !shown;
    }
    true
}

// Whether `key_count` keys, some of them hidden here, are a grouping of this shape.
pub(crate) fn is_grouping(shape: Shape, key_count: usize, parts: &OrderedKey) -> bool
    requires { key_count ≤ 6 }
    ensures { result ≡ spec.is_grouping shape (take key_count (key_view parts.now)) }
{
    match shape {
        Shape::Plain => are_shown(&parts[..key_count]),
        Shape::Cube => true,
        Shape::Rollup => are_shown_first(&parts[..key_count]),
    }
}
