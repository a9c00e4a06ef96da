// The keys of the rows that one put changes.

ghost use Rattle.std.specs.Prelude.{◌≡◌, ◌≤◌, ◌<◌, ◌++◌, [], ◌∷◌, List, filter, length, map, slice_set, OnOk};
ghost use Rattle.star_program.specs.declared.key.KeyValue.{KeyValue};
ghost use Rattle.star_group.specs.{Base.key_view, BaseKeys.padded, Private.Rows.is_row_key, declared.keyed.key.KeyPart.KeyPart};
ghost use Rattle.star_group.specs.BaseKeys as spec;

use crate::KeyValue;
use crate::keyed::key::{OrderedKey, base_key, is_grouping, with_all_at};
use star_schema::Shape;
use std::alloc::AllocError;

// One key more, if a row has it.
fn push_row_key(
    row_keys: &mut Vec<OrderedKey>,
    shape: Shape,
    key_count: usize,
    key: OrderedKey,
) -> Result<(), AllocError>
    requires { key_count ≤ 6 }
    ensures { OnOk result (row_keys.new.items ≡ row_keys.old.items
        ++ filter (λ key. is_row_key shape key_count (key_view key)) (key ∷ [])) }
{
    if !is_grouping(shape, key_count, &key) {
        return Ok(());
    }
    row_keys.push(key)?;
    Ok(())
}

// Each key once more, with ALL at this position, if a row has that.
fn double(
    row_keys: &mut Vec<OrderedKey>,
    shape: Shape,
    key_count: usize,
    index: usize,
) -> Result<(), AllocError>
    requires key_count { key_count ≤ 6 }
    requires index { index < 6 }
    ensures { OnOk result (row_keys.new.items ≡ row_keys.old.items
        ++ filter (λ key. is_row_key shape key_count (key_view key))
        (map (λ key. slice_set key index KeyPart.All) row_keys.old.items)) }
{
    for number in 0..row_keys.len() {
        let key = with_all_at(&row_keys[number], index);
        push_row_key(row_keys, shape, key_count, key)?;
    }
    Ok(())
}

// The keys of a put's rows, from that of all its keys.
fn vary(row_keys: &mut Vec<OrderedKey>, shape: Shape, key_count: usize) -> Result<(), AllocError>
    requires { key_count ≤ 6 }
    ensures { (keys : List KeyValue) → length keys ≡ key_count
        → map key_view row_keys.old.items ≡ padded 6 keys ∷ []
        → OnOk result (map key_view row_keys.new.items
        ≡ filter (is_row_key shape key_count) (spec.vary key_count (padded 6 keys))) }
{
    let mut index = key_count;
    while index > 0 {
        index -= 1;
        double(row_keys, shape, key_count, index)?;
    }
    Ok(())
}

// The keys of the rows that a put changes.
pub(super) fn fill_row_keys(
    row_keys: &mut Vec<OrderedKey>,
    shape: Shape,
    keys: &[KeyValue],
) -> Result<(), AllocError>
    requires { length keys.now ≤ 6 }
    ensures { OnOk result (map key_view row_keys.new.items
        ≡ filter (is_row_key shape (length keys.now))
        (spec.vary (length keys.now) (padded 6 keys.now))) }
{
    row_keys.clear();
    row_keys.push(base_key(keys))?;
    vary(row_keys, shape, keys.len())
}
