// A group under each grouping of its keys.

ghost use Rattle.std.specs.{Prelude.{◌≡◌, ◌++◌, ◌∷◌, [], IfOk, OnOk, map}, List.{flat_map, list_all}, Option.{is_none, is_some, option_to_list}};
ghost use Rattle.star_program.specs.CellViews.{cell_viewed};
ghost use Rattle.star_merge.specs.{Cells.key_of, Private.Adding.masked};
ghost use Rattle.star_schema.specs.Groups as spec;

use crate::group::{Group, key_cell};
use star_program::{Cell, CellView, KeptCell};
use star_schema::Shape;
use std::alloc::{AllocError, Global};

// Whether a key is shown: it is not ALL.
fn is_shown(key: &KeptCell) -> bool
    ensures { result ≡ is_some (key_of key.now) }
{
    match key.as_view() {
        CellView::Number(_) | CellView::Text(_) => true,
        CellView::All | CellView::Null => false,
    }
}

fn all_shown(keys: &[KeptCell]) -> bool
    ensures { result ≡ list_all is_some (map key_of keys.now) }
{
    match keys {
        [] => true,
        [key, rest @ ..] => is_shown(key) && all_shown(rest),
    }
}

fn all_rolled_up(keys: &[KeptCell]) -> bool
    ensures { result ≡ list_all is_none (map key_of keys.now) }
{
    match keys {
        [] => true,
        [key, rest @ ..] => !is_shown(key) && all_rolled_up(rest),
    }
}

fn is_prefix(keys: &[KeptCell]) -> bool
    ensures { result ≡ spec.is_grouping Shape.Rollup (map key_of keys.now) }
{
    match keys {
        [] => true,
        [key, rest @ ..] => {
            if is_shown(key) {
                is_prefix(rest)
            } else {
                all_rolled_up(rest)
            }
        }
    }
}

// Whether a shape has the grouping by these keys.
pub(crate) fn is_grouping(shape: Shape, keys: &[KeptCell]) -> bool
    ensures { result ≡ spec.is_grouping shape (map key_of keys.now) }
{
    match shape {
        Shape::Plain => all_shown(keys),
        Shape::Cube => true,
        Shape::Rollup => is_prefix(keys),
    }
}

fn copied_key(alloc: Global, key: &KeptCell) -> Result<KeptCell, AllocError>
    ensures { IfOk result (λ copy. key_of copy ≡ key_of key.now) }
{
    KeptCell::new(alloc, key_cell(alloc, key.as_view())?)
}

fn copied_keys(alloc: Global, keys: &[KeptCell]) -> Result<Vec<KeptCell>, AllocError>
    ensures { IfOk result (λ copies. map key_of copies.items ≡ map key_of keys.now) }
{
    let mut copies = Vec::with_capacity(alloc, keys.len())?;
    for key in keys {
        copies.push(copied_key(alloc, key)?)?;
    }
    Ok(copies)
}

// The keys, and one more.
fn with_key(
    alloc: Global,
    keys: &[KeptCell],
    key: CellView<'_>,
) -> Result<Vec<KeptCell>, AllocError>
    ensures { IfOk result (λ more. map key_of more.items
        ≡ map key_of keys.now ++ key_of (cell_viewed key.entry) ∷ []) }
{
    let mut more = copied_keys(alloc, keys)?;
    more.push(KeptCell::new(alloc, key_cell(alloc, key)?)?)?;
    Ok(more)
}

// Adds the group of these keys, if the shape has it.
#[tactic(auto, using(crate::proofs::Steps::masked_last))]
fn push_grouping(
    alloc: Global,
    shape: Shape,
    totals: &[Option<i128>],
    keys: Vec<KeptCell>,
    groups: &mut Vec<Group>,
) -> Result<(), AllocError>
    ensures { OnOk result (groups.new.items
        ≡ groups.old.items ++ masked shape totals.now (map key_of keys.items) []) }
{
    if is_grouping(shape, &keys) {
        groups.push(Group::new(keys, totals.to_vec(alloc)?))?;
    }
    Ok(())
}

// Adds a group under each grouping of its keys that begins with `first` and then shows or hides
// each of `keys`.
#[tactic(auto, using(crate::proofs::Steps::masked_hidden))]
pub(crate) fn push_groupings(
    alloc: Global,
    shape: Shape,
    totals: &[Option<i128>],
    first: Vec<KeptCell>,
    keys: &[KeptCell],
    groups: &mut Vec<Group>,
) -> Result<(), AllocError>
    ensures { OnOk result (groups.new.items ≡ groups.old.items
        ++ masked shape totals.now (map key_of first.items)
        (flat_map option_to_list (map key_of keys.now))) }
{
    match keys {
        [] => push_grouping(alloc, shape, totals, first, groups),
        [key, rest @ ..] => {
            if !is_shown(key) {
                return push_groupings(alloc, shape, totals, first, rest, groups);
            }
            let shown = with_key(alloc, &first, key.as_view())?;
            let hidden = with_key(alloc, &first, CellView::All)?;
            push_groupings(alloc, shape, totals, shown, rest, groups)?;
            push_groupings(alloc, shape, totals, hidden, rest, groups)
        }
    }
}
