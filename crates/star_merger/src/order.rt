// The order of a partial's rows.

use star_program::{CellRows, CellView, KeptCell};
use std::cmp::Ordering;

// Compares two keys of one column.
fn compare_keys(a: &KeptCell, b: &KeptCell) -> Ordering {
    match (a.as_view(), b.as_view()) {
        (CellView::Number(x), CellView::Number(y)) => x.cmp(&y),
        (CellView::Text(x), CellView::Text(y)) => x.cmp(y),
        _ => Ordering::Equal,
    }
}

// Tests whether the first of two rows comes before the second, by the first `keys` cells.
fn is_before(keys: usize, row: &[KeptCell], next: &[KeptCell]) -> bool {
    for (a, b) in row.iter().take(keys).zip(next.iter()) {
        match compare_keys(a, b) {
            Ordering::Less => return true,
            Ordering::Equal => {}
            Ordering::Greater => return false,
        }
    }
    false
}

/// Returns the number of the first row, from 0, that does not come after the row before it.
pub(crate) fn first_misplaced(keys: usize, rows: &CellRows) -> Option<usize> {
    for number in 1..rows.len() {
        if !is_before(keys, rows.row(number - 1), rows.row(number)) {
            return Some(number);
        }
    }
    None
}
