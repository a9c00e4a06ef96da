// Rows by their keys, in storage as wide as their keys and aggregates are many.

ghost use Rattle.std.specs.Prelude.{◌≡◌, ◌≤◌, ◌<◌, ◌*◌, length};
ghost use Rattle.star_program.specs.Rows.{cut};
ghost use Rattle.star_group.specs.Private.Tries.{IsTrie};

mod cells;
pub(crate) mod key;
mod listed;
pub(crate) mod merge;
mod rows;
mod trie;

use crate::cell::Held;
use key::KeyPart;

/// Rows with their keys, one after another: of each the first parts of its key, and its aggregates.
#[derive(Drop)]
pub(crate) struct ListedRows {
    pub(crate) width: usize,
    pub(crate) len: usize,
    pub(crate) keys: Vec<KeyPart>,
    pub(crate) aggregate_count: usize,
    pub(crate) cells: Vec<Held>,
    ghost few: { width ≤ 6 },
    ghost long_keys: { length keys.items ≡ len * width },
    ghost long_cells: { length cells.items ≡ len * aggregate_count },
}

/// The same in a trie: for each row and for the node above all of them the row below by a digit. A row
/// is below one whose key it shares some digits with. A look-up passes at most as many rows as a key
/// has digits, 32 and 33 a part, whatever keys there are; this is read from the code, and no clause
/// says it.
#[derive(Drop)]
pub(crate) struct KeyedRows {
    pub(crate) listed: ListedRows,
    links: Vec<[u32; 4]>,
    ghost some: { 0 < listed.width },
    ghost few: { listed.aggregate_count ≤ 8 },
    ghost trie: { IsTrie listed.width (cut listed.width listed.len listed.keys.items) links.items },
}
