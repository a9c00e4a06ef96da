// The check of a report's names.

ghost use Rattle.std.specs.Prelude.{◌≡◌, ◌≤◌, length, map};
ghost use Rattle.star_program.specs.Limits.{IsWithinLimits};
ghost use Rattle.star_program.specs.ShowLines as shown;

use star_program::{GroupDecl, Parts, Show};
use star_schema::{GroupColumn, SortKey};

fn has_column(declared: &GroupDecl, column: GroupColumn) -> bool
    ensures { result ≡ shown.has_column declared.now column }
{
    match column {
        GroupColumn::Key(index) => (index as usize) < declared.keys.as_slice().len(),
        GroupColumn::Aggregate(index) => (index as usize) < declared.aggregates.as_slice().len(),
    }
}

// Returns the number of the first show line that names a column which its group does not have.
fn bad_show(declared: &GroupDecl, shows: &[Show]) -> Option<u8>
    requires { length shows.now ≤ 16 }
    ensures { result ≡ shown.first_unshown declared.now 1 (map (λ show. show.column) shows.now) }
{
    let mut line = 1;
    for show in shows {
        if !has_column(declared, show.column) {
            return Some(line);
        }
        line += 1;
    }
    None
}

// Returns the number of the first such sort line, counting from the given number.
fn bad_sort(declared: &GroupDecl, first: u8, sorts: &[SortKey]) -> Option<u8>
    requires few { length sorts.now ≤ 16 }
    requires first { first ≤ 17 }
    ensures { result
        ≡ shown.first_unshown declared.now first (map (λ sort. sort.column) sorts.now) }
{
    let mut line = first;
    for sort in sorts {
        if !has_column(declared, sort.column) {
            return Some(line);
        }
        line += 1;
    }
    None
}

/// Returns the position of the first line of a report that names something undeclared: 0 if the
/// group is not declared or nothing is shown, otherwise the number of the line, from 1, among the
/// show lines followed by the sort lines. Allocates nothing.
pub fn misnamed_line(parts: &Parts) -> Option<u8>
    requires { IsWithinLimits parts.now }
    ensures { result ≡ shown.shown_fault parts.now }
{
    let shows = parts.shows.as_slice();
    match parts.group(parts.report) {
        Some(declared) if !shows.is_empty() => match bad_show(declared, shows) {
            Some(line) => Some(line),
            None => bad_sort(declared, shows.len() as u8 + 1, parts.sorts.as_slice()),
        },
        _ => Some(0),
    }
}
