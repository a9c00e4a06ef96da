// The cells of aggregates by group id, with the numbers of more puts.

ghost use Rattle.std.specs.Prelude.{◌≡◌, ◌≤◌, ◌<◌, ◌+◌, ◌*◌, ◌∷◌, ℕ, All, List, None, [], false, length, map, pos, slice_index_or, slice_set, true, Some};
ghost use Rattle.star_interval.specs.Range.{is_i64};
ghost use Rattle.star_program.specs.{Faults.value_count, Puts.aligned, Puts.leaves, Rows.cut};
ghost use Rattle.star_group.specs.{Private.Taken.{AreCellsTaken, AreWithin, CanTake, CanTakeAll, HasNarrow, after_rows, batch_vectors, column_after, vectors_of}, Batches.{IsPutBatch, word_in}, Cells.step};
ghost use Rattle.star_schema.specs.declared.group.Aggregate.TheVariants.{Count};

use crate::batch::PutBatch;
use crate::cell::{Held, Row};
use star_schema::Aggregate;

// That a word has 64 bits.
fn narrow_at(words: &[i64], at: usize)
    requires { at < length words.now }
    ensures { is_i64 (slice_index_or words.now at (pos 0)) ≡ true }
{
    let _word = words[at];
}

// That each of some words has 64 bits.
// The loop only reads, and the compiler leaves it out.
pub(crate) fn are_narrow(words: &[i64])
    ensures { (at : ℕ) → is_i64 (slice_index_or words.now at (pos 0)) ≡ true }
{
    for at in 0..words.len() {
        narrow_at(words, at);
    }
}

// A cell with one more number.
#[tactic(auto, unfolding(star_interval::specs::Range::is_i64, star_interval::specs::Range::is_i128))]
fn taken(aggregate: Aggregate, cell: i128, value: i64) -> i128
    requires { leaves aggregate (Some (step aggregate value (Some cell))) ≡ false }
    ensures { result ≡ step aggregate value (Some cell) }
{
    match aggregate {
        Aggregate::Sum => i128::from(value) + cell,
        Aggregate::Count => cell + 1,
        Aggregate::Min => i128::from(value).min(cell),
        Aggregate::Max => i128::from(value).max(cell),
    }
}

// A cell with the number of a row.
fn taken_in(aggregate: Aggregate, cell: i128, vector: &[i64], row: usize) -> i128
    requires row { row < length vector.now }
    requires stays { leaves aggregate (Some (step aggregate (slice_index_or vector.now row (pos 0))
        (Some cell))) ≡ false }
    ensures { result ≡ step aggregate (slice_index_or vector.now row (pos 0)) (Some cell) }
{
    taken(aggregate, cell, vector[row])
}

// The cells of one aggregate with a number more at the group id of each row.
#[inline(always)]
fn take_vector(aggregate: Aggregate, cells: &mut [i128], at: &[u32], vector: &[i64])
    requires same { length vector.now ≡ length at.now }
    requires within { AreWithin at.now (length cells.old) }
    requires stays { CanTake aggregate vector.now at.now cells.old }
    ensures cells { cells.new ≡ column_after aggregate vector.now at.now cells.old (length at.now) }
    ensures len { length cells.new ≡ length cells.old }
{
    for row in 0..at.len() {
        let id = at[row];
        cells[id as usize] = taken_in(aggregate, cells[id as usize], vector, row);
    }
}

// The only cell with a number more for each row: with one id for all rows it stays in a register.
#[inline(always)]
fn take_rows(aggregate: Aggregate, cell: i128, at: &[u32], vector: &[i64]) -> i128
    requires same { length vector.now ≡ length at.now }
    requires within { AreWithin at.now 1 }
    requires stays { CanTake aggregate vector.now at.now (cell ∷ []) }
    ensures { column_after aggregate vector.now at.now (cell ∷ []) (length at.now) ≡ result ∷ [] }
{
    let mut all = cell;
    for row in 0..at.len() {
        all = taken_in(aggregate, all, vector, row);
    }
    all
}

// The same, in a loop of its own for each kind of aggregate.
fn take_rows_of(aggregate: Aggregate, cell: i128, at: &[u32], vector: &[i64]) -> i128
    requires same { length vector.now ≡ length at.now }
    requires within { AreWithin at.now 1 }
    requires stays { CanTake aggregate vector.now at.now (cell ∷ []) }
    ensures { column_after aggregate vector.now at.now (cell ∷ []) (length at.now) ≡ result ∷ [] }
{
    match aggregate {
        Aggregate::Sum => take_rows(Aggregate::Sum, cell, at, vector),
        Aggregate::Count => take_rows(Aggregate::Count, cell, at, vector),
        Aggregate::Min => take_rows(Aggregate::Min, cell, at, vector),
        Aggregate::Max => take_rows(Aggregate::Max, cell, at, vector),
    }
}

// The cells of one aggregate with a number more at the group id of each row, in its own loop for
// each kind of aggregate.
fn take_vector_of(aggregate: Aggregate, cells: &mut [i128], at: &[u32], vector: &[i64])
    requires same { length vector.now ≡ length at.now }
    requires within { AreWithin at.now (length cells.old) }
    requires stays { CanTake aggregate vector.now at.now cells.old }
    ensures cells { cells.new ≡ column_after aggregate vector.now at.now cells.old (length at.now) }
    ensures len { length cells.new ≡ length cells.old }
{
    if cells.len() == 1 {
        cells[0] = take_rows_of(aggregate, cells[0], at, vector);
        return;
    }
    match aggregate {
        Aggregate::Sum => take_vector(Aggregate::Sum, cells, at, vector),
        Aggregate::Count => take_vector(Aggregate::Count, cells, at, vector),
        Aggregate::Min => take_vector(Aggregate::Min, cells, at, vector),
        Aggregate::Max => take_vector(Aggregate::Max, cells, at, vector),
    }
}

// The group ids of some rows have puts.
pub(crate) fn mark(seen: &mut [bool], at: &[u32])
    requires within { AreWithin at.now (length seen.old) }
    ensures seen { seen.new ≡ after_rows false (λ row was. true) at.now seen.old (length at.now) }
    ensures len { length seen.new ≡ length seen.old }
{
    for row in 0..at.len() {
        seen[at[row] as usize] = true;
    }
}

// The cells of the aggregate of a number with a number more at the id of each row, among those
// of `aggregate_count` aggregates, one after another.
pub(crate) fn take_column(
    cells: &mut [i128],
    aggregate_count: usize,
    ids: usize,
    number: usize,
    aggregate: Aggregate,
    at: &[u32],
    vector: &[i64],
)
    requires number { number < aggregate_count }
    requires long { length cells.old ≡ aggregate_count * ids }
    requires same { length vector.now ≡ length at.now }
    requires within { AreWithin at.now ids }
    requires stays { CanTake aggregate vector.now at.now
        (slice_index_or (cut ids aggregate_count cells.old) number []) }
    ensures cells { cut ids aggregate_count cells.new
        ≡ slice_set (cut ids aggregate_count cells.old) number
        (column_after aggregate vector.now at.now
        (slice_index_or (cut ids aggregate_count cells.old) number []) (length at.now)) }
    ensures len { length cells.new ≡ length cells.old }
{
    let start = number * ids;
    let end = start + ids;
    take_vector_of(aggregate, &mut cells[start..end], at, vector);
}

// The cells of each aggregate with the number of one put at its group id.
pub(crate) fn take_put(
    cells: &mut [i128],
    ids: usize,
    aggregates: &[Aggregate],
    at: &[u32],
    values: &[i64],
)
    requires one { length at.now ≡ 1 }
    requires values { length values.now ≡ length aggregates.now }
    requires long { length cells.old ≡ length aggregates.now * ids }
    requires within { AreWithin at.now ids }
    requires stays { CanTakeAll aggregates.now ids (vectors_of values.now) at.now cells.old }
    ensures { AreCellsTaken aggregates.now ids (vectors_of values.now) at.now cells.old cells.new }
{
    let aggregate_count = aggregates.len();
    for number in 0..aggregate_count {
        let vector = &values[number..number + 1];
        take_column(
            cells,
            aggregate_count,
            ids,
            number,
            aggregates[number],
            at,
            vector,
        );
    }
}

// One cell.
fn cell_at(cells: &[i128], at: usize) -> Held
    requires { at < length cells.now }
    ensures { result ≡ Some (slice_index_or cells.now at (pos 0)) }
{
    Held::new(cells[at])
}

// The row of one group id.
pub(crate) fn row_at(cells: &[i128], ids: usize, aggregate_count: usize, id: usize) -> Row
    requires id { id < ids }
    requires few { aggregate_count ≤ 8 }
    requires long { length cells.now ≡ aggregate_count * ids }
    ensures { (a : ℕ) → a < aggregate_count → slice_index_or result a None
        ≡ Some (slice_index_or (slice_index_or (cut ids aggregate_count cells.now) a []) id (pos 0)) }
{
    let mut row = [Held::new(0); 8];
    for number in 0..aggregate_count {
        row[number] = cell_at(cells, number * ids + id);
    }
    row
}

// The number of a count in each row.
const ONES: [i64; 1024] = [1; 1024];

// A number of 1 for each of some rows.
fn ones(rows: usize) -> &'static [i64]
    requires { rows ≤ 1024 }
    ensures words { (row : ℕ) → row < rows → slice_index_or result.now row (pos 0) ≡ pos 1 }
    ensures len { length result.now ≡ rows }
{
    &ONES[..rows]
}

// The words of the first of some registers in the rows of a batch, and the others.
fn first_vector<'a>(batch: &PutBatch<'a>, left: &'a [u16]) -> (&'a [i64], &'a [u16])
    requires few { batch.now.rows ≤ 1024 }
    requires some { 0 < length left.now }
    requires vectors { All (λ r. r * 1024 + 1024 ≤ length batch.now.vectors.now) left.now }
    ensures next { (row : ℕ) → row < batch.now.rows
        → map (word_in batch.now.vectors.now row) left.now ≡ slice_index_or result.0.now row (pos 0)
        ∷ map (word_in batch.now.vectors.now row) result.1.now }
    ensures vectors { All (λ r. r * 1024 + 1024 ≤ length batch.now.vectors.now) result.1.now }
    ensures left { 1 + length result.1.now ≡ length left.now }
    ensures len { length result.0.now ≡ batch.now.rows }
{
    (batch.vector(left[0]), &left[1..])
}

// The numbers of some rows for an aggregate, and the registers for the others.
fn next_vector<'a>(
    aggregate: Aggregate,
    batch: &PutBatch<'a>,
    left: &'a [u16],
) -> (&'a [i64], &'a [u16])
    requires few { batch.now.rows ≤ 1024 }
    requires enough { value_count (aggregate ∷ []) ≤ length left.now }
    requires vectors { All (λ r. r * 1024 + 1024 ≤ length batch.now.vectors.now) left.now }
    ensures next { (row : ℕ) → row < batch.now.rows → (gs : List Aggregate)
        → aligned (pos 1) (aggregate ∷ gs) (map (word_in batch.now.vectors.now row) left.now)
        ≡ slice_index_or result.0.now row (pos 0)
        ∷ aligned (pos 1) gs (map (word_in batch.now.vectors.now row) result.1.now) }
    ensures left { value_count (aggregate ∷ []) + length result.1.now ≡ length left.now }
    ensures vectors { All (λ r. r * 1024 + 1024 ≤ length batch.now.vectors.now) result.1.now }
    ensures len { length result.0.now ≡ batch.now.rows }
{
    match aggregate {
        Aggregate::Count => (ones(batch.rows), left),
        _ => first_vector(batch, left),
    }
}

// The cells of each aggregate with the numbers of the rows of a batch at their group ids.
pub(crate) fn take_vectors(
    cells: &mut [i128],
    ids: usize,
    aggregates: &[Aggregate],
    at: &[u32],
    batch: &PutBatch<'_>,
)
    requires batch { IsPutBatch batch.now }
    requires declared { aggregates.now ≡ batch.now.declared.now.aggregates }
    requires rows { length at.now ≡ batch.now.rows }
    requires long { length cells.old ≡ length aggregates.now * ids }
    requires within { AreWithin at.now ids }
    requires stays { (a : ℕ) → a < length aggregates.now → HasNarrow batch.now a
        → CanTake (slice_index_or aggregates.now a Count) (batch_vectors batch.now a) at.now
        (slice_index_or (cut ids (length aggregates.now) cells.old) a []) }
    ensures cells { AreCellsTaken aggregates.now ids
        (batch_vectors batch.now) at.now cells.old cells.new }
    ensures narrow { (a : ℕ) → a < length aggregates.now → HasNarrow batch.now a }
{
    let aggregate_count = aggregates.len();
    let mut left = batch.values;
    for number in 0..aggregate_count {
        let (vector, others) = next_vector(aggregates[number], batch, left);
        are_narrow(vector);
        take_column(
            cells,
            aggregate_count,
            ids,
            number,
            aggregates[number],
            at,
            vector,
        );
        left = others;
    }
}
