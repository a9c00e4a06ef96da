// The dense group ids of key lists in ranges of keys.

ghost use Rattle.std.specs.Prelude.{◌≡◌, ◌≤◌, ◌<◌, ◌+◌, ◌*◌, ◌^◌, ◌-ℤ◌, ℕ, IfSome, List, None, Some, false, length, pos, slice_index_or, take, true, MatchOption};
ghost use Rattle.star_program.specs.declared.key.KeyValue.{KeyValue as Value};
ghost use Rattle.star_group.specs.{Batches.IsPutBatch, Batches.put_in, Ids.above, Ids.id_count, Ids.offset_up_to};
ghost use Rattle.star_group.specs.Ids as spec;

use super::span::Span;
use crate::KeyValue;
use crate::batch::PutBatch;
use star_program::GroupKey;

impl Span {
    // The offset of a word in the range.
    pub(crate) fn offset(self, word: i64) -> Option<u32>
        ensures { result ≡ offset_up_to self.last (word -ℤ self.low) }
    {
        let high = self.low + i64::from(self.last);
        if word < self.low || high < word {
            None
        } else {
            Some((word - self.low) as u32)
        }
    }

    // The offset of a key in it.
    fn offset_of(self, key: KeyValue) -> Option<u32>
        ensures { result ≡ spec.offset_of self key }
    {
        match key {
            KeyValue::Number(number) => {
                if self.is_code {
                    None
                } else {
                    self.offset(number)
                }
            }
            KeyValue::Code(code) => {
                if self.is_code {
                    self.offset(i64::from(code))
                } else {
                    None
                }
            }
        }
    }

    // The key that lies there.
    fn key_at(self, offset: u32) -> KeyValue
        requires { offset ≤ self.last }
        ensures { (key : Value) → spec.offset_of self key ≡ Some offset → result ≡ key }
    {
        let word = self.low + i64::from(offset);
        if self.is_code {
            KeyValue::Code(word as u32)
        } else {
            KeyValue::Number(word)
        }
    }

    // The group id of this key in front of others that have one.
    fn above(self, key: KeyValue, rest: Option<usize>) -> Option<usize>
        requires { MatchOption rest (Unit {0}) (λ id. id < 2 ^ 28) }
        ensures { result ≡ above (spec.offset_of self key) (self.last + 1) rest }
    {
        let offset = self.offset_of(key)?;
        Some(offset as usize + (self.last as usize + 1) * rest?)
    }
}

// The group id of a key list.
// It is a number in a mixed base: the first key's offset, and the size of its range times the id of
// the others. One division a key gives the keys back, so no two lists share an id.
pub(crate) fn id_of(spans: &[Span], keys: &[KeyValue]) -> Option<usize>
    requires same { length keys.now ≡ length spans.now }
    requires few { id_count spans.now ≤ 2 ^ 28 }
    ensures id { result ≡ spec.group_id spans.now keys.now }
    ensures within { IfSome result (λ id. id < id_count spans.now) }
{
    let mut id = Some(0);
    let mut index = spans.len();
    while index > 0 {
        index -= 1;
        id = spans[index].above(keys[index], id);
    }
    id
}

// The keys that have this group id, if any have it.
pub(crate) fn keys_at(spans: &[Span], id: usize) -> [KeyValue; 6]
    requires few { length spans.now ≤ 6 }
    ensures { (keys : List Value) → spec.group_id spans.now keys ≡ Some id
        → take (length spans.now) result ≡ keys }
{
    let mut keys = [KeyValue::Code(0); 6];
    let mut left = id;
    for index in 0..spans.len() {
        let span = spans[index];
        let size = span.last as usize + 1;
        keys[index] = span.key_at((left % size) as u32);
        left /= size;
    }
    keys
}

// The group id of a key in front of others.
fn next_id(offset: u32, size: u32, rest: u32) -> u32
    requires { offset + size * rest < 2 ^ 32 }
    ensures { result ≡ offset + size * rest }
{
    offset + size * rest
}

// Adds a key in front of others to the ids of some rows, which have its word in a vector: whether
// it lies in its range in all of them.
fn add_vector(span: Span, vector: &[i64], at: &mut [u32]) -> bool
    requires same { length at.old ≡ length vector.now }
    requires few { span.last < 2 ^ 28 }
    requires small { (row : ℕ) → row < length vector.now
        → span.last + (span.last + 1) * slice_index_or at.old row 0 < 2 ^ 32 }
    ensures ids { result ≡ true → (row : ℕ) → row < length vector.now
        → above (offset_up_to span.last (slice_index_or vector.now row (pos 0) -ℤ span.low))
        (span.last + 1) (Some (slice_index_or at.old row 0)) ≡ Some (slice_index_or at.new row 0) }
    ensures outside { result ≡ false → (row : ℕ) × (row < length vector.now)
        × (offset_up_to span.last (slice_index_or vector.now row (pos 0) -ℤ span.low) ≡ None) }
    ensures len { length at.new ≡ length at.old }
{
    let size = span.last + 1;
    for row in 0..vector.len() {
        match span.offset(vector[row]) {
            Some(offset) => at[row] = next_id(offset, size, at[row]),
            None => return false,
        }
    }
    true
}

// Whether the range is one of such keys.
fn is_of(span: Span, declared: GroupKey) -> bool
    ensures is { result ≡ true → spec.IsOf span declared }
    ensures all { spec.IsOf span declared → result ≡ true }
{
    match declared {
        GroupKey::Number => !span.is_code,
        GroupKey::Text(_) => span.is_code,
    }
}

// The group ids of rows with no keys.
fn clear(at: &mut [u32])
    ensures blank { (row : ℕ) → row < length at.old → slice_index_or at.new row 0 ≡ 0 }
    ensures len { length at.new ≡ length at.old }
{
    for id in at.iter_mut() {
        *id = 0;
    }
}

// The group ids of the rows of a batch, if the keys of all of them lie in their ranges.
pub(crate) fn find_ids(spans: &[Span], batch: &PutBatch<'_>, at: &mut [u32]) -> bool
    requires batch { IsPutBatch batch.now }
    requires keys { length spans.now ≡ length batch.now.keys.now }
    requires few { id_count spans.now ≤ 2 ^ 28 }
    requires rows { length at.old ≡ batch.now.rows }
    ensures ids { result ≡ true → (row : ℕ) → row < batch.now.rows
        → spec.group_id spans.now (put_in batch.now row).keys ≡ Some (slice_index_or at.new row 0) }
    ensures outside { result ≡ false → 0 < batch.now.rows → (row : ℕ) × (row < batch.now.rows)
        × (spec.group_id spans.now (put_in batch.now row).keys ≡ None) }
    ensures len { length at.new ≡ length at.old }
{
    clear(at);
    let declared = batch.declared.keys.as_slice();
    let mut index = spans.len();
    while index > 0 {
        index -= 1;
        let span = spans[index];
        if !is_of(span, declared[index]) {
            return false;
        }
        let vector = batch.vector(batch.keys[index]);
        if !add_vector(span, vector, at) {
            return false;
        }
    }
    true
}
