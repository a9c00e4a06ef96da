// The total of all puts, from the cells of the group ids and the overflow store's total.

ghost use Rattle.std.specs.Prelude.{◌≡◌, ◌≤◌, ℕ, List, Some, length};
ghost use Rattle.star_group.specs.{Base.HasAggregates, Base.key_view, BaseKeys.padded, Private.Numbers.IsNarrow, ArrayStores.Has, ArrayStores.group_view};
ghost use Rattle.star_program.specs.{Puts.Update, declared.key.KeyValue.KeyValue as Value};
ghost use Rattle.star_group.specs.Ids as spec;

use super::ArrayStore;
use super::cells::row_at;
use super::ids::keys_at;
use super::span::Span;
use crate::cell::Total;
use crate::keyed::key::{OrderedKey, base_key};

impl ArrayStore {
    // The total of all puts.
    // No total is kept with the cells, so that a put changes only its own cells. A group whose total a
    // program reads gets no group ids: a read in a scan would go over all of them each time.
    pub(super) fn whole_total(&self) -> Total
        ensures { (puts : List Update) → Has self.now puts
            → HasAggregates (group_view self.now) puts result }
    {
        let aggregates = self.rest.aggregates.as_slice();
        let seen = self.seen.as_slice();
        let cells = self.cells.as_slice();
        let (ids, aggregate_count) = (seen.len(), aggregates.len());
        let mut total = self.rest.total.copied();
        for id in 0..ids {
            if seen[id] {
                let row = row_at(cells, ids, aggregate_count, id);
                total.merge(aggregates, &row);
            }
        }
        total
    }
}

// The key of a group id.
pub(super) fn key_at(spans: &[Span], id: usize) -> OrderedKey
    requires { length spans.now ≤ 6 }
    ensures key { (keys : List Value) → spec.group_id spans.now keys ≡ Some id
        → key_view result ≡ padded 6 keys }
    ensures narrow { (width : ℕ) → length spans.now ≤ width → IsNarrow width result }
{
    let keys = keys_at(spans, id);
    base_key(&keys[..spans.len()])
}
