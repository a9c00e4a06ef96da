// The span of lineorder's keys.

ghost use Rattle.std.specs.Prelude.{◌≡◌, ◌<◌, ◌⊎◌, Some, IfSome, Contains, length, slice_get};
ghost use Rattle.star_schema.specs.{declared.table.TableId.TheVariants.Lineorder, Database.rows_in, Loadable.keys_of};
ghost use Rattle.star_merge_laws.specs.Parts.{AreWithin, key_list_cmp};
ghost use Rattle.star_engine.specs.{Partials.line_numbers, Partials.span_view, Private.PartialSteps.IsUpTo};

use star_catalogue::Catalogue;
use star_partial::{LineKey, Span};
use star_schema::{ColumnId, TableId};
use std::cmp::Ordering;

#[tactic(auto, unfolding(star_schema::specs::Schema::column_of))]
fn key_at(catalogue: &Catalogue, row: u32) -> LineKey
    requires { row < length (rows_in catalogue.now Lineorder) }
    ensures { slice_get (keys_of Lineorder (rows_in catalogue.now Lineorder)) row
        ≡ Some (line_numbers result) }
{
    LineKey {
        order: catalogue.number(ColumnId::LoOrderkey, row),
        line: catalogue.number(ColumnId::LoLinenumber, row),
    }
}

#[tactic(auto, using(crate::proofs::SpanLemmas::then_equal))]
fn compare(key: LineKey, other: LineKey) -> Ordering
    ensures { result ≡ key_list_cmp (line_numbers key) (line_numbers other) }
{
    key.order.cmp(&other.order).then(key.line.cmp(&other.line))
}

#[tactic(auto, using(crate::proofs::SpanLemmas::upto_itself, crate::proofs::SpanLemmas::upto_less, crate::proofs::SpanLemmas::upto_turned))]
fn lesser(key: LineKey, other: LineKey) -> LineKey
    ensures first { IsUpTo (line_numbers result) (line_numbers key) }
    ensures second { IsUpTo (line_numbers result) (line_numbers other) }
    ensures either { (result ≡ key) ⊎ (result ≡ other) }
{
    if compare(other, key).is_lt() {
        other
    } else {
        key
    }
}

#[tactic(auto, using(crate::proofs::SpanLemmas::upto_itself, crate::proofs::SpanLemmas::upto_less, crate::proofs::SpanLemmas::upto_turned))]
fn greater(key: LineKey, other: LineKey) -> LineKey
    ensures first { IsUpTo (line_numbers key) (line_numbers result) }
    ensures second { IsUpTo (line_numbers other) (line_numbers result) }
    ensures either { (result ≡ key) ⊎ (result ≡ other) }
{
    if compare(key, other).is_lt() {
        other
    } else {
        key
    }
}

/// Returns the least and the greatest key of lineorder, if it has a row.
pub(crate) fn span_of(catalogue: &Catalogue) -> Option<Span>
    ensures within { AreWithin (span_view result)
        (keys_of Lineorder (rows_in catalogue.now Lineorder)) }
    ensures low { IfSome result (λ span.
        Contains (keys_of Lineorder (rows_in catalogue.now Lineorder)) (line_numbers span.low)) }
    ensures high { IfSome result (λ span.
        Contains (keys_of Lineorder (rows_in catalogue.now Lineorder)) (line_numbers span.high)) }
{
    let rows = catalogue.rows(TableId::Lineorder);
    if rows == 0 {
        return None;
    }
    let first = key_at(catalogue, 0);
    let mut span = Span {
        low: first,
        high: first,
    };
    for row in 1..rows {
        let key = key_at(catalogue, row);
        span = Span {
            low: lesser(span.low, key),
            high: greater(span.high, key),
        };
    }
    Some(span)
}
