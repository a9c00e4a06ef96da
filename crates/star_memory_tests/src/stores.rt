// Stores of groups in each shape: puts that are made again when they are refused memory.

ghost use Rattle.std.specs.Prelude.{◌≡◌, ◌<◌, ◌+◌, ◌^◌, IfOk, OnErr, OnOk, length};
ghost use Rattle.star_group.specs.Eager.{group_view};
ghost use Rattle.star_memory_tests.specs.Few.{HasFew, IsOfNumbers, IsOfTests};

use crate::asked::{expect, print_refused};
use star_group::{
    ArrayStore, DeferredStore, EagerStore, GroupRows, GroupStore, KeyValue, PutFault, TryPut,
};
use star_interval::Interval;
use star_program::{Aggregates, GroupDecl, GroupKey, GroupKeys};
use star_schema::{Aggregate, Shape};
use std::alloc::{AllocError, Global};
use std::test::Fail;

const ONE: KeyValue = KeyValue::Number(1);

const TWO: KeyValue = KeyValue::Number(2);

// The expected ranges of the keys: an array of groups has no position for the second put.
const EXPECTED: [Interval; 2] = [Interval { low: 1, high: 2 }, Interval { low: 2, high: 2 }];

const SHAPES: [Shape; 3] = [Shape::Plain, Shape::Rollup, Shape::Cube];

// A group of two keys, with an aggregate of each kind.
fn declared(alloc: Global, shape: Shape) -> Result<GroupDecl, AllocError>
    ensures { IfOk result IsOfNumbers }
{
    let aggregates = vec![in alloc;
        Aggregate::Sum,
        Aggregate::Count,
        Aggregate::Min,
        Aggregate::Max,
    ]?;
    Ok(GroupDecl {
        shape,
        keys: GroupKeys::from_vec(vec![in alloc; GroupKey::Number, GroupKey::Number]?),
        aggregates: Aggregates::from_vec(aggregates),
    })
}

// A store of no puts.
fn store_of<S: GroupStore>(alloc: Global, declared: &GroupDecl) -> Result<S, AllocError>
    requires { IsOfNumbers declared.now }
    ensures group { IfOk result (λ store. IsOfTests (S.group store)) }
    ensures empty { IfOk result (λ store. HasFew (S.has store) 0) }
{
    S::with_ranges(alloc, declared, &EXPECTED)
}

fn empty<S: GroupStore>(alloc: Global, shape: Shape) -> Result<S, AllocError>
    ensures group { IfOk result (λ store. IsOfTests (S.group store)) }
    ensures empty { IfOk result (λ store. HasFew (S.has store) 0) }
{
    let declared = declared(alloc, shape)?;
    store_of(alloc, &declared)
}

// A store of no puts, and another one if it is refused memory.
fn new_again<S: GroupStore>(rt: &impl Print, alloc: Global, shape: Shape) -> Result<S, Fail>
    ensures group { IfOk result (λ store. IsOfTests (S.group store)) }
    ensures empty { IfOk result (λ store. HasFew (S.has store) 0) }
{
    match empty::<S>(alloc, shape) {
        Ok(store) => Ok(store),
        Err(AllocError) => {
            print_refused(rt)?;
            Ok(empty::<S>(alloc, shape)?)
        }
    }
}

// One more put after a few.
fn put_one<S: GroupStore>(
    store: &mut S,
    made: usize,
    keys: &[KeyValue; 2],
    number: i64,
) -> Result<(), AllocError>
    requires made { made < 6 }
    requires group { IsOfTests (S.group store.old) }
    requires few { HasFew (S.has store.old) made }
    ensures ok { OnOk result (HasFew (S.has store.new) (made + 1)) }
    ensures refused { OnErr result (HasFew (S.has store.new) made) }
    ensures group { IsOfTests (S.group store.new) }
{
    store.put(keys, &[number, 0, number, number])?;
    Ok(())
}

// The aggregates over all puts.
fn totals<S: GroupStore>(store: &S) -> [Option<i128>; 4]
    requires { IsOfTests (S.group store.now) }
{
    [
        store.total(0),
        store.total(1),
        store.total(2),
        store.total(3),
    ]
}

// One more put, and the same again if it is refused memory: the totals are then as they were.
fn put_again<S: GroupStore>(
    rt: &impl Print,
    store: &mut S,
    made: usize,
    keys: &[KeyValue; 2],
    number: i64,
) -> Result<(), Fail>
    requires made { made < 6 }
    requires group { IsOfTests (S.group store.old) }
    requires few { HasFew (S.has store.old) made }
    ensures ok { OnOk result (HasFew (S.has store.new) (made + 1)) }
    ensures group { IsOfTests (S.group store.new) }
{
    let before = totals(store);
    match put_one(store, made, keys, number) {
        Ok(()) => Ok(()),
        Err(AllocError) => {
            print_refused(rt)?;
            expect(totals(store) == before, "other totals")?;
            Ok(put_one(store, made, keys, number)?)
        }
    }
}

// The second put makes a new row, and under the first key one that is there; the third makes none.
fn put_all<S: GroupStore>(rt: &impl Print, store: &mut S) -> Result<(), Fail>
    requires group { IsOfTests (S.group store.old) }
    requires empty { HasFew (S.has store.old) 0 }
    ensures { IsOfTests (S.group store.new) }
{
    put_again(rt, store, 0, &[ONE, TWO], 7)?;
    put_again(rt, store, 1, &[ONE, ONE], 5)?;
    put_again(rt, store, 2, &[ONE, TWO], -3)
}

// A sum, a count, the least and the greatest number.
type Row = [Option<i128>; 4];

const OF_TWO: Row = [Some(4), Some(2), Some(-3), Some(7)];

const OF_ONE: Row = [Some(5), Some(1), Some(5), Some(5)];

const OF_ALL: Row = [Some(9), Some(3), Some(-3), Some(7)];

// The rows under both keys, which a plain group has; then those under the first key and under none,
// which a rollup has too; then those under the second key, which a cube has too.
const ROWS: [([Option<KeyValue>; 2], Row); 6] = [
    ([Some(ONE), Some(TWO)], OF_TWO),
    ([Some(ONE), Some(ONE)], OF_ONE),
    ([Some(ONE), None], OF_ALL),
    ([None, None], OF_ALL),
    ([None, Some(ONE)], OF_ONE),
    ([None, Some(TWO)], OF_TWO),
];

// How many of these rows a group of a shape has.
fn rows_of(shape: Shape) -> usize {
    match shape {
        Shape::Plain => 2,
        Shape::Rollup => 4,
        Shape::Cube => 6,
    }
}

fn aggregates_at(rows: &GroupRows, number: usize) -> Row {
    [
        rows.aggregate(number, 0),
        rows.aggregate(number, 1),
        rows.aggregate(number, 2),
        rows.aggregate(number, 3),
    ]
}

fn has_keys(rows: &GroupRows, number: usize, keys: &[Option<KeyValue>]) -> bool {
    for index in 0..keys.len() {
        if rows.key(number, index) != keys[index] {
            return false;
        }
    }
    rows.key(number, keys.len()).is_none()
}

fn has_row(rows: &GroupRows, keys: &[Option<KeyValue>], row: Row) -> bool {
    for number in 0..rows.len() {
        if has_keys(rows, number, keys) && aggregates_at(rows, number) == row {
            return true;
        }
    }
    false
}

// The rows are those of all puts.
fn check_rows(rows: &GroupRows, shape: Shape) -> Result<(), Fail> {
    for (keys, row) in ROWS.iter().take(rows_of(shape)) {
        expect(has_row(rows, keys, *row), "a row is not there")?;
    }
    expect(rows.len() == rows_of(shape), "another number of rows")
}

// The rows of all puts, if there is memory to make them.
fn rows_of_all<S: GroupStore>(
    rt: &impl Print,
    alloc: Global,
    shape: Shape,
) -> Result<Result<GroupRows, AllocError>, Fail> {
    let mut store = new_again::<S>(rt, alloc, shape)?;
    put_all(rt, &mut store)?;
    expect(totals(&store) == OF_ALL, "other totals")?;
    Ok(store.into_rows())
}

// A store has its rows in each shape, another one if it is refused memory for them.
fn check_store<S: GroupStore>(rt: &impl Print, alloc: Global) -> Result<(), Fail> {
    for shape in SHAPES {
        match rows_of_all::<S>(rt, alloc, shape)? {
            Ok(rows) => check_rows(&rows, shape)?,
            Err(AllocError) => {
                print_refused(rt)?;
                check_rows(&rows_of_all::<S>(rt, alloc, shape)??, shape)?;
            }
        }
    }
    Ok(())
}

// A group of no puts has one row, in which all keys are ALL, unless it is plain.
fn check_empty<S: GroupStore>(rt: &impl Print, alloc: Global) -> Result<(), Fail> {
    for (shape, count) in [(Shape::Plain, 0), (Shape::Rollup, 1), (Shape::Cube, 1)] {
        let store = new_again::<S>(rt, alloc, shape)?;
        let nothing = [None, Some(0), None, None];
        expect(totals(&store) == nothing, "other totals")?;
        let rows = store.into_rows()?;
        expect(rows.len() == count, "another number of rows")?;
        let is_there = has_row(&rows, &[None, None], nothing);
        expect(is_there == (count == 1), "a row is not there")?;
    }
    Ok(())
}

const BIG: i64 = 9_000_000_000_000_000_000;

// Two numbers under different keys add up to 0.
fn check_sum<S: GroupStore>(rt: &impl Print, alloc: Global, first: i64) -> Result<(), Fail> {
    let mut store = new_again::<S>(rt, alloc, Shape::Cube)?;
    put_again(rt, &mut store, 0, &[ONE, TWO], first)?;
    put_again(rt, &mut store, 1, &[TWO, ONE], first.wrapping_neg())?;
    let sums = [
        Some(0),
        Some(2),
        Some(-9_000_000_000_000_000_000),
        Some(9_000_000_000_000_000_000),
    ];
    expect(totals(&store) == sums, "other totals")
}

fn check_all<S: GroupStore>(rt: &impl Print, alloc: Global) -> Result<(), Fail> {
    check_store::<S>(rt, alloc)?;
    check_empty::<S>(rt, alloc)?;
    check_sum::<S>(rt, alloc, BIG)?;
    check_sum::<S>(rt, alloc, -BIG)
}

#[test]
fn eager_store(rt: HostRuntime) -> Result<(), Fail> {
    check_all::<EagerStore>(&rt, rt.alloc())
}

#[test]
fn deferred_store(rt: HostRuntime) -> Result<(), Fail> {
    check_all::<DeferredStore>(&rt, rt.alloc())
}

#[test]
fn array_store(rt: HostRuntime) -> Result<(), Fail> {
    check_all::<ArrayStore>(&rt, rt.alloc())
}

// One more put that is refused if a sum leaves 128 bits, and the same again if it is refused memory.
fn try_again(
    rt: &impl Print,
    store: &mut EagerStore,
    keys: &[KeyValue; 2],
    number: i64,
) -> Result<(), Fail>
    requires { IsOfTests (group_view store.old) }
    ensures { IsOfTests (group_view store.new) }
{
    let numbers = [number, 0, number, number];
    let before = totals(store);
    match store.try_put(keys, &numbers) {
        Ok(()) => Ok(()),
        Err(PutFault::OutOfMemory) => {
            print_refused(rt)?;
            expect(totals(store) == before, "other totals")?;
            Ok(store.try_put(keys, &numbers)?)
        }
        Err(fault) => Err(Fail::from(format_args!("{fault:?}"))),
    }
}

#[test]
fn eager_store_by_tries(rt: HostRuntime) -> Result<(), Fail> {
    for shape in SHAPES {
        let mut store = empty::<EagerStore>(rt.alloc(), shape)?;
        try_again(&rt, &mut store, &[ONE, TWO], 7)?;
        try_again(&rt, &mut store, &[ONE, ONE], 5)?;
        try_again(&rt, &mut store, &[ONE, TWO], -3)?;
        check_rows(&store.into_rows()?, shape)?;
    }
    Ok(())
}
