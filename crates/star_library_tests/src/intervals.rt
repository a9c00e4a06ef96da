// Intervals at the limits of 64 and of 128 bits.

use crate::checks::{check_same, check_text};
use star_interval::{Interval, Wide};
use std::alloc::Global;
use std::process::Abort;
use std::test::Fail;

const LEAST: Interval = Interval {
    low: i64::MIN,
    high: i64::MIN,
};

const GREATEST: Interval = Interval {
    low: i64::MAX,
    high: i64::MAX,
};

const EVERY: Interval = Interval {
    low: i64::MIN,
    high: i64::MAX,
};

fn bounds(wide: &Wide) -> (i128, i128) {
    (wide.low, wide.high)
}

// These bounds, if they are in order.
fn wide(low: i128, high: i128) -> Wide {
    if low <= high {
        Wide { low, high }
    } else {
        Wide { low, high: low }
    }
}

// Whether bounds fit into 64 bits, and the bounds.
fn ends(answer: Result<Interval, Wide>) -> (bool, i128, i128) {
    match answer {
        Ok(interval) => (true, i128::from(interval.low), i128::from(interval.high)),
        Err(wide) => (false, wide.low, wide.high),
    }
}

// The operation, its result, whether that fits into 64 bits, and its bounds.
type Case = (&'static str, Result<Interval, Wide>, bool, i128, i128);

fn check_ends(rt: &impl Abort, cases: &[Case]) {
    for (operation, answer, fits, low, high) in cases {
        check_same(rt, ends(*answer), (*fits, *low, *high), operation);
    }
}

const PAST: i128 = 1 << 63;

const FAR_BELOW: i128 = -170141183460469231722463931679029329920;

const FAR_ABOVE: i128 = 170141183460469231704017187605319778305;

#[test]
fn bounds_are_exact_about_64_bits(rt: HostRuntime) {
    let (zero, one, minus_one) = (Interval::point(0), Interval::point(1), Interval::point(-1));
    check_ends(
        &rt,
        &[
            ("add", GREATEST.add(&one), false, PAST, PAST),
            ("add", LEAST.add(&minus_one), false, -PAST - 1, -PAST - 1),
            ("add", EVERY.add(&zero), true, -PAST, PAST - 1),
            ("sub", zero.sub(&LEAST), false, PAST, PAST),
            ("sub", minus_one.sub(&LEAST), true, PAST - 1, PAST - 1),
            ("mul", LEAST.mul(&minus_one), false, PAST, PAST),
            ("mul", LEAST.mul(&LEAST), false, 1 << 126, 1 << 126),
            ("mul", EVERY.mul(&one), true, -PAST, PAST - 1),
            ("times", LEAST.times(2), false, -1 << 64, -1 << 64),
            ("times", EVERY.times(u64::MAX), false, FAR_BELOW, FAR_ABOVE),
            ("times", EVERY.times(0), true, 0, 0),
            ("hull", Ok(LEAST.hull(&GREATEST)), true, -PAST, PAST - 1),
            ("with_zero", Ok(LEAST.with_zero()), true, -PAST, 0),
        ],
    );
}

// Bounds of 64 bits, and those one past them.
const NARROWED: [(i128, i128, bool); 4] = [
    (-PAST, PAST - 1, true),
    (-PAST - 1, PAST - 1, false),
    (-PAST, PAST, false),
    (0, 0, true),
];

#[test]
fn bounds_of_64_bits_are_intervals(rt: HostRuntime) {
    for (low, high, fits) in NARROWED {
        check_same(
            &rt,
            ends(wide(low, high).narrow()),
            (fits, low, high),
            &"narrow",
        );
    }
}

const MULTIPLES: [(Interval, u64, i128, i128); 5] = [
    (LEAST, u64::MAX, FAR_BELOW, FAR_BELOW),
    (GREATEST, u64::MAX, FAR_ABOVE, FAR_ABOVE),
    (EVERY, u64::MAX, FAR_BELOW, FAR_ABOVE),
    (EVERY, 1, -PAST, PAST - 1),
    (EVERY, 0, 0, 0),
];

#[test]
fn multiples_have_128_bits(rt: HostRuntime) {
    for (interval, n, low, high) in MULTIPLES {
        let wide = interval.times_wide(n);
        check_same(&rt, bounds(&wide), (low, high), &n);
    }
}

const LOW: i128 = i128::MIN;

const HIGH: i128 = i128::MAX;

// Bounds, bounds that are added, and the bounds of the sums, if they have 128 bits.
const SUMS: [((i128, i128), (i128, i128), Option<(i128, i128)>); 8] = [
    ((LOW, HIGH), (0, 0), Some((LOW, HIGH))),
    ((LOW, HIGH), (-1, 0), None),
    ((LOW, HIGH), (0, 1), None),
    ((LOW, LOW), (0, 1), Some((LOW, LOW + 1))),
    ((LOW, LOW), (-1, 0), None),
    ((HIGH, HIGH), (-1, 0), Some((HIGH - 1, HIGH))),
    ((HIGH, HIGH), (0, 1), None),
    ((LOW, LOW), (HIGH, HIGH), Some((-1, -1))),
];

#[test]
fn sums_of_bounds_have_128_bits(rt: HostRuntime) {
    for ((low, high), (from, upto), expected) in SUMS {
        let sums = wide(low, high).add(&wide(from, upto));
        check_same(&rt, sums.map(|wide| (wide.low, wide.high)), expected, &from);
    }
}

#[test]
fn bounds_print_as_low_and_high(rt: HostRuntime) -> Result<(), Fail> {
    let alloc: Global = rt.alloc();
    let price = Interval {
        low: 500,
        high: 999_999_999_999_999_999,
    };
    let text = format!(in alloc; "{price}")?;
    check_text(text.as_bytes(), "500..999999999999999999", "prices")?;
    let squares = price.mul(&price).err().ok_or("narrow")?;
    let text = format!(in alloc; "{squares}")?;
    let expected = "250000..999999999999999998000000000000000001";
    check_text(text.as_bytes(), expected, "squares of prices")
}
