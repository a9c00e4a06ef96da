// What many tests assert, in one position: each assert is dear to prove.

pub(crate) use crate::files::ABOVE_AVERAGE;
use star_catalogue::{Catalogue, LoadFault, Texts};
use star_program::{Program, TextFault};
use star_schema::Limits;
use std::alloc::{AllocError, Global};
use std::fmt::Debug;
use std::process::Abort;
use std::test::Fail;

/// Checks that a value is the expected one.
pub(crate) fn check_same<T: Copy + PartialEq + Debug, D: Debug>(
    rt: &impl Abort,
    got: T,
    expected: T,
    of: &D,
) {
    assert_eq!(rt; got, expected, "of {of:?}");
}

/// Checks that a text is the expected one.
pub(crate) fn check_text(got: &[u8], expected: &str, of: &str) -> Result<(), Fail> {
    if got == expected.as_bytes() {
        return Ok(());
    }
    let got = str::from_utf8(got).unwrap_or("not a text");
    Err(Fail::from(format_args!("{got} where {expected} is expected of {of}")))
}

/// Loads tables that have no error. They are boxed, since a catalogue is dear to let go in a proof.
pub(crate) fn loaded(alloc: Global, texts: &Texts<'_>) -> Result<Box<Catalogue>, Fail> {
    match Catalogue::load(alloc, texts, Limits::widest()) {
        Ok(catalogue) => Ok(Box::new(alloc, catalogue)?),
        Err(LoadFault::OutOfMemory) => Err(Fail::from(AllocError)),
        Err(fault) => Err(Fail::from(format_args!("{fault}"))),
    }
}

/// Reads a program that has no error.
pub(crate) fn parsed(alloc: Global, text: &str) -> Result<Program, Fail> {
    match Program::parse(alloc, text.as_bytes()) {
        Ok(program) => Ok(program),
        Err(TextFault::OutOfMemory) => Err(Fail::from(AllocError)),
        Err(fault) => Err(Fail::from(format_args!("{fault} in {text}"))),
    }
}

/// Sums the discounts of one year.
pub(crate) const DISCOUNTED_REVENUE: &str = concat!(
    "star program 1\nregisters 15\ngroup 0 plain : sum\nscan lineorder r0\n",
    "  r1 = load lo_orderdate r0\n  r2 = find date r1\n  r3 = load d_year r2\n  r4 = const 1993\n",
    "  r5 = eq r3 r4\n  keep r5\n",
    "  r6 = load lo_discount r0\n  r7 = const 1\n  r8 = const 4\n  r9 = within r6 r7 r8\n  keep r9\n",
    "  r10 = load lo_quantity r0\n  r11 = const 25\n  r12 = lt r10 r11\n  keep r12\n",
    "  r13 = load lo_extendedprice r0\n  r14 = mul r13 r6\n  put 0 : r14\nend\n",
    "report 0\nshow revenue aggregate 0\n",
);
