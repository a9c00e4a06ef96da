// Runs over 3,000 lines in each of the ways in which a scan can run, compared with trials.

use crate::checks::{check_same, check_text, loaded, parsed};
use star_catalogue::{Catalogue, Texts};
use star_machine::{TrialFault, run, trial};
use star_program::{Outcome, Program};
use star_report::report_text;
use star_schema::{Limits, MOST_VISITS};
use star_verify::{Refusal, Refused, Verified, verify};
use std::alloc::{AllocError, Global};
use std::fmt::Write;
use std::test::Fail;

// ---- tables

const LINES: u64 = 3_000;

// Dates in order, whose years are runs of rows and whose months come again and again.
fn dates(alloc: Global) -> Result<String, AllocError> {
    let mut text = String::new(alloc);
    for row in 0..84 {
        let (year, month) = (1992 + row / 12, row % 12 + 1);
        let key = 19_920_101 + row;
        writeln!(
            text,
            "{key}|D{row}|W|M{month}|{year}|{year}{month:02}|Y{year}M{month}|1|1|{row}|{month}|1|S|0|0|0|1|"
        )?;
    }
    Ok(text)
}

// Customers and suppliers: regions come in turn, or are runs of rows.
fn customers(alloc: Global) -> Result<String, AllocError> {
    let mut text = String::new(alloc);
    for row in 0..40 {
        let (key, nation, region) = (row + 1, row % 10, row % 5);
        writeln!(
            text,
            "{key}|C{row}|A|CITY{row}|NATION{nation}|REGION{region}|P|M{region}|"
        )?;
    }
    Ok(text)
}

fn suppliers(alloc: Global) -> Result<String, AllocError> {
    let mut text = String::new(alloc);
    for row in 0..25_u32 {
        let key = row.wrapping_mul(3).wrapping_add(3);
        let (nation, region) = (row % 10, row / 5);
        writeln!(
            text,
            "{key}|S{row}|A|CITY{row}|NATION{nation}|REGION{region}|P|"
        )?;
    }
    Ok(text)
}

fn parts(alloc: Global) -> Result<String, AllocError> {
    let mut text = String::new(alloc);
    for row in 0..60 {
        let (key, category, size) = (row + 1, row % 25, row % 50);
        writeln!(
            text,
            "{key}|N|MFGR{size}|CATEGORY{category}|BRAND{row}|C|T|{size}|B|"
        )?;
    }
    Ok(text)
}

// Lines of orders whose columns of numbers have words of 8, 16, 32 and 64 bits.
fn lines(alloc: Global) -> Result<String, AllocError> {
    let mut text = String::new(alloc);
    for line in 0..LINES {
        let (order, number) = (line / 7 + 1, line % 7 + 1);
        let (customer, part, supplier) = (
            line * 7 % 40 + 1,
            line * 13 % 60 + 1,
            line * 11 % 25 * 3 + 3,
        );
        let (ordered, committed) = (19_920_101 + line * 5 % 84, 19_920_101 + line * 37 % 84);
        let (quantity, price) = (line * 17 % 200, line * 101 % 60_000);
        let (total, cost) = (line * 1_431_655 + 1, line * 300_000_000_000_000);
        let (discount, revenue, tax) = (line % 11, line * 31 % 1_000, line % 9);
        writeln!(
            text,
            "{order}|{number}|{customer}|{part}|{supplier}|{ordered}|P{tax}|S|{quantity}|{price}|{total}|{discount}|{revenue}|{cost}|{tax}|{committed}|MODE{discount}|"
        )?;
    }
    Ok(text)
}

fn tables(alloc: Global) -> Result<Box<Catalogue>, Fail> {
    let (date, customer) = (dates(alloc)?, customers(alloc)?);
    let (supplier, part) = (suppliers(alloc)?, parts(alloc)?);
    let lineorder = lines(alloc)?;
    loaded(
        alloc,
        &Texts {
            date: date.as_bytes(),
            customer: customer.as_bytes(),
            supplier: supplier.as_bytes(),
            part: part.as_bytes(),
            lineorder: &[lineorder.as_bytes()],
        },
    )
}

// ---- runs and trials

// The report and the counts of an outcome.
fn outcome_text(alloc: Global, outcome: &Outcome) -> Result<String, Fail> {
    let report = report_text(alloc, outcome)?;
    let report = str::from_utf8(report.as_slice())?;
    let (visits, lookups, updates) = (outcome.visits, outcome.lookups, outcome.updates);
    let text = format!(in alloc; "{report}{visits} {lookups} {updates}")?;
    Ok(text)
}

fn tried(alloc: Global, catalogue: &Catalogue, program: &Program) -> Result<String, Fail> {
    match trial(alloc, catalogue, program, MOST_VISITS) {
        Ok(outcome) => outcome_text(alloc, &outcome),
        Err(TrialFault::OutOfMemory) => Err(Fail::from(AllocError)),
        Err(fault) => Err(Fail::from(format_args!("{fault}"))),
    }
}

fn verified<'c>(alloc: Global, catalogue: &'c Catalogue, text: &str) -> Result<Verified<'c>, Fail> {
    match verify(alloc, catalogue, parsed(alloc, text)?, Limits::widest()) {
        Ok(verified) => Ok(verified),
        Err(refused) => Err(failed(refused, text)),
    }
}

fn failed(refused: Refused, text: &str) -> Fail {
    match refused.refusal {
        Refusal::OutOfMemory => Fail::from(AllocError),
        refusal => Fail::from(format_args!("{refusal} in {text}")),
    }
}

// A run has the outcome of the trial.
fn check_run(alloc: Global, catalogue: &Catalogue, text: &str) -> Result<(), Fail> {
    let verified = verified(alloc, catalogue, text)?;
    let ran = outcome_text(alloc, &run(alloc, &verified)?)?;
    let expected = tried(alloc, catalogue, verified.program())?;
    check_text(ran.as_bytes(), expected.as_str(), text)
}

// ---- programs

// Instructions, and the way in which their scans run.
const BODIES: &[&str] = &[
    // Masks of columns of each width, and a range that no line lies in.
    concat!(
        "scan lineorder r0\nr1 = load lo_tax r0\nr2 = const 6\nr3 = lt r1 r2\nkeep r3\n",
        "r4 = load lo_extendedprice r0\nr5 = const 300\nr6 = le r5 r4\nkeep r6\n",
        "r7 = load lo_ordtotalprice r0\nr8 = const 4000000000\nr9 = within r7 r5 r8\nkeep r9\n",
        "r10 = load lo_supplycost r0\nr11 = eq r10 r5\nr12 = not r11\nkeep r12\n",
        "r13 = load lo_discount r0\nput 1 r1 r13 : r4 r7 r10\nend\n",
    ),
    // Flags of the rows of dimensions: one under `not`, one of two, and a run of rows.
    concat!(
        "scan lineorder r0\nr1 = load lo_custkey r0\nr2 = find customer r1\nr3 = load c_region r2\n",
        "r4 = low c_region 'REGION2'\nr5 = high c_region 'REGION2'\nr6 = within r3 r4 r5\n",
        "r7 = not r6\nkeep r7\n",
        "r8 = load lo_suppkey r0\nr9 = find supplier r8\nr10 = load s_region r9\n",
        "r11 = low s_region 'REGION1'\nr12 = high s_region 'REGION3'\nr13 = within r10 r11 r12\n",
        "keep r13\nr14 = load lo_tax r0\nr15 = load lo_quantity r0\nput 1 r14 r14 : r15 r1 r8\nend\n",
    ),
    // Both date keys, each with a test, and one test of both.
    concat!(
        "scan lineorder r0\nr1 = load lo_orderdate r0\nr2 = find date r1\nr3 = load d_year r2\n",
        "r4 = load lo_commitdate r0\nr5 = find date r4\nr6 = load d_year r5\n",
        "r7 = const 1995\nr8 = lt r3 r7\nkeep r8\nr9 = le r7 r6\nkeep r9\n",
        "r10 = load d_monthnuminyear r2\nr11 = load d_monthnuminyear r5\nr12 = lt r10 r11\n",
        "keep r12\nput 1 r3 r6 : r10 r11 r10\nend\n",
    ),
    // A condition of a dimension or of lineorder, with look-ups of another one after it.
    concat!(
        "scan lineorder r0\nr1 = load lo_suppkey r0\nr2 = find supplier r1\nr3 = load s_nation r2\n",
        "r4 = low s_nation 'NATION4'\nr5 = high s_nation 'NATION6'\nr6 = within r3 r4 r5\n",
        "r7 = load lo_tax r0\nr8 = const 6\nr9 = lt r7 r8\nr10 = or r6 r9\nkeep r10\n",
        "r11 = load lo_partkey r0\nr12 = find part r11\nr13 = load p_size r12\n",
        "put 1 r7 r13 : r13 r11 r7\nend\n",
    ),
    // Operations before a keep, and every operator.
    concat!(
        "scan lineorder r0\nr1 = load lo_quantity r0\nr2 = load lo_tax r0\nr3 = mul r1 r2\n",
        "r4 = lt r3 r1\nr5 = le r1 r3\nr6 = eq r1 r3\nr7 = and r4 r5\nr8 = or r6 r7\nr9 = not r8\n",
        "keep r9\nr10 = within r3 r1 r2\nr11 = const 7\nr12 = sub r3 r11\nr13 = add r12 r1\n",
        "put 1 r2 r11 : r12 r13 r3\nend\n",
    ),
    // The operations leave no line.
    concat!(
        "scan lineorder r0\nr1 = load lo_tax r0\nr2 = mul r1 r1\nr3 = lt r2 r1\nkeep r3\n",
        "r4 = load lo_suppkey r0\nr5 = find supplier r4\nr6 = load s_suppkey r5\n",
        "put 1 r1 r6 : r6 r6 r6\nend\n",
    ),
    // Registers from before the scan are a key, an operand and a number.
    concat!(
        "r20 = const 5\nr21 = add r20 r20\nscan lineorder r0\nr1 = load lo_tax r0\n",
        "r2 = mul r1 r21\nput 1 r20 r1 : r2 r21 r20\nend\n",
    ),
    // Keys with many values, and one with one value.
    concat!(
        "scan lineorder r0\nr1 = load lo_extendedprice r0\nr2 = const -1\nr3 = load lo_orderkey r0\n",
        "put 1 r1 r2 : r3 r1 r2\nend\n",
    ),
    // Row by row: two puts, a put that isn't last, a read, and a scan inside.
    concat!(
        "scan lineorder r0\nr1 = load lo_tax r0\nr2 = load lo_discount r0\nput 1 r1 r2 : r1 r1 r1\n",
        "r3 = add r1 r2\nput 1 r2 r1 : r3 r3 r3\nr4 = load lo_quantity r0\nend\n",
    ),
    concat!(
        "scan lineorder r0\nr1 = load lo_tax r0\nput 0 : r1\nend\n",
        "scan lineorder r2\nr3 = load lo_discount r2\nr4 = add r3 r3\nr5 = read 0 1 0\n",
        "put 1 r3 r4 : r5 r3 r4\nend\n",
    ),
    concat!(
        "scan supplier r0\nr1 = load s_suppkey r0\nr2 = const 30\nr3 = lt r1 r2\nkeep r3\n",
        "scan lineorder r4\nr5 = load lo_suppkey r4\nr6 = eq r5 r1\nkeep r6\n",
        "r7 = load lo_tax r4\nput 1 r1 r7 : r5 r7 r7\nend\nend\n",
    ),
    // No put, and nothing.
    "scan lineorder r0\nr1 = load lo_tax r0\nr2 = add r1 r1\nend\nscan lineorder r3\nend\n",
];

// A program of these instructions, whose reported group has two keys.
fn program(alloc: Global, registers: u32, shape: &str, lines: &str) -> Result<String, AllocError> {
    format!(in alloc;
        "star program 1\nregisters {registers}\ngroup 0 plain : sum count\ngroup 1 {shape} number number : sum count min max\n{lines}report 1\nshow a key 0\nshow b key 1\nshow s aggregate 0\nshow n aggregate 1\nshow l aggregate 2\nshow m aggregate 3\n"
    )
}

// 65 registers are too many for vectors.
const SHAPES: [(u32, &str); 4] = [(24, "plain"), (24, "rollup"), (24, "cube"), (65, "plain")];

#[test]
fn runs_are_trials(rt: HostRuntime) -> Result<(), Fail> {
    let alloc = rt.alloc();
    let catalogue = tables(alloc)?;
    for lines in BODIES {
        for (registers, shape) in SHAPES {
            let text = program(alloc, registers, shape, lines)?;
            check_run(alloc, &catalogue, text.as_str())?;
        }
    }
    Ok(())
}

const NO_TEXTS: Texts<'static> = Texts {
    date: b"",
    customer: b"",
    supplier: b"",
    part: b"",
    lineorder: &[],
};

// One put into a group of six keys.
const SIX_KEYS: &str = concat!(
    " number number number number number number : sum\nr0 = const 1\nr1 = const 7\n",
    "put 0 r0 r0 r0 r0 r0 r0 : r1\nreport 0\nshow s aggregate 0\n",
);

// A row for each set of keys, for each prefix, or for all of them.
#[test]
fn one_put_of_six_keys(rt: HostRuntime) -> Result<(), Fail> {
    let alloc = rt.alloc();
    let catalogue = loaded(alloc, &NO_TEXTS)?;
    for (shape, rows) in [("cube", 64), ("rollup", 7), ("plain", 1)] {
        let text = format!(in alloc; "star program 1\nregisters 2\ngroup 0 {shape}{SIX_KEYS}")?;
        check_run(alloc, &catalogue, text.as_str())?;
        let tried = tried(alloc, &catalogue, &parsed(alloc, text.as_str())?)?;
        let found = tried.as_str().lines().filter(|line| *line == "7").count();
        check_same(&rt, found, rows, &shape);
    }
    Ok(())
}
