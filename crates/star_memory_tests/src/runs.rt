// Programs that are verified and run, refused, or tried.

use crate::asked::{check_call, text_of};
use crate::programs::{
    ABOVE_AVERAGE, DISCOUNTED_REVENUE, NOT_A_KEY, OF_REVENUES, POWERS, PROGRAM_OF_REVENUES,
};
use star_catalogue::{Catalogue, LoadFault, Texts, sample};
use star_machine::{TrialFault, run, trial};
use star_program::{Outcome, Program, TextFault};
use star_report::report_text;
use star_schema::{Limits, MOST_ROWS, MOST_VISITS};
use star_verify::{Refusal, Refused, Verified, verify};
use std::alloc::{AllocError, Global};
use std::fmt::Write;
use std::test::Fail;

// The loaded tables. They are boxed, since a catalogue is dear to let go in a proof.
fn loaded(alloc: Global, texts: &Texts<'_>) -> Result<Box<Catalogue>, Fail> {
    match Catalogue::load(alloc, texts, Limits::widest()) {
        Ok(catalogue) => Ok(Box::new(alloc, catalogue)?),
        Err(LoadFault::OutOfMemory) => Err(Fail::from(AllocError)),
        Err(fault) => Err(Fail::from(format_args!("{fault}"))),
    }
}

// The program of a text.
fn parsed(alloc: Global, text: &str) -> Result<Program, Fail> {
    match Program::parse(alloc, text.as_bytes()) {
        Ok(program) => Ok(program),
        Err(TextFault::OutOfMemory) => Err(Fail::from(AllocError)),
        Err(fault) => Err(Fail::from(format_args!("{fault}"))),
    }
}

// A line, if a program comes back as it was given.
fn with_program(
    alloc: Global,
    line: String,
    back: &Program,
    given: &str,
) -> Result<String, AllocError> {
    let text = back.to_text()?;
    if text.as_slice() == given.as_bytes() {
        Ok(line)
    } else {
        text_of(alloc, text.as_slice())
    }
}

// The verdict on a program that has this text. When it is refused memory it is handed back too.
fn verdict_of(
    alloc: Global,
    answer: Result<Verified<'_>, Refused>,
    given: &str,
) -> Result<String, AllocError> {
    match answer {
        Ok(verified) => {
            let line = format!(in alloc; "quote {}", verified.quote())?;
            with_program(alloc, line, &verified.into_program(), given)
        }
        Err(refused) => {
            let line = format!(in alloc; "{}", refused.refusal)?;
            let line = with_program(alloc, line, &refused.program, given)?;
            match refused.refusal {
                Refusal::OutOfMemory if line.as_str() == "memory" => Err(AllocError),
                _ => Ok(line),
            }
        }
    }
}

// The verdict on the program of a text under a limit of visits.
fn verdict(
    alloc: Global,
    catalogue: &Catalogue,
    text: &str,
    limits: Limits,
) -> Result<String, AllocError> {
    match Program::parse(alloc, text.as_bytes()) {
        Ok(program) => verdict_of(alloc, verify(alloc, catalogue, program, limits), text),
        Err(TextFault::OutOfMemory) => Err(AllocError),
        Err(fault) => format!(in alloc; "{fault}"),
    }
}

// A program, how many visits it may take, and its verdict.
const VERDICTS: &[(&str, u64, &str)] = &[
    (ABOVE_AVERAGE, 10, "quote 10"),
    (ABOVE_AVERAGE, 9, "refused 71 TooCostly visits 10"),
    (PROGRAM_OF_REVENUES, 5, "quote 5"),
    (NOT_A_KEY, 5, "refused 65 NotAForeignKey at 3"),
    (
        POWERS,
        5,
        concat!(
            "refused 69 Overflow at 5: 3906250000000000000000..6561000000000000000000000000",
            " from lo_extendedprice 500..3000",
        ),
    ),
];

#[test]
fn verify_hands_programs_back(rt: HostRuntime) -> Result<(), Fail> {
    let alloc = rt.alloc();
    let catalogue = loaded(alloc, &sample())?;
    for (text, visits, expected) in VERDICTS {
        let limits = Limits::new(MOST_ROWS, *visits).ok_or("limits")?;
        check_call(&rt, expected, || verdict(alloc, &catalogue, text, limits))?;
    }
    Ok(())
}

// The report and the counts of an outcome.
fn outcome_text(alloc: Global, outcome: &Outcome) -> Result<String, AllocError> {
    let report = report_text(alloc, outcome)?;
    let mut text = text_of(alloc, report.as_slice())?;
    let (visits, lookups, updates) = (outcome.visits, outcome.lookups, outcome.updates);
    write!(text, "visits {visits} lookups {lookups} updates {updates}")?;
    Ok(text)
}

// What a trial of a program answers.
fn tried(
    alloc: Global,
    catalogue: &Catalogue,
    program: &Program,
    visits: u64,
) -> Result<String, AllocError> {
    match trial(alloc, catalogue, program, visits.min(MOST_VISITS)) {
        Ok(outcome) => outcome_text(alloc, &outcome),
        Err(TrialFault::OutOfMemory) => Err(AllocError),
        Err(fault) => format!(in alloc; "{fault}"),
    }
}

const COUNTED: &str = "n\n2\nvisits 10 lookups 0 updates 7";

const TRIALS: &[(&str, u64, &str)] = &[
    (ABOVE_AVERAGE, 10, COUNTED),
    (ABOVE_AVERAGE, 9, "limit"),
    (
        DISCOUNTED_REVENUE,
        5,
        "revenue\n2000\nvisits 5 lookups 5 updates 1",
    ),
    (POWERS, 5, "trap Overflow at 5"),
];

#[test]
fn trial_of_programs(rt: HostRuntime) -> Result<(), Fail> {
    let alloc = rt.alloc();
    let catalogue = loaded(alloc, &sample())?;
    for (text, visits, expected) in TRIALS {
        let program = parsed(alloc, text)?;
        check_call(
            &rt,
            expected,
            || tried(alloc, &catalogue, &program, *visits),
        )?;
    }
    Ok(())
}

// A run of a verified program has this outcome.
fn check_run(
    rt: &impl Print,
    alloc: Global,
    verified: &Verified<'_>,
    expected: &str,
) -> Result<(), Fail> {
    check_call(rt, expected, || outcome_text(alloc, &run(alloc, verified)?))
}

// Runs of the programs of texts have these outcomes.
fn check_runs(
    rt: &impl Print,
    alloc: Global,
    catalogue: &Catalogue,
    cases: &[(&str, &str)],
) -> Result<(), Fail> {
    for (text, expected) in cases {
        match verify(alloc, catalogue, parsed(alloc, text)?, Limits::widest()) {
            Ok(verified) => check_run(rt, alloc, &verified, expected)?,
            Err(refused) => return Err(failed(refused)),
        }
    }
    Ok(())
}

fn failed(refused: Refused) -> Fail {
    match refused.refusal {
        Refusal::OutOfMemory => Fail::from(AllocError),
        refusal => Fail::from(format_args!("{refusal}")),
    }
}

#[test]
fn run_of_programs(rt: HostRuntime) -> Result<(), Fail> {
    let alloc = rt.alloc();
    let catalogue = loaded(alloc, &sample())?;
    let revenues = format!(in alloc; "{OF_REVENUES}visits 5 lookups 10 updates 5")?;
    let cases = [
        (ABOVE_AVERAGE, COUNTED),
        (PROGRAM_OF_REVENUES, revenues.as_str()),
    ];
    check_runs(&rt, alloc, &catalogue, &cases)
}

// As many lines as a batch has, and some more, of one supplier.
fn lines_of_one_supplier(alloc: Global) -> Result<String, AllocError> {
    let mut lines = String::new(alloc);
    for number in 0..1_040 {
        writeln!(
            lines,
            "1|{number}|1|1|2|19930210|2-HIGH|0|10|1000|3000|2|980|600|2|19940105|MAIL|"
        )?;
    }
    Ok(lines)
}

// Sums by a supplier's region; sums of products by tax; and the lines of a region of customers or of
// suppliers, with look-ups after an operation.
const BATCHES: &[(&str, &str)] = &[
    (
        concat!(
            "star program 1\nregisters 5\ngroup 0 plain s_region : sum count\nscan lineorder r0\n",
            "r1 = load lo_suppkey r0\nr2 = find supplier r1\nr3 = load s_region r2\n",
            "r4 = load lo_revenue r0\nput 0 r3 : r4\nend\n",
            "report 0\nshow r key 0\nshow s aggregate 0\nshow n aggregate 1\n",
        ),
        "r|s|n\nAMERICA|1019200|1040\nvisits 1040 lookups 1040 updates 1040",
    ),
    (
        concat!(
            "star program 1\nregisters 5\ngroup 0 rollup number : sum\nscan lineorder r0\n",
            "r1 = load lo_tax r0\nr2 = load lo_discount r0\nr3 = load lo_extendedprice r0\n",
            "r4 = mul r2 r3\nput 0 r1 : r4\nend\n",
            "report 0\nshow t key 0\nshow s aggregate 0\n",
        ),
        "t|s\n2|2080000\nALL|2080000\nvisits 1040 lookups 0 updates 1040",
    ),
    (
        concat!(
            "star program 1\nregisters 14\ngroup 0 plain : count\nscan lineorder r0\n",
            "r1 = load lo_custkey r0\nr2 = find customer r1\nr3 = load c_region r2\n",
            "r4 = low c_region 'ASIA'\nr5 = high c_region 'ASIA'\nr6 = within r3 r4 r5\n",
            "r7 = load lo_suppkey r0\nr8 = find supplier r7\nr9 = load s_region r8\n",
            "r10 = low s_region 'AMERICA'\nr11 = high s_region 'AMERICA'\nr12 = within r9 r10 r11\n",
            "r13 = or r6 r12\nkeep r13\nput 0 :\nend\nreport 0\nshow n aggregate 0\n",
        ),
        "n\n1040\nvisits 1040 lookups 2080 updates 1040",
    ),
];

#[test]
fn run_in_batches(rt: HostRuntime) -> Result<(), Fail> {
    let alloc = rt.alloc();
    let lines = lines_of_one_supplier(alloc)?;
    let texts = Texts {
        lineorder: &[lines.as_bytes()],
        ..sample()
    };
    let catalogue = loaded(alloc, &texts)?;
    check_runs(&rt, alloc, &catalogue, BATCHES)
}
