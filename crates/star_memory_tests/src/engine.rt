// The calls of the engine over texts and over an engine that is loaded once. When they are refused
// memory a report has gained nothing, and the notes some of their first bytes.

use crate::asked::check_call;
use crate::programs::{
    ABOVE_AVERAGE, DISCOUNTED_REVENUE, DISCOUNTS, NOT_A_KEY, OF_REVENUES, REVENUES,
};
use star_common::Out;
use star_engine::{
    Engine, EngineFault, Question as Asked, RunOutput, answer_program, answer_query, bench, check,
    explain_query, quote_text, sample, trial_program,
};
use star_schema::{Limits, MOST_VISITS};
use std::alloc::{AllocError, Global};
use std::test::Fail;

// The call of the engine.
#[derive(Clone, Copy)]
enum Question<'a> {
    Check,
    Bench,
    Query(&'a str),
    Program(&'a str),
    Quote(&'a str),
    Trial(&'a str, u64),
    Explain(&'a str),
}

// The fault of a call over texts.
fn ask_texts(
    alloc: Global,
    question: Question<'_>,
    out: &mut Out<&mut Vec<u8>>,
    notes: &mut Out<&mut Vec<u8>>,
) -> Option<EngineFault> {
    let (texts, limits) = (sample(), Limits::widest());
    match question {
        Question::Check => check(alloc, &texts, limits, out).err(),
        Question::Bench => bench(alloc, &texts, limits, out).err(),
        Question::Query(text) => {
            answer_query(alloc, &texts, text.as_bytes(), limits, out, notes).err()
        }
        Question::Program(text) => {
            answer_program(alloc, &texts, text.as_bytes(), limits, out, notes).err()
        }
        Question::Quote(text) => quote_text(alloc, &texts, text.as_bytes(), limits, out).err(),
        Question::Trial(text, visits) => {
            let visits = visits.min(MOST_VISITS);
            trial_program(alloc, &texts, text.as_bytes(), visits, limits, out).err()
        }
        Question::Explain(text) => explain_query(alloc, text.as_bytes(), out).err(),
    }
}

// The answer of a loaded engine to a question, if that was read.
fn answer(
    engine: &Engine,
    alloc: Global,
    asked: Result<Asked, EngineFault>,
    out: &mut Out<&mut Vec<u8>>,
    notes: &mut Out<&mut Vec<u8>>,
) -> Result<(), EngineFault> {
    engine.answer(alloc, asked?, out, notes)
}

fn quote(
    engine: &Engine,
    alloc: Global,
    text: &str,
    out: &mut Out<&mut Vec<u8>>,
) -> Result<(), EngineFault> {
    engine.quote(alloc, &Asked::of_file(alloc, text.as_bytes())?, out)
}

fn trial(
    engine: &Engine,
    alloc: Global,
    text: &str,
    visits: u64,
    out: &mut Out<&mut Vec<u8>>,
) -> Result<(), EngineFault> {
    let asked = Asked::program(alloc, text.as_bytes())?;
    engine.trial(alloc, &asked, visits.min(MOST_VISITS), out)
}

// The fault of a call over a loaded engine, which explains no queries.
fn ask_engine(
    engine: &Engine,
    alloc: Global,
    question: Question<'_>,
    out: &mut Out<&mut Vec<u8>>,
    notes: &mut Out<&mut Vec<u8>>,
) -> Option<EngineFault> {
    match question {
        Question::Check => engine.check(alloc, out).err(),
        Question::Bench => engine.bench(alloc, out).err(),
        Question::Query(text) => {
            answer(
                engine,
                alloc,
                Asked::query(alloc, text.as_bytes()),
                out,
                notes,
            )
            .err()
        }
        Question::Program(text) => {
            answer(
                engine,
                alloc,
                Asked::program(alloc, text.as_bytes()),
                out,
                notes,
            )
            .err()
        }
        Question::Quote(text) => quote(engine, alloc, text, out).err(),
        Question::Trial(text, visits) => trial(engine, alloc, text, visits, out).err(),
        Question::Explain(text) => explain_query(alloc, text.as_bytes(), out).err(),
    }
}

// The notes of a call, its report, and the line of its fault. If it is refused memory, it has written
// no report and at most the beginning of `expected`; else its output is the answer.
fn written(
    alloc: Global,
    report: &[u8],
    notes: &[u8],
    fault: Option<EngineFault>,
    expected: &str,
) -> Result<String, AllocError> {
    let (report, notes) = (str::from_utf8(report), str::from_utf8(notes));
    let (report, notes) = (
        report.unwrap_or("not a text"),
        notes.unwrap_or("not a text"),
    );
    match fault {
        None => format!(in alloc; "{notes}{report}"),
        Some(EngineFault::OutOfMemory) if report.is_empty() && expected.starts_with(notes) => {
            Err(AllocError)
        }
        Some(fault) => format!(in alloc; "{notes}{report}{fault}"),
    }
}

// More bytes than any report or note of these tests has, so that no writer allocates during a call.
const AMPLE: usize = 4096;

// What a call writes, over texts or over an engine.
fn answered(
    alloc: Global,
    engine: Option<&Engine>,
    question: Question<'_>,
    expected: &str,
) -> Result<String, AllocError> {
    let mut report = Vec::with_capacity(alloc, AMPLE)?;
    let mut notes = Vec::with_capacity(alloc, AMPLE)?;
    let (out, noted) = (&mut Out::new(&mut report), &mut Out::new(&mut notes));
    let fault = match engine {
        None => ask_texts(alloc, question, out, noted),
        Some(engine) => ask_engine(engine, alloc, question, out, noted),
    };
    written(alloc, report.as_slice(), notes.as_slice(), fault, expected)
}

// The call of the engine, and its output: its notes, its report and the line of its fault.
type Case = (Question<'static>, &'static str);

fn check_cases(
    rt: &impl Print,
    alloc: Global,
    engine: Option<&Engine>,
    cases: &[Case],
) -> Result<(), Fail> {
    for (question, expected) in cases {
        check_call(
            rt,
            expected,
            || answered(alloc, engine, *question, expected),
        )?;
    }
    Ok(())
}

const LISTING: &str = concat!(
    "table date rows 3\nd_datekey 19930210..19971215\nd_year 1993..1997\n",
    "d_yearmonthnum 199302..199712\nd_daynuminweek 2..4\nd_daynuminmonth 5..15\n",
    "d_daynuminyear 5..349\nd_monthnuminyear 1..12\nd_weeknuminyear 1..50\n",
    "d_lastdayinweekfl 0..0\nd_lastdayinmonthfl 0..0\nd_holidayfl 0..0\nd_weekdayfl 1..1\n",
    "table customer rows 3\nc_custkey 1..3\ntable supplier rows 2\ns_suppkey 1..2\n",
    "table part rows 3\np_partkey 1..3\np_size 1..21\n",
    "table lineorder rows 5\nlo_orderkey 1..3\nlo_linenumber 1..2\nlo_custkey 1..3\n",
    "lo_partkey 1..3\nlo_suppkey 1..2\nlo_orderdate 19930210..19971215\nlo_quantity 1..50\n",
    "lo_extendedprice 500..3000\nlo_ordtotalprice 500..3700\nlo_discount 0..10\n",
    "lo_revenue 495..3000\nlo_supplycost 100..1200\nlo_tax 0..8\n",
    "lo_commitdate 19940105..19971215\n",
);

const BENCH: &str = concat!(
    "Q1.1 quote 5\nrevenue\n2000\nQ1.2 quote 5\nrevenue\nNULL\nQ1.3 quote 5\nrevenue\nNULL\n",
    "Q2.1 quote 5\nsum1|d_year|p_brand1\n980|1993|MFGR#121\n495|1994|MFGR#121\n",
    "Q2.2 quote 5\nsum1|d_year|p_brand1\n",
    "Q2.3 quote 5\nsum1|d_year|p_brand1\n1940|1993|MFGR#2221\n630|1997|MFGR#2221\n",
    "Q3.1 quote 5\nc_nation|s_nation|d_year|revenue\n",
    "Q3.2 quote 5\nc_city|s_city|d_year|revenue\nUNITED ST0|UNITED ST4|1997|3000\n",
    "Q3.3 quote 5\nc_city|s_city|d_year|revenue\nUNITED KI1|UNITED KI5|1993|1940\n",
    "UNITED KI1|UNITED KI5|1997|630\n",
    "Q3.4 quote 5\nc_city|s_city|d_year|revenue\nUNITED KI1|UNITED KI5|1997|630\n",
    "Q4.1 quote 5\nd_year|c_nation|profit\n1997|UNITED STATES|2000\n",
    "Q4.2 quote 5\nd_year|s_nation|p_category|profit\n1997|UNITED STATES|MFGR#14|2000\n",
    "Q4.3 quote 5\nd_year|s_city|p_brand1|profit\n1997|UNITED ST4|MFGR#1440|2000\n",
);

const TABLES: &[Case] = &[(Question::Check, LISTING), (Question::Bench, BENCH)];

const QUERIES: &[Case] = &[
    (
        Question::Query(DISCOUNTS),
        "quote 5\nvisits 5 lookups 5 updates 1\nrevenue\n2000\n",
    ),
    (
        Question::Query(concat!(
            "select sum(lo_extendedprice*lo_extendedprice*lo_extendedprice*lo_extendedprice",
            "*lo_extendedprice*lo_extendedprice) as s from lineorder",
        )),
        concat!(
            "quote 5\nrefused 69 Overflow at 7: 15625000000000000..729000000000000000000",
            " from lo_extendedprice 500..3000",
        ),
    ),
    (
        Question::Query("select count(*) from lineorder, date"),
        "query 34 JoinMissing at 32",
    ),
];

const PROGRAMS: &[Case] = &[
    (
        Question::Program(ABOVE_AVERAGE),
        "quote 10\nvisits 10 lookups 0 updates 7\nn\n2\n",
    ),
    (
        Question::Program(NOT_A_KEY),
        "quote 5\nrefused 65 NotAForeignKey at 3",
    ),
    (Question::Program("star program 2"), "program 50 BadHeader"),
];

const QUOTES: &[Case] = &[
    (Question::Quote(REVENUES), "quote 5\n"),
    (Question::Quote(ABOVE_AVERAGE), "quote 10\n"),
    (
        Question::Quote("select count(*) from"),
        "query 24 Unexpected at 20",
    ),
    (Question::Explain(DISCOUNTS), DISCOUNTED_REVENUE),
    (
        Question::Explain("select d_year, count(*) from lineorder"),
        "query 33 TableNotNamed at 7",
    ),
];

const TRIALS: &[Case] = &[
    (Question::Trial(ABOVE_AVERAGE, 10), "n\n2\n"),
    (Question::Trial(ABOVE_AVERAGE, 9), "limit"),
    (Question::Trial(NOT_A_KEY, 5), "trap AbsentKey at 3"),
];

#[test]
fn tables_of_texts(rt: HostRuntime) -> Result<(), Fail> {
    check_cases(&rt, rt.alloc(), None, TABLES)
}

#[test]
fn queries_of_texts(rt: HostRuntime) -> Result<(), Fail> {
    check_cases(&rt, rt.alloc(), None, QUERIES)
}

// A cube in order, which takes more requests than the others.
#[test]
fn cube_of_texts(rt: HostRuntime) -> Result<(), Fail> {
    let alloc = rt.alloc();
    let expected = format!(in alloc; "quote 5\nvisits 5 lookups 10 updates 5\n{OF_REVENUES}")?;
    let question = Question::Query(REVENUES);
    check_call(
        &rt,
        expected.as_str(),
        || answered(alloc, None, question, expected.as_str()),
    )
}

#[test]
fn programs_of_texts(rt: HostRuntime) -> Result<(), Fail> {
    check_cases(&rt, rt.alloc(), None, PROGRAMS)
}

#[test]
fn quotes_of_texts(rt: HostRuntime) -> Result<(), Fail> {
    check_cases(&rt, rt.alloc(), None, QUOTES)
}

#[test]
fn trials_of_texts(rt: HostRuntime) -> Result<(), Fail> {
    check_cases(&rt, rt.alloc(), None, TRIALS)
}

fn report(engine: &Engine, alloc: Global, file: &str) -> Result<RunOutput, EngineFault> {
    engine.report(alloc, Asked::of_file(alloc, file.as_bytes())?)
}

fn forecast(engine: &Engine, alloc: Global, file: &str) -> Result<String, EngineFault> {
    engine.forecast(alloc, Asked::of_file(alloc, file.as_bytes())?)
}

// The printed report of a run.
fn run_text(alloc: Global, answer: Result<RunOutput, EngineFault>) -> Result<String, AllocError> {
    match answer {
        Ok(printed) => {
            let report = str::from_utf8(printed.report.as_slice()).unwrap_or("not a text");
            format!(in alloc; "{}{}{report}", printed.quoted, printed.done)
        }
        Err(EngineFault::OutOfMemory) => Err(AllocError),
        Err(fault) => format!(in alloc; "{fault}"),
    }
}

// A line, or that of a fault.
fn line_of(alloc: Global, answer: Result<String, EngineFault>) -> Result<String, AllocError> {
    match answer {
        Ok(line) => Ok(line),
        Err(EngineFault::OutOfMemory) => Err(AllocError),
        Err(fault) => format!(in alloc; "{fault}"),
    }
}

// Whether a file is a query or a program.
fn kind_of(alloc: Global, file: &str) -> Result<String, AllocError> {
    match Asked::of_file(alloc, file.as_bytes()) {
        Ok(_) => String::from_str(alloc, "a query or a program"),
        Err(EngineFault::OutOfMemory) => Err(AllocError),
        Err(fault) => format!(in alloc; "{fault}"),
    }
}

// A file, the printed report of its run, and its forecast.
const FILES: &[(&str, &str, &str)] = &[
    (
        DISCOUNTS,
        "quote 5\nvisits 5 lookups 5 updates 1\nrevenue\n2000\n",
        "quote 5 rows 1\n",
    ),
    (
        ABOVE_AVERAGE,
        "quote 10\nvisits 10 lookups 0 updates 7\nn\n2\n",
        "quote 10 rows 1\n",
    ),
];

fn check_files(rt: &impl Print, alloc: Global, engine: &Engine) -> Result<(), Fail> {
    for (file, ran, known) in FILES {
        let file = *file;
        check_call(rt, ran, || run_text(alloc, report(engine, alloc, file)))?;
        check_call(rt, known, || line_of(alloc, forecast(engine, alloc, file)))?;
        check_call(rt, "a query or a program", || kind_of(alloc, file))?;
    }
    check_call(
        rt,
        "program 50 BadHeader",
        || kind_of(alloc, "star program 2"),
    )
}

// The listing of an engine that is loaded, if it is.
fn load(alloc: Global) -> Result<String, AllocError> {
    match Engine::load(alloc, &sample(), Limits::widest()) {
        Ok(engine) => answered(alloc, Some(&engine), Question::Check, LISTING),
        Err(EngineFault::OutOfMemory) => Err(AllocError),
        Err(fault) => format!(in alloc; "{fault}"),
    }
}

#[test]
fn engine_load(rt: HostRuntime) -> Result<(), Fail> {
    check_call(&rt, LISTING, || load(rt.alloc()))
}

// The loaded sample, in a box, since it is dear to let go in a proof.
fn loaded(alloc: Global) -> Result<Box<Engine>, Fail> {
    match Engine::load(alloc, &sample(), Limits::widest()) {
        Ok(engine) => Ok(Box::new(alloc, engine)?),
        Err(EngineFault::OutOfMemory) => Err(Fail::from(AllocError)),
        Err(fault) => Err(Fail::from(format_args!("{fault}"))),
    }
}

// One engine is asked for all that it answers.
#[test]
fn calls_of_an_engine(rt: HostRuntime) -> Result<(), Fail> {
    let alloc = rt.alloc();
    let engine = loaded(alloc)?;
    for cases in [TABLES, QUERIES, PROGRAMS, QUOTES, TRIALS] {
        check_cases(&rt, alloc, Some(&*engine), cases)?;
    }
    check_files(&rt, alloc, &engine)
}
