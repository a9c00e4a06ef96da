// Writers that fail at each byte of a report or of its notes.

use crate::checks::{ABOVE_AVERAGE, DISCOUNTED_REVENUE, check_same, check_text};
use crate::commands::{AMPLE, run};
use crate::files::Folder;
use crate::streams::Short;
use star_common::Out;
use star_engine::{
    BenchmarkQuery, EngineFault, FaultLine, LoadFault, PlanFault, QueryFault, Refusal, TextFault,
    TrialFault, answer_query, sample,
};
use star_schema::{Limits, TableId};
use std::alloc::{AllocError, Global};
use std::process::Abort;
use std::rt::Files;
use std::test::Fail;
use std::{fs, io};

const REPORT: &str = "sum1|d_year|p_brand1\n980|1993|MFGR#121\n495|1994|MFGR#121\n";

const NOTES: &str = "quote 5\nvisits 5 lookups 9 updates 2\n";

// How many bytes are sent by a query whose report and notes have room for so many bytes, and both.
fn sent(alloc: Global, room: usize, noted: usize) -> Result<(Option<u64>, Short, Short), Fail> {
    let mut out = Short::with_room(alloc, room, 1)?;
    let mut notes = Short::with_room(alloc, noted, 1)?;
    let answer = answer_query(
        alloc,
        &sample(),
        BenchmarkQuery::Q21.text().as_bytes(),
        Limits::widest(),
        &mut Out::new(&mut out),
        &mut Out::new(&mut notes),
    );
    match answer {
        Ok(()) => Ok((None, out, notes)),
        Err(EngineFault::Write { sent }) => Ok((Some(sent), out, notes)),
        Err(EngineFault::OutOfMemory) => Err(Fail::from(AllocError)),
        Err(fault) => Err(Fail::from(format_args!("{fault}"))),
    }
}

fn first(text: &str, count: usize) -> &str {
    text.get(..count.min(text.len())).unwrap_or("")
}

#[test]
fn a_report_fails_at_each_byte(rt: HostRuntime) -> Result<(), Fail> {
    for room in 0..58 {
        let (fault, out, notes) = sent(rt.alloc(), room, 100)?;
        let (expected, noted) = if room < 57 {
            (Some(room as u64), 8)
        } else {
            (None, NOTES.len())
        };
        check_same(&rt, fault, expected, &room);
        check_text(out.taken.as_slice(), first(REPORT, room), "a report")?;
        check_text(notes.taken.as_slice(), first(NOTES, noted), "notes")?;
    }
    Ok(())
}

#[test]
fn notes_fail_at_each_byte(rt: HostRuntime) -> Result<(), Fail> {
    for noted in 0..NOTES.len() + 1 {
        let (fault, out, notes) = sent(rt.alloc(), 100, noted)?;
        let (expected, room) = match noted {
            0..8 => (Some(0), 0),
            8..37 => (Some(57), 57),
            _ => (None, 57),
        };
        check_same(&rt, fault, expected, &noted);
        check_text(out.taken.as_slice(), first(REPORT, room), "a report")?;
        check_text(notes.taken.as_slice(), first(NOTES, noted), "notes")?;
    }
    Ok(())
}

// A command over the sample, the note before its report, the report, and the note after it.
type Case = (
    &'static [&'static str],
    &'static str,
    &'static str,
    &'static str,
);

const CASES: &[Case] = &[
    (
        &["query", "f", "q.sql"],
        "quote 5\n",
        "revenue\n2000\n",
        "visits 5 lookups 5 updates 1\n",
    ),
    (
        &["exec", "f", "p.star"],
        "quote 10\n",
        "n\n2\n",
        "visits 10 lookups 0 updates 7\n",
    ),
    (&["trial", "f", "p.star", "10"], "", "n\n2\n", ""),
    (&["quote", "f", "q.sql"], "", "quote 5\n", ""),
    (&["explain", "q.sql"], "", DISCOUNTED_REVENUE, ""),
];

// A command whose report fails at each byte: its last note is not written.
fn check_reports(rt: &(impl Abort + AllocGlobal), case: Case) -> Result<(), Fail> {
    let (words, quote, report, _) = case;
    for room in 0..report.len() {
        let notes = format!(in rt.alloc(); "{quote}write {room}\n")?;
        let ran = run(&Folder::sound(rt.alloc())?, words, (room, 100))?;
        ran.check(rt, 6, first(report, room), notes.as_str(), quote)?;
    }
    Ok(())
}

// A command whose notes fail at each byte: its report is written after the first note.
fn check_notes(rt: &(impl Abort + AllocGlobal), case: Case) -> Result<(), Fail> {
    let (words, quote, report, done) = case;
    let notes = format!(in rt.alloc(); "{quote}{done}")?;
    for room in 0..notes.len() {
        let written = if room < quote.len() { "" } else { report };
        let ran = run(&Folder::sound(rt.alloc())?, words, (AMPLE.0, room))?;
        ran.check(rt, 6, written, first(notes.as_str(), room), quote)?;
    }
    let ran = run(&Folder::sound(rt.alloc())?, words, AMPLE)?;
    ran.check(rt, 0, report, notes.as_str(), quote)
}

#[test]
fn streams_of_commands_fail_at_each_byte(rt: HostRuntime) -> Result<(), Fail> {
    for case in CASES {
        check_reports(&rt, *case)?;
        check_notes(&rt, *case)?;
    }
    Ok(())
}

// Writes the sample, a query and a program into the test's folder.
fn write_files<R: Files + AllocGlobal>(rt: &R) -> io::Result<()> {
    let texts = sample();
    let orders = match texts.lineorder {
        [orders] => *orders,
        _ => b"".as_slice(),
    };
    fs::create_dir_all(rt, "tables")?;
    fs::create_dir_all(rt, "kept")?;
    for (path, bytes) in [
        ("tables/date.tbl", texts.date),
        ("tables/customer.tbl", texts.customer),
        ("tables/supplier.tbl", texts.supplier),
        ("tables/part.tbl", texts.part),
        ("tables/lineorder.tbl", orders),
        ("count.sql", b"select count(*) as n from lineorder"),
        ("above", ABOVE_AVERAGE.as_bytes()),
    ] {
        fs::write(rt, path, bytes)?;
    }
    Ok(())
}

const LINES: &str = concat!(
    "count quote 5 visits 5 lookups 0 updates 5\n",
    "above quote 10 visits 10 lookups 0 updates 7\n",
);

// How many bytes standard output takes of the lines of two reports, the status and standard error.
const SHORT: [(usize, u8, &str); 4] = [
    (3, 6, "write 3\n"),
    (43, 6, "write 0\n"),
    (50, 6, "write 7\n"),
    (88, 0, ""),
];

// A report is kept before its line is printed.
#[test]
fn reports_end_at_a_line_that_fails(rt: HostRuntime) -> Result<(), Fail> {
    write_files(&rt)?;
    let words = ["reports", "tables", "kept", "count.sql", "above"];
    for (room, status, line) in SHORT {
        let ran = run(&rt, words.as_slice(), (room, 100))?;
        ran.check(&rt, status, first(LINES, room), line, "reports")?;
        let kept = fs::read(&rt, "kept/count.report")?;
        check_text(kept.as_slice(), "n\n5\n", "a report")?;
    }
    Ok(())
}

// A fault of each kind, and its line.
fn check_line(alloc: Global, fault: &EngineFault, line: &str) -> Result<(), Fail> {
    let shown = format!(in alloc; "{fault}")?;
    check_text(shown.as_bytes(), line, "an error")?;
    let printed = format!(in alloc; "{}", FaultLine(fault))?;
    check_text(printed.as_bytes(), line, "its line")
}

const MISSING: PlanFault = PlanFault::JoinMissing { at: 32 };

const BAD_NUMBER: LoadFault = LoadFault::BadNumber {
    table: TableId::Part,
    at_row: 3,
    field: 1,
};

#[test]
fn faults_show_their_lines(rt: HostRuntime) -> Result<(), Fail> {
    let unexpected = QueryFault::Unexpected { at: 20 };
    let costly = Refusal::TooCostly { visits: 10 };
    for (fault, line) in [
        (EngineFault::OutOfMemory, "memory"),
        (EngineFault::Query(unexpected), "query 24 Unexpected at 20"),
        (EngineFault::Plan(MISSING), "query 34 JoinMissing at 32"),
        (
            EngineFault::Program(TextFault::OpenScan),
            "program 52 OpenScan",
        ),
        (
            EngineFault::Load(BAD_NUMBER),
            "load 7 BadNumber table part record 3 field 1",
        ),
        (
            EngineFault::Refused(costly),
            "refused 71 TooCostly visits 10",
        ),
        (EngineFault::Trial(TrialFault::Limit), "limit"),
        (EngineFault::Write { sent: 10 }, "write 10"),
    ] {
        check_line(rt.alloc(), &fault, line)?;
    }
    Ok(())
}
