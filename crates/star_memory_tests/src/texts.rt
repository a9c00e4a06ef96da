// From the text of a query to that of its program, and from that of a program to it.

use crate::asked::{check_call, text_of};
use crate::programs::{DISCOUNTED_REVENUE, DISCOUNTS, PROGRAM_OF_REVENUES, REVENUES};
use star_compile::compile;
use star_plan::{PlanFault, plan};
use star_program::{Program, TextFault};
use star_query::{Query, QueryFault};
use std::alloc::{AllocError, Global};
use std::test::Fail;

// A program's text.
fn written(alloc: Global, program: &Program) -> Result<String, AllocError> {
    text_of(alloc, program.to_text()?.as_slice())
}

// The text of the program of a query that is parsed, or why it has no plan.
fn compiled(alloc: Global, query: &Query) -> Result<String, AllocError> {
    match plan(alloc, query) {
        Ok(plan) => written(alloc, &compile(alloc, &plan)?),
        Err(PlanFault::OutOfMemory) => Err(AllocError),
        Err(fault) => format!(in alloc; "{fault}"),
    }
}

// The text of the program of a query's text, or its fault.
fn program_of(alloc: Global, text: &str) -> Result<String, AllocError> {
    match Query::parse(alloc, text.as_bytes()) {
        Ok(query) => compiled(alloc, &query),
        Err(QueryFault::OutOfMemory) => Err(AllocError),
        Err(fault) => format!(in alloc; "{fault}"),
    }
}

const QUERIES: &[(&str, &str)] = &[
    (REVENUES, PROGRAM_OF_REVENUES),
    (DISCOUNTS, DISCOUNTED_REVENUE),
    ("select count(*) from", "24 Unexpected at 20"),
    (
        "select count(*) from lineorder where lo_tax = 'a",
        "23 OpenText at 46",
    ),
    (
        "select count(*) from lineorder, date",
        "34 JoinMissing at 32",
    ),
    (
        "select d_year, count(*) from lineorder",
        "33 TableNotNamed at 7",
    ),
];

#[test]
fn query_to_program(rt: HostRuntime) -> Result<(), Fail> {
    for (text, expected) in QUERIES {
        check_call(&rt, expected, || program_of(rt.alloc(), text))?;
    }
    Ok(())
}

// The text of a program that is read from one, or the fault of the text.
fn read_again(alloc: Global, text: &str) -> Result<String, AllocError> {
    match Program::parse(alloc, text.as_bytes()) {
        Ok(program) => written(alloc, &program),
        Err(TextFault::OutOfMemory) => Err(AllocError),
        Err(fault) => format!(in alloc; "{fault}"),
    }
}

const PROGRAMS: &[(&str, &str)] = &[
    (PROGRAM_OF_REVENUES, PROGRAM_OF_REVENUES),
    (DISCOUNTED_REVENUE, DISCOUNTED_REVENUE),
    ("star program 1\nregisters 99999\n", "51 BadLine line 2"),
    ("star program 1\nregisters 4\nscan date r0\n", "52 OpenScan"),
];

#[test]
fn program_to_text(rt: HostRuntime) -> Result<(), Fail> {
    for (text, expected) in PROGRAMS {
        check_call(&rt, expected, || read_again(rt.alloc(), text))?;
    }
    Ok(())
}
