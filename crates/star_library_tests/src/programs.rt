// Programs that are made of parts or read from a text, and written; and quotes over the largest tables.

use crate::checks::{ABOVE_AVERAGE, DISCOUNTED_REVENUE, check_same, check_text, parsed};
use star_program::{
    Body, GroupDecl, GroupKey, Items, Op, Operation, Operator, Parts, Program, Show, Step,
};
use star_schema::{Aggregate, ColumnId, Direction, GroupColumn, Shape, Sizes, SortKey, TableId};
use star_verify::quote;
use std::alloc::{AllocError, Global};
use std::test::Fail;

// Each instruction, and lists and texts of each kind.
const EVERY_LINE: &str = concat!(
    "star program 1\nregisters 20\ngroup 0 cube c_region number : sum count min max\n",
    "group 1 plain :\nr0 = const -9223372036854775808\nr1 = low c_region 'it''s  '\n",
    "r2 = high c_region ''\nscan customer r3\n  r4 = load c_region r3\n  scan lineorder r5\n",
    "    r6 = load lo_orderdate r5\n    r7 = find date r6\n    r8 = add r6 r6\n",
    "    r9 = sub r8 r6\n    r10 = mul r9 r6\n    r11 = lt r9 r10\n    r12 = le r9 r10\n",
    "    r13 = eq r9 r10\n    r14 = within r4 r1 r2\n    r15 = and r11 r12\n",
    "    r16 = or r13 r14\n    r17 = not r16\n    keep r15\n    put 0 r4 r6 : r8 r9 r10\n",
    "  end\n  put 1 :\nend\nr18 = read 0 3 9223372036854775807\nreport 0\n",
    "show Region_1 key 0\nshow n aggregate 1\nsort key 0 descending\nsort aggregate 1 ascending\n",
);

// The smallest program, with more spaces, zeros and blank lines than its text has.
const LOOSE: &str =
    "\r\n  star   program 1  \r\nregisters 0008\n   \nreport 00\n\nshow n  key 0000";

const SMALLEST: &str = "star program 1\nregisters 8\nreport 0\nshow n key 0\n";

// Lines that are read though no program may run them.
const ODD: &str = concat!(
    "star program 1\nregisters 1\n  group 00 plain :\nr9999 = const 007\r\n",
    "put 9 r1 r2 : r3\nput 1 :\nreport 0\n",
);

const ODD_AGAIN: &str = concat!(
    "star program 1\nregisters 1\ngroup 0 plain :\nr9999 = const 7\n",
    "put 9 r1 r2 : r3\nput 1 :\nreport 0\n",
);

// A text, and the text of the program that it spells.
const TEXTS: &[(&str, &str)] = &[
    (DISCOUNTED_REVENUE, DISCOUNTED_REVENUE),
    (ABOVE_AVERAGE, ABOVE_AVERAGE),
    (EVERY_LINE, EVERY_LINE),
    (LOOSE, SMALLEST),
    (ODD, ODD_AGAIN),
];

#[test]
fn programs_are_written_back(rt: HostRuntime) -> Result<(), Fail> {
    for (text, expected) in TEXTS {
        let again = parsed(rt.alloc(), text)?.to_text()?;
        check_text(again.as_slice(), expected, text)?;
    }
    Ok(())
}

// Steps that sum a column of each date under its year: one column times itself.
fn steps(alloc: Global) -> Result<Vec<Step>, AllocError> {
    let mut steps = Vec::new(alloc);
    for (target, column) in [(1, ColumnId::DYear), (2, ColumnId::DWeeknuminyear)] {
        let operation = Operation::Load { column, row: 0 };
        steps.push(Step::Act(Op::Assign { target, operation }))?;
    }
    let operation = Operation::Binary {
        operator: Operator::Mul,
        left: 2,
        right: 2,
    };
    steps.push(Step::Act(Op::Assign {
        target: 3,
        operation,
    }))?;
    steps.push(Step::Act(Op::Put {
        group: 0,
        keys: Items::from_vec(vec![in alloc; 1u16]?),
        values: Items::from_vec(vec![in alloc; 3u16]?),
    }))?;
    Ok(steps)
}

fn body(alloc: Global) -> Result<Body, AllocError> {
    let scan = Step::Scan {
        table: TableId::Date,
        target: 0,
        body: Body::from_vec(steps(alloc)?),
    };
    let mut steps = Vec::new(alloc);
    steps.push(scan)?;
    Ok(Body::from_vec(steps))
}

fn group(alloc: Global) -> Result<GroupDecl, AllocError> {
    Ok(GroupDecl {
        shape: Shape::Plain,
        keys: Items::from_vec(vec![in alloc; GroupKey::Number]?),
        aggregates: Items::from_vec(vec![in alloc; Aggregate::Sum]?),
    })
}

fn show(alloc: Global) -> Result<Show, AllocError> {
    Ok(Show {
        name: Items::from_vec(Vec::from_slice(alloc, b"squares")?),
        column: GroupColumn::Aggregate(0),
    })
}

// A program's parts, with so many registers.
fn parts(alloc: Global, registers: u16) -> Result<Parts, AllocError> {
    let mut groups = Vec::new(alloc);
    groups.push(group(alloc)?)?;
    let mut shows = Vec::new(alloc);
    shows.push(show(alloc)?)?;
    let sort = SortKey {
        column: GroupColumn::Key(0),
        direction: Direction::Descending,
    };
    Ok(Parts {
        registers,
        groups: Items::from_vec(groups),
        body: body(alloc)?,
        report: 0,
        shows: Items::from_vec(shows),
        sorts: Items::from_vec(vec![in alloc; sort]?),
    })
}

const OF_PARTS: &str = concat!(
    "star program 1\nregisters 4096\ngroup 0 plain number : sum\nscan date r0\n",
    "  r1 = load d_year r0\n  r2 = load d_weeknuminyear r0\n  r3 = mul r2 r2\n  put 0 r1 : r3\nend\n",
    "report 0\nshow squares aggregate 0\nsort key 0 descending\n",
);

// The text of a program of parts, if they are within the limits.
fn text_of(parts: Parts) -> Result<Option<Vec<u8>>, AllocError> {
    match Program::new(parts) {
        Some(program) => Ok(Some(program.to_text()?)),
        None => Ok(None),
    }
}

#[test]
fn programs_are_made_of_parts(rt: HostRuntime) -> Result<(), Fail> {
    let text = text_of(parts(rt.alloc(), 4_096)?)?.ok_or("past a limit")?;
    check_text(text.as_slice(), OF_PARTS, "parts")?;
    let text = text_of(parts(rt.alloc(), 4_097)?)?;
    check_same(&rt, text.is_some(), false, &"4097 registers");
    Ok(())
}

// Scans of lineorder, each in the one before.
const TRIPLES: &str = concat!(
    "star program 1\nregisters 3\ngroup 0 plain : count\n",
    "scan lineorder r0\nscan lineorder r1\nscan lineorder r2\nput 0 :\nend\nend\nend\n",
    "report 0\nshow n aggregate 0\n",
);

#[test]
fn the_largest_tables_are_quoted(rt: HostRuntime) -> Result<(), Fail> {
    let program = parsed(rt.alloc(), TRIPLES)?;
    let most = u32::MAX;
    let sizes = Sizes {
        date: most,
        customer: most,
        supplier: most,
        part: most,
        lineorder: most,
    };
    let visits = 79_228_162_477_370_849_454_714_781_695;
    check_same(&rt, quote(&program, &sizes), visits, &"triples");
    Ok(())
}
