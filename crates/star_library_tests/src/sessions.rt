// Sessions at a terminal, whose input fails, and whose output fails.

use crate::commands::{AMPLE, Ran, owned, piped, run_watched};
use crate::files::Folder;
use crate::streams::Zeros;
use star_cli::StandardInput;
use std::alloc::{AllocError, Global};
use std::io::Read;
use std::test::Fail;

fn run_session<I: Read + Drop>(
    alloc: Global,
    input: StandardInput<I>,
    room: (usize, usize),
) -> Result<Ran, AllocError> {
    let words = owned(alloc, ["session", "f"].as_slice())?;
    let folder = Folder::sound(alloc)?;
    run_watched(&folder, words.as_slice(), input, &mut (), room)
}

const PROMPTED: &str = concat!(
    "loading the tables\n",
    "star> quote 5\nvisits 5 lookups 0 updates 5\n",
    "star> query 24 Unexpected at 0\n",
    "star> \n",
);

#[test]
fn a_terminal_has_a_prompt(rt: HostRuntime) -> Result<(), Fail> {
    let input = StandardInput {
        reader: b"select count(*)\nfrom lineorder;\n;\n".as_slice(),
        is_terminal: true,
    };
    run_session(rt.alloc(), input, AMPLE)?.check(&rt, 0, "count1\n5\n\n", PROMPTED, "typed")
}

// How many reads are good, whether the next one fails, the exit status and the line.
const INPUTS: [(u64, bool, u8, &str); 3] = [
    (3, true, 6, "file standard input\n"),
    (3, false, 0, "query 21 BadCharacter at 0\n"),
    (0, true, 6, "file standard input\n"),
];

#[test]
fn input_may_fail(rt: HostRuntime) -> Result<(), Fail> {
    for (good, fails, status, line) in INPUTS {
        let input = StandardInput {
            reader: Zeros {
                good,
                at_once: 5,
                fails,
                reads: 0,
            },
            is_terminal: false,
        };
        run_session(rt.alloc(), input, AMPLE)?.check(&rt, status, "", line, "zeros")?;
    }
    Ok(())
}

const BOTH: &[u8] = b"select count(*) from lineorder;\nselect count(*) from lineorder;\n";

const NOTES: &str = "quote 5\nvisits 5 lookups 0 updates 5\n";

// How many bytes the two streams take, and what they took. The empty line after a report is a write
// of its own.
const SHORT: [(usize, usize, &str, &str); 6] = [
    (3, 100, "cou", "quote 5\nwrite 3\n"),
    (
        9,
        100,
        "count1\n5\n",
        "quote 5\nvisits 5 lookups 0 updates 5\nwrite 0\n",
    ),
    (
        10,
        100,
        "count1\n5\n\n",
        "quote 5\nvisits 5 lookups 0 updates 5\nquote 5\nwrite 0\n",
    ),
    (100, 7, "", "quote 5"),
    (100, 8, "count1\n5\n", "quote 5\n"),
    (100, 37, "count1\n5\n\n", NOTES),
];

#[test]
fn a_failed_write_ends_a_session(rt: HostRuntime) -> Result<(), Fail> {
    for (out, err, answers, notes) in SHORT {
        let ran = run_session(rt.alloc(), piped(BOTH), (out, err))?;
        ran.check(&rt, 6, answers, notes, "short")?;
    }
    Ok(())
}
