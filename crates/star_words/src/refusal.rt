// The parser of command lines.

ghost use Rattle.std.specs.Prelude.{IfErr};
ghost use Rattle.star_words.specs.Private.Parting.{IsParsersFault, IsRefusal};

use crate::fault::WordsFault;
use crate::help::{
    BENCH, CHECK, EITHER_FILE, EXEC, EXPLAIN, FAULTS, Help, PROGRAM_FILE, QUERY, QUERY_FILE, QUOTE,
    REPORTS, SESSION, STAR, TABLES, TRIAL,
};
use crate::parser::Argument::{
    Distinct, File, Files, Folder, Limit, Partials, Parts, Quote, Target, To,
};
use crate::parser::{Asked, asking, asking_all, wordless};
use crate::partials::{MERGE, PARTIAL};
use clap::Command;
use std::alloc::{AllocError, Global};
use std::convert::AsStr;

// The commands, in the order in which help lists them.
const COMMANDS: [Asked<'static>; 13] = [
    (CHECK, &[Folder]),
    (BENCH, &[Folder]),
    (QUERY, &[Folder, File(QUERY_FILE)]),
    (EXPLAIN, &[File(QUERY_FILE)]),
    (EXEC, &[Folder, File(PROGRAM_FILE)]),
    (QUOTE, &[Folder, File(EITHER_FILE)]),
    (TRIAL, &[Folder, File(PROGRAM_FILE), Limit]),
    (SESSION, &[Folder]),
    (REPORTS, &[Folder, Target, Files, Quote]),
    (PARTIAL, &[Folder, File(QUERY_FILE), Parts, To]),
    (MERGE, &[File(QUERY_FILE), Partials, Distinct]),
    (TABLES, &[]),
    (FAULTS, &[]),
];

// Apart from the chain of calls, in which its clause, over all fields of a command, is dear to prove.
fn versioned<'a>(star: Command<'a>) -> Command<'a> {
    star.version("0.1.0")
}

// The program with its commands.
fn star_command<'a>(alloc: Global, commands: &[Asked<'_>]) -> Result<Command<'a>, AllocError> {
    let star = versioned(wordless(alloc, STAR)?);
    star.subcommands(asking_all(alloc, commands)?)
}

// The command of this name, if it has arguments.
fn command_named<'a>(
    alloc: Global,
    commands: &[Asked<'_>],
    name: &str,
) -> Result<Option<Command<'a>>, AllocError> {
    for asked in commands {
        if asked.0.name == name && !asked.1.is_empty() {
            return Ok(Some(asking(alloc, asked)?));
        }
    }
    Ok(None)
}

fn parse<'a, S: AsStr>(command: Command<'a>, words: &'a [S]) -> Result<(), WordsFault>
    ensures { IfErr result IsParsersFault }
{
    command.try_get_matches_from(words)?;
    Ok(())
}

// Parses arguments by the parser of the whole program.
fn parse_by_star<'a, S: AsStr>(
    alloc: Global,
    commands: &[Asked<'_>],
    words: &'a [S],
) -> Result<(), WordsFault>
    ensures { IfErr result IsParsersFault }
{
    parse(star_command(alloc, commands)?, words)
}

// Parses arguments by the parser of the command that they name.
fn check_by(alloc: Global, commands: &[Asked<'_>], words: &[String]) -> Result<(), WordsFault>
    ensures { IfErr result IsParsersFault }
{
    if let [command, rest @ ..] = words {
        let name = command.as_str();
        // A topic of help has no more to say than help does.
        if rest.is_empty() && (name == "tables" || name == "faults") {
            return parse_by_star(alloc, commands, &["help", name]);
        }
        if let Some(parser) = command_named(alloc, commands, name)? {
            return parse(parser, rest);
        }
    }
    parse_by_star(alloc, commands, words)
}

// Apart from its caller: a proof that has the table has all of its texts.
fn check(alloc: Global, words: &[String]) -> Result<(), WordsFault>
    ensures { IfErr result IsParsersFault }
{
    check_by(alloc, &COMMANDS, words)
}

/// Parses the arguments of a command line. Returns the parser's error, if there is one: help or the
/// version only if `may_ask_help`.
pub(crate) fn parsed(alloc: Global, words: &[String], may_ask_help: bool) -> Result<(), WordsFault>
    ensures { IfErr result (IsRefusal may_ask_help) }
{
    match check(alloc, words) {
        Ok(()) => Ok(()),
        Err(fault) if may_ask_help || fault.status() != 0 => Err(fault),
        Err(WordsFault::OutOfMemory) => Err(WordsFault::OutOfMemory),
        Err(_) => Err(WordsFault::NoCommand),
    }
}
