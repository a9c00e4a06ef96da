// The arguments of each command, by their names, as the parser of command lines reads them.

use crate::help::Help;
use clap::{Arg, ArgAction, Command, value_parser};
use star_schema::MOST_VISITS;
use std::alloc::{AllocError, Global};

// A word that has to be there, as it is.
fn word<'a>(alloc: Global, name: &'a str, help: &'a str) -> Arg<'a> {
    Arg::new(alloc, name)
        .help(help)
        .required(true)
        .action(ArgAction::Set)
}

fn folder_word<'a>(alloc: Global) -> Arg<'a> {
    let help =
        "A folder with date.tbl, customer.tbl, supplier.tbl, part.tbl, and lineorder.tbl or its parts";
    word(alloc, "FOLDER", help)
}

// A negative number is taken for the value that is none, and not for an option.
fn limit_word<'a>(alloc: Global) -> Arg<'a> {
    let help = "The largest number of rows to visit, from 0 to 1000000000000000";
    word(alloc, "LIMIT", help)
        .allow_negative_numbers(true)
        .value_parser(value_parser!(i64).range(0..=MOST_VISITS as i64))
}

/// A command that has no words yet: the one that has commands of its own has none.
pub(crate) fn wordless<'a>(alloc: Global, help: Help) -> Result<Command<'a>, AllocError> {
    Command::new(alloc, help.name)
        .about(help.about)
        .after_help(help.after)
        .no_binary_name(true)
        .bin_name(help.called)
}

// From 1 to 1000 words, as they are.
fn words<'a>(alloc: Global, name: &'a str, help: &'a str) -> Arg<'a> {
    Arg::new(alloc, name)
        .help(help)
        .required(true)
        .num_args(1..=1000)
        .action(ArgAction::Append)
}

fn flag<'a>(alloc: Global, name: &'a str, help: &'a str) -> Arg<'a> {
    Arg::new(alloc, name)
        .long(name)
        .help(help)
        .action(ArgAction::SetTrue)
}

fn file_words<'a>(alloc: Global) -> Arg<'a> {
    let help =
        "1 to 1000 files with the text of a program or of a query (docs/PROGRAMS.md, docs/QUERIES.md)";
    words(alloc, "FILE", help)
}

fn quote_flag<'a>(alloc: Global) -> Arg<'a> {
    let help = "Prints how many rows each file visits and its report has at most, and runs none";
    flag(alloc, "quote", help)
}

fn part_words<'a>(alloc: Global) -> Arg<'a> {
    let help = "The number of a part of lineorder, from 1 to 1000, or 0 for lineorder.tbl";
    words(alloc, "PART", help)
        .allow_negative_numbers(true)
        .value_parser(value_parser!(i64).range(0..=1000))
}

fn target_option<'a>(alloc: Global) -> Arg<'a> {
    Arg::new(alloc, "to")
        .long("to")
        .value_name("TARGET")
        .help("An existing folder: each partial is written to TARGET/PART.partial")
        .action(ArgAction::Set)
}

fn partial_words<'a>(alloc: Global) -> Arg<'a> {
    let help = "1 to 1000 files with the partials of the query, in any order";
    words(alloc, "PARTIAL", help)
}

fn distinct_flag<'a>(alloc: Global) -> Arg<'a> {
    let help = "Merges partials whose keys overlap: no order line may be in two of them";
    flag(alloc, "distinct", help)
}

/// One or more arguments of a command.
#[derive(Clone, Copy)]
pub(crate) enum Argument {
    Folder,
    /// A file, with its help.
    File(&'static str),
    Limit,
    /// A folder for reports.
    Target,
    Files,
    Quote,
    Parts,
    To,
    Partials,
    Distinct,
}

impl Argument {
    fn arg<'a>(self, alloc: Global) -> Arg<'a> {
        match self {
            Argument::Folder => folder_word(alloc),
            Argument::File(help) => word(alloc, "FILE", help),
            Argument::Limit => limit_word(alloc),
            Argument::Target => word(alloc, "TARGET", "An existing folder for the reports"),
            Argument::Files => file_words(alloc),
            Argument::Quote => quote_flag(alloc),
            Argument::Parts => part_words(alloc),
            Argument::To => target_option(alloc),
            Argument::Partials => partial_words(alloc),
            Argument::Distinct => distinct_flag(alloc),
        }
    }
}

/// A command's help and its arguments.
pub(crate) type Asked<'c> = (Help, &'c [Argument]);

/// Makes a command with its arguments.
pub(crate) fn asking<'a>(alloc: Global, asked: &Asked<'_>) -> Result<Command<'a>, AllocError> {
    let (help, arguments) = *asked;
    let mut command = wordless(alloc, help)?;
    for argument in arguments {
        command = command.arg(argument.arg(alloc))?;
    }
    Ok(command)
}

/// Makes these commands.
pub(crate) fn asking_all<'a>(
    alloc: Global,
    commands: &[Asked<'_>],
) -> Result<Vec<Command<'a>>, AllocError> {
    let mut made = Vec::new(alloc);
    for asked in commands {
        made.push(asking(alloc, asked)?)?;
    }
    Ok(made)
}
