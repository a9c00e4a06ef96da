// The requests of command lines.

ghost use Rattle.std.specs.Prelude.{◌≡◌, ◌∷◌, IfOk, MatchResult, OnOk, map, option_map, string_bytes};
ghost use Rattle.star_words.specs.{Private.Parting.{AreArguments, IsAdded, IsLimited, IsMade, texts}, Requests.{IsRequest, IsWordsFault, request_asked}};
ghost use Rattle.star_words.specs.Requests as spec;

use crate::fault::WordsFault;
use crate::refusal::parsed;
use star_schema::{Limits, MOST_ROWS, MOST_VISITS};
use std::alloc::{AllocError, Global};

/// A request to the program.
#[derive(Clone, Copy)]
pub enum Task<'a> {
    /// List the tables of the sample, and answer the queries of the benchmark over them.
    Sample,
    /// List the tables of a folder.
    Check {
        folder: &'a str,
    },
    /// Answer the queries of the benchmark over the tables of a folder.
    Bench {
        folder: &'a str,
    },
    /// Answer the query of a file over the tables of a folder.
    Query {
        folder: &'a str,
        file: &'a str,
    },
    /// Print the program of the query of a file.
    Explain {
        file: &'a str,
    },
    /// Check the program of a file over the tables of a folder, and run it.
    Exec {
        folder: &'a str,
        file: &'a str,
    },
    /// Print how many visits of the program of a file, or of the program of its query, are quoted
    /// over the tables of a folder.
    Quote {
        folder: &'a str,
        file: &'a str,
    },
    /// Run the program of a file over the tables of a folder, for at most as many visits as the
    /// limits allow.
    Trial {
        folder: &'a str,
        file: &'a str,
        limits: Limits,
    },
}

/// The request of a command line.
#[derive(Drop)]
pub enum Request<'a> {
    /// An answer, over input that is read before it.
    Answer(Task<'a>),
    /// A session over the tables of a folder.
    Session { folder: &'a str },
    /// Reports of some files over the tables of a folder, or their forecasts.
    Reports(Reports<'a>),
    /// The partials of the query of a file over parts of lineorder.
    Partial(Partials<'a>),
    /// The report of the query of a file, merged from partials.
    Merge(Merge<'a>),
}

/// The partials of the query of a file over parts of lineorder, by their numbers; 0 is a whole
/// lineorder. They are written into the folder `target`; without one there is a single part.
#[derive(Drop)]
pub struct Partials<'a> {
    pub folder: &'a str,
    pub file: &'a str,
    pub parts: Vec<u16>,
    pub target: Option<&'a str>,
}

/// The partials of the query of a file, which are merged. `is_distinct` says that no order line is in
/// two parts.
#[derive(Drop)]
pub struct Merge<'a> {
    pub file: &'a str,
    pub partials: Vec<&'a str>,
    pub is_distinct: bool,
}

/// A request for files over the tables of a folder: their reports, into the folder `target`;
/// or, if it `is_quote`, their forecasts.
#[derive(Drop)]
pub struct Reports<'a> {
    pub folder: &'a str,
    pub target: &'a str,
    pub files: Vec<&'a str>,
    pub is_quote: bool,
}

/// The most parts that lineorder may have.
const MOST_PARTS: u64 = 1_000;

/// The most files that reports are asked of, and the most partials that are made or merged.
const MOST_FILES: usize = 1_000;

// The arguments of a command: after `--`, which ends the options, every one is an operand. The value
// of an option is among the options.
#[derive(Drop)]
struct Arguments<'a> {
    operands: Vec<&'a str>,
    options: Vec<&'a str>,
    is_value: bool,
    is_ended: bool,
}

// Whether an argument is an option.
fn is_option(word: &str) -> bool
    ensures { result ≡ spec.is_option word.now }
{
    word.len() > 1 && word.as_bytes()[0] == b'-'
}

impl<'a> Arguments<'a> {
    // Adds the next argument.
    fn add(&mut self, word: &'a str) -> Result<(), AllocError>
        ensures { OnOk result (IsAdded self.old word.now self.new) }
    {
        if self.is_ended {
            self.operands.push(word)?;
        } else if word == "--" {
            self.is_ended = true;
        } else if self.is_value || is_option(word) {
            self.options.push(word)?;
            self.is_value = word == "--to";
        } else {
            self.operands.push(word)?;
        }
        Ok(())
    }
}

// Separates the operands and the options of a command.
fn arguments_of<'a>(alloc: Global, words: &'a [String]) -> Result<Arguments<'a>, AllocError>
    ensures { IfOk result (AreArguments (map string_bytes words.now)) }
{
    let mut arguments = Arguments {
        operands: Vec::new(alloc),
        options: Vec::new(alloc),
        is_value: false,
        is_ended: false,
    };
    for word in words {
        arguments.add(word.as_str())?;
    }
    Ok(arguments)
}

// The limits of a trial: the widest, but for the visits.
fn limits_of(limit: &str) -> Option<Limits>
    ensures { IsLimited (spec.limit_of limit.now) result }
{
    match limit.parse::<u64>() {
        Ok(visits) if visits <= MOST_VISITS => Some(Limits {
            rows: MOST_ROWS,
            visits,
        }),
        _ => None,
    }
}

fn with_one<'a>(command: &str, operand: &'a str) -> Option<Request<'a>>
    ensures { IsMade (spec.with_one command.now operand.now) result }
{
    Some(match command {
        "check" => Request::Answer(Task::Check { folder: operand }),
        "bench" => Request::Answer(Task::Bench { folder: operand }),
        "session" => Request::Session { folder: operand },
        "explain" => Request::Answer(Task::Explain { file: operand }),
        _ => return None,
    })
}

fn with_two<'a>(command: &str, folder: &'a str, file: &'a str) -> Option<Request<'a>>
    ensures { IsMade (spec.with_two command.now folder.now file.now) result }
{
    Some(Request::Answer(match command {
        "query" => Task::Query { folder, file },
        "exec" => Task::Exec { folder, file },
        "quote" => Task::Quote { folder, file },
        _ => return None,
    }))
}

// The number of a part: 0 is the whole.
fn part_of(part: &str) -> Option<u16>
    ensures { result ≡ spec.part_of part.now }
{
    let number = limits_of(part)?.visits;
    if number <= MOST_PARTS {
        Some(number as u16)
    } else {
        None
    }
}

fn with_three<'a>(command: &str, folder: &'a str, file: &'a str, last: &str) -> Option<Request<'a>>
    ensures { IsMade (spec.with_three command.now folder.now file.now last.now) result }
{
    if command == "trial" {
        let limits = limits_of(last)?;
        Some(Request::Answer(Task::Trial {
            folder,
            file,
            limits,
        }))
    } else {
        None
    }
}

// What a command without options asks for.
fn plain<'a>(command: &str, operands: &[&'a str]) -> Option<Request<'a>>
    ensures { IsMade (spec.plain command.now (texts operands.now)) result }
{
    match operands {
        [one] => with_one(command, one),
        [one, two] => with_two(command, one, two),
        [one, two, three] => with_three(command, one, two, three),
        _ => None,
    }
}

// What `reports` asks for.
fn reports_of<'a>(
    alloc: Global,
    is_quote: bool,
    operands: &[&'a str],
) -> Result<Option<Request<'a>>, AllocError>
    ensures { IfOk result (IsMade (spec.reports_of is_quote (texts operands.now))) }
{
    let [folder, target, files @ ..] = operands else {
        return Ok(None);
    };
    if files.is_empty() || files.len() > MOST_FILES {
        return Ok(None);
    }
    Ok(Some(Request::Reports(Reports {
        folder,
        target,
        files: files.to_vec(alloc)?,
        is_quote,
    })))
}

// The numbers of some parts.
fn parts_of(alloc: Global, words: &[&str]) -> Result<Option<Vec<u16>>, AllocError>
    ensures { IfOk result (λ parts.
        option_map (λ given. given.items) parts ≡ spec.parts_of (texts words.now)) }
{
    let mut parts = Vec::new(alloc);
    for word in words {
        match part_of(word) {
            Some(part) => parts.push(part)?,
            None => return Ok(None),
        }
    }
    Ok(Some(parts))
}

// What `partial` asks for.
fn partial_of<'a>(
    alloc: Global,
    target: Option<&'a str>,
    operands: &[&'a str],
) -> Result<Option<Request<'a>>, AllocError>
    ensures { IfOk result (IsMade (spec.partial_of (option_map (λ name. name.now) target.entry)
        (texts operands.now))) }
{
    let [folder, file, words @ ..] = operands else {
        return Ok(None);
    };
    let most = if target.is_some() { MOST_FILES } else { 1 };
    if words.is_empty() || words.len() > most {
        return Ok(None);
    }
    match parts_of(alloc, words)? {
        Some(parts) => Ok(Some(Request::Partial(Partials {
            folder,
            file,
            parts,
            target,
        }))),
        None => Ok(None),
    }
}

// What `merge` asks for.
fn merge_of<'a>(
    alloc: Global,
    is_distinct: bool,
    operands: &[&'a str],
) -> Result<Option<Request<'a>>, AllocError>
    ensures { IfOk result (IsMade (spec.merge_of is_distinct (texts operands.now))) }
{
    let [file, partials @ ..] = operands else {
        return Ok(None);
    };
    if partials.is_empty() || partials.len() > MOST_FILES {
        return Ok(None);
    }
    Ok(Some(Request::Merge(Merge {
        file,
        partials: partials.to_vec(alloc)?,
        is_distinct,
    })))
}

// What a command asks for without options.
fn without_option<'a>(
    alloc: Global,
    command: &str,
    operands: &[&'a str],
) -> Result<Option<Request<'a>>, AllocError>
    ensures { IfOk result (IsMade (spec.without_option command.now (texts operands.now))) }
{
    match command {
        "reports" => reports_of(alloc, false, operands),
        "merge" => merge_of(alloc, false, operands),
        "partial" => partial_of(alloc, None, operands),
        _ => Ok(plain(command, operands)),
    }
}

// What a command asks for with one option.
fn with_option<'a>(
    alloc: Global,
    command: &str,
    option: &str,
    operands: &[&'a str],
) -> Result<Option<Request<'a>>, AllocError>
    ensures { IfOk result (IsMade (spec.with_option command.now option.now (texts operands.now))) }
{
    if command == "reports" && option == "--quote" {
        reports_of(alloc, true, operands)
    } else if command == "merge" && option == "--distinct" {
        merge_of(alloc, true, operands)
    } else {
        Ok(None)
    }
}

// What a command asks for with an option that has a value.
fn with_value<'a>(
    alloc: Global,
    command: &str,
    option: &str,
    value: &'a str,
    operands: &[&'a str],
) -> Result<Option<Request<'a>>, AllocError>
    ensures { IfOk result (IsMade (spec.with_value command.now option.now value.now
        (texts operands.now))) }
{
    if command == "partial" && option == "--to" {
        partial_of(alloc, Some(value), operands)
    } else {
        Ok(None)
    }
}

// What a command asks for, if its arguments are right.
fn asked_by<'a>(
    alloc: Global,
    command: &str,
    arguments: &Arguments<'a>,
) -> Result<Option<Request<'a>>, AllocError>
    ensures { IfOk result (IsMade (spec.asked_by command.now (texts arguments.now.options.items)
        (texts arguments.now.operands.items))) }
{
    let operands = arguments.operands.as_slice();
    match arguments.options.as_slice() {
        [] => without_option(alloc, command, operands),
        [option] => with_option(alloc, command, option, operands),
        [option, value] => with_value(alloc, command, option, value, operands),
        _ => Ok(None),
    }
}

// Whether the names of the folders of a request are not empty.
fn names_folders(request: &Request<'_>) -> bool
    ensures { result ≡ spec.names_folders (request_asked request.now) }
{
    match request {
        Request::Answer(Task::Sample | Task::Explain { .. }) | Request::Merge(_) => true,
        Request::Answer(
            Task::Check { folder }
            | Task::Bench { folder }
            | Task::Query { folder, .. }
            | Task::Exec { folder, .. }
            | Task::Quote { folder, .. }
            | Task::Trial { folder, .. },
        )
        | Request::Session { folder } => !folder.is_empty(),
        Request::Reports(asked) => !asked.folder.is_empty() && !asked.target.is_empty(),
        Request::Partial(asked) => {
            !asked.folder.is_empty() && asked.target.is_none_or(|target| !target.is_empty())
        }
    }
}

// Tests whether a command is help or a topic of help.
fn is_topic(command: &str) -> bool
    ensures { result ≡ spec.is_topic command.now }
{
    command == "help" || command == "tables" || command == "faults"
}

// Whether help or the version may be asked for.
fn may_ask_help(command: &str, arguments: &Arguments<'_>) -> bool
    ensures { result ≡ spec.may_ask_by command.now (texts arguments.now.options.items) }
{
    is_topic(command) || is_option(command) || !arguments.options.is_empty()
}

/// Returns the request in the arguments of a command line, `words`, without the program's own name.
/// The first is the name of a command; without arguments the sample is asked for.
///
/// `clap` parses the arguments first, and its error is returned if there is one. On `Ok` the request
/// is `asked words`, a function of only the arguments. On `Err` the parser refused the arguments or
/// printed help, they make no request, a folder's name is empty, or memory ran out.
pub fn request_of<'a>(alloc: Global, words: &'a [String]) -> Result<Request<'a>, WordsFault>
    ensures { MatchResult result (IsRequest (map string_bytes words.now))
        (IsWordsFault (map string_bytes words.now)) }
{
    let Some((command, rest)) = words.split_first() else {
        return Ok(Request::Answer(Task::Sample));
    };
    let arguments = arguments_of(alloc, rest)?;
    if let Err(fault) = parsed(alloc, words, may_ask_help(command.as_str(), &arguments)) {
        return Err(fault);
    }
    match asked_by(alloc, command.as_str(), &arguments)? {
        Some(request) if names_folders(&request) => Ok(request),
        Some(_) => Err(WordsFault::EmptyFolder),
        None if command.as_str() == "partial" => Err(WordsFault::NoTarget),
        None => Err(WordsFault::NoCommand),
    }
}
