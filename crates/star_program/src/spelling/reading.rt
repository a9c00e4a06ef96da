// Reading a statement from a line, word by word.

ghost use Rattle.std.specs.{Prelude.{◌≡◌, ◌≢◌, ◌∷◌, [], None, Some, MatchOption, MatchResult, length}, Option.{option_copied, option_map}};
ghost use Rattle.star_program.specs.{Private.Reading.Reads, Text.Lines.words_of};
ghost use Rattle.star_program.specs.Text.Keywords as words;
ghost use Rattle.star_program.specs.Text.Numerals as numerals;
ghost use Rattle.star_program.specs.Text.Said as spec;
ghost use Rattle.star_program.specs.declared.op.Op.TheVariants as op;
ghost use Rattle.star_program.specs.declared.op.Operation.TheVariants as operation;
ghost use Rattle.star_program.specs.declared.spelling.statement.Statement.TheVariants as says;

use crate::group::GroupDecl;
use crate::op::{Edge, Op, Operation, Operator};
use crate::program::Show;
use crate::spelling::fault::LineFault;
use crate::spelling::keyword::{KEYWORDS, Keyword, MNEMONICS, Mnemonic};
use crate::spelling::lines::split_word;
use crate::spelling::listed::{read_column, read_lists, read_quoted, read_table};
use crate::spelling::numerals::{is_name, read_constant, read_count, read_register};
use crate::spelling::statement::Statement;
use star_common::{Items, are_printable};
use star_schema::{DIRECTIONS, GroupColumn, SHAPES, Shape, SortKey, first_named};
use std::alloc::Global;

// Returns the only word of a line.
fn only_word(line: &[u8]) -> Option<&[u8]>
    ensures { MatchOption result (length (words_of line.now) ≢ 1)
        (λ word. words_of line.now ≡ word.now ∷ []) }
{
    let (word, rest) = split_word(line)?;
    match split_word(rest) {
        Some(_) => None,
        None => Some(word),
    }
}

// Returns the words of a line that has two.
fn two_words(line: &[u8]) -> Option<(&[u8], &[u8])>
    ensures { MatchOption result (length (words_of line.now) ≢ 2)
        (λ words. words_of line.now ≡ words.0.now ∷ words.1.now ∷ []) }
{
    let (first, rest) = split_word(line)?;
    Some((first, only_word(rest)?))
}

// Returns the words of a line that has three.
fn three_words(line: &[u8]) -> Option<(&[u8], &[u8], &[u8])>
    ensures { MatchOption result (length (words_of line.now) ≢ 3)
        (λ words. words_of line.now ≡ words.0.now ∷ words.1.now ∷ words.2.now ∷ []) }
{
    let (first, rest) = split_word(line)?;
    let (second, third) = two_words(rest)?;
    Some((first, second, third))
}

fn constant(operands: &[u8]) -> Option<Operation>
    ensures { result ≡ option_map operation.Const
        (spec.from_one_word numerals.constant_of (words_of operands.now)) }
{
    let number = read_constant(only_word(operands)?)?;
    Some(Operation::Const { number })
}

fn load(operands: &[u8]) -> Option<Operation>
    ensures { result ≡ option_map (λ (c, row). operation.Load c row)
        (spec.from_two_words words.column_of_word numerals.register_of (words_of operands.now)) }
{
    let (column, row) = two_words(operands)?;
    Some(Operation::Load {
        column: read_column(column)?,
        row: read_register(row)?,
    })
}

fn find(operands: &[u8]) -> Option<Operation>
    ensures { result ≡ option_map (λ (table, k). operation.Find table k)
        (spec.from_two_words words.table_of_word numerals.register_of (words_of operands.now)) }
{
    let (table, key) = two_words(operands)?;
    Some(Operation::Find {
        table: read_table(table)?,
        key: read_register(key)?,
    })
}

fn binary(operator: Operator, operands: &[u8]) -> Option<Operation>
    ensures { result ≡ option_map (λ (a, b). operation.Binary operator a b)
        (spec.from_two_words numerals.register_of numerals.register_of (words_of operands.now)) }
{
    let (left, right) = two_words(operands)?;
    Some(Operation::Binary {
        operator,
        left: read_register(left)?,
        right: read_register(right)?,
    })
}

fn within(operands: &[u8]) -> Option<Operation>
    ensures { result ≡ option_map (λ (x, (a, b)). operation.Within x a b)
        (spec.from_three_words numerals.register_of numerals.register_of numerals.register_of
        (words_of operands.now)) }
{
    let (value, from, below) = three_words(operands)?;
    Some(Operation::Within {
        value: read_register(value)?,
        from: read_register(from)?,
        below: read_register(below)?,
    })
}

fn not(operands: &[u8]) -> Option<Operation>
    ensures { result ≡ option_map operation.Not
        (spec.from_one_word numerals.register_of (words_of operands.now)) }
{
    let flag = read_register(only_word(operands)?)?;
    Some(Operation::Not { flag })
}

fn read(operands: &[u8]) -> Option<Operation>
    ensures { result ≡ option_map (λ (g, (a, n)). operation.Read g a n)
        (spec.from_three_words numerals.count_of numerals.count_of numerals.constant_of
        (words_of operands.now)) }
{
    let (group, aggregate, default) = three_words(operands)?;
    Some(Operation::Read {
        group: read_count(group)?,
        aggregate: read_count(aggregate)?,
        default: read_constant(default)?,
    })
}

// Returns what was read, or an error if there was nothing to read.
fn readable<T>(option: Option<T>) -> Result<T, LineFault>
    ensures { Reads result option }
{
    match option {
        Some(value) => Ok(value),
        None => Err(LineFault::Unreadable),
    }
}

fn read_first(line: &[u8]) -> Result<(&[u8], &[u8]), LineFault>
    ensures { MatchResult result (λ parts. words_of line.now ≡ parts.0.now ∷ words_of parts.1.now)
        (λ fault. (fault ≡ LineFault.Unreadable) × (words_of line.now ≡ [])) }
{
    match split_word(line) {
        Some(parts) => Ok(parts),
        None => Err(LineFault::Unreadable),
    }
}

fn read_edge(alloc: Global, edge: Edge, operands: &[u8]) -> Result<Operation, LineFault>
    ensures { Reads result (option_map (λ (c, text). operation.Edge edge c text)
        (spec.from_two_words words.column_of_word spec.quoted_text_of (words_of operands.now))) }
{
    let (column, text) = readable(two_words(operands))?;
    let column = readable(read_column(column))?;
    let text = read_quoted(alloc, text)?;
    Ok(Operation::Edge { edge, column, text })
}

#[tactic(auto, unfolding(crate::specs::Text::Said::operation_of))]
fn read_operation(
    alloc: Global,
    mnemonic: Mnemonic,
    operands: &[u8],
) -> Result<Operation, LineFault>
    ensures { Reads result (spec.operation_of mnemonic (words_of operands.now)) }
{
    match mnemonic {
        Mnemonic::Const => readable(constant(operands)),
        Mnemonic::Edge(edge) => read_edge(alloc, edge, operands),
        Mnemonic::Load => readable(load(operands)),
        Mnemonic::Find => readable(find(operands)),
        Mnemonic::Binary(operator) => readable(binary(operator, operands)),
        Mnemonic::Within => readable(within(operands)),
        Mnemonic::Not => readable(not(operands)),
        Mnemonic::Read => readable(read(operands)),
    }
}

// Reads what follows the register that an instruction writes.
#[tactic(auto, unfolding(crate::specs::Text::Keywords::mnemonic_of))]
fn read_assigned(alloc: Global, target: u16, line: &[u8]) -> Result<Op, LineFault>
    ensures { Reads result (spec.assigned target (words_of line.now)) }
{
    let (sign, rest) = read_first(line)?;
    let (name, operands) = read_first(rest)?;
    if sign != "=".as_bytes() {
        return Err(LineFault::Unreadable);
    }
    let mnemonic = readable(first_named(&MNEMONICS, name))?;
    let operation = read_operation(alloc, mnemonic, operands)?;
    Ok(Op::Assign { target, operation })
}

// Reads the number of a group and its shape, and returns the line after them.
// `group 00` is group 0: a group's number is compared as a number.
#[tactic(auto, unfolding(crate::specs::Text::Keywords::shape_of_word))]
fn group_head(line: &[u8]) -> Option<(u16, (Shape, &[u8]))>
    ensures { option_map (λ head. (head.0, (head.1.0, words_of head.1.1.now))) result
        ≡ spec.group_head (words_of line.now) }
{
    let (index, rest) = split_word(line)?;
    let (shape, rest) = split_word(rest)?;
    Some((read_count(index)?, (first_named(&SHAPES, shape)?, rest)))
}

fn read_group(alloc: Global, line: &[u8]) -> Result<Statement, LineFault>
    ensures { Reads result (spec.group_of (words_of line.now)) }
{
    let (index, (shape, rest)) = readable(group_head(line))?;
    let (keys, aggregates) = read_lists(alloc, rest)?;
    let group = GroupDecl {
        shape,
        keys,
        aggregates,
    };
    Ok(Statement::Group { index, group })
}

// Reads the number of a group, and returns the line after it.
fn put_head(line: &[u8]) -> Option<(u16, &[u8])>
    ensures { option_map (λ head. (head.0, words_of head.1.now)) result
        ≡ spec.put_head (words_of line.now) }
{
    let (group, rest) = split_word(line)?;
    Some((read_count(group)?, rest))
}

fn read_put(alloc: Global, line: &[u8]) -> Result<Op, LineFault>
    ensures { Reads result (spec.put_of (words_of line.now)) }
{
    let (group, rest) = readable(put_head(line))?;
    let (keys, values) = read_lists(alloc, rest)?;
    Ok(Op::Put {
        group,
        keys,
        values,
    })
}

// Reads a column of a group.
#[tactic(auto, unfolding(crate::specs::Text::Said::group_column_of))]
fn read_group_column(word: &[u8], index: &[u8]) -> Option<GroupColumn>
    ensures { result ≡ spec.group_column_of word.now index.now }
{
    if word == "key".as_bytes() {
        Some(GroupColumn::Key(read_count(index)?))
    } else if word == "aggregate".as_bytes() {
        Some(GroupColumn::Aggregate(read_count(index)?))
    } else {
        None
    }
}

#[tactic(auto, unfolding(crate::specs::Text::Keywords::direction_of))]
fn read_sort(line: &[u8]) -> Option<SortKey>
    ensures { result ≡ spec.sort_of (words_of line.now) }
{
    let (word, index, direction) = three_words(line)?;
    Some(SortKey {
        column: read_group_column(word, index)?,
        direction: first_named(&DIRECTIONS, direction)?,
    })
}

fn read_name(word: &[u8]) -> Option<&[u8]>
    ensures { option_copied result ≡ spec.name_of word.now }
{
    if is_name(word) { Some(word) } else { None }
}

// Reads a name and the column that it shows.
fn show_parts(line: &[u8]) -> Option<(&[u8], GroupColumn)>
    ensures { option_map (λ parts. record { name = parts.0.now; column = parts.1 }) result
        ≡ spec.show_of (words_of line.now) }
{
    let (name, word, index) = three_words(line)?;
    Some((read_name(name)?, read_group_column(word, index)?))
}

fn read_show(alloc: Global, line: &[u8]) -> Result<Show, LineFault>
    ensures { Reads result (spec.show_of (words_of line.now)) }
{
    let (word, column) = readable(show_parts(line))?;
    let name = Items::from_vec(Vec::from_slice(alloc, word)?);
    Ok(Show { name, column })
}

fn read_header(line: &[u8]) -> Option<Statement>
    ensures { result ≡ spec.header_of (words_of line.now) }
{
    let (program, version) = two_words(line)?;
    if program == "program".as_bytes() && version == "1".as_bytes() {
        Some(Statement::Header)
    } else {
        None
    }
}

fn read_end(line: &[u8]) -> Option<Statement>
    ensures { result ≡ spec.end_of (words_of line.now) }
{
    match split_word(line) {
        Some(_) => None,
        None => Some(Statement::End),
    }
}

fn read_registers(line: &[u8]) -> Option<Statement>
    ensures { result ≡ option_map says.Registers (spec.from_one_word numerals.count_of (words_of line.now)) }
{
    Some(Statement::Registers(read_count(only_word(line)?)?))
}

fn read_report(line: &[u8]) -> Option<Statement>
    ensures { result ≡ option_map says.Report (spec.from_one_word numerals.count_of (words_of line.now)) }
{
    Some(Statement::Report(read_count(only_word(line)?)?))
}

fn read_keep(line: &[u8]) -> Option<Statement>
    ensures { result ≡ option_map (λ f. says.Act (op.Keep f))
        (spec.from_one_word numerals.register_of (words_of line.now)) }
{
    let flag = read_register(only_word(line)?)?;
    Some(Statement::Act(Op::Keep { flag }))
}

fn read_scan(line: &[u8]) -> Option<Statement>
    ensures { result ≡ option_map (λ (table, t). says.Scan table t)
        (spec.from_two_words words.table_of_word numerals.register_of (words_of line.now)) }
{
    let (table, target) = two_words(line)?;
    Some(Statement::Scan {
        table: read_table(table)?,
        target: read_register(target)?,
    })
}

fn read_sort_line(line: &[u8]) -> Option<Statement>
    ensures { result ≡ option_map says.Sort (spec.sort_of (words_of line.now)) }
{
    Some(Statement::Sort(read_sort(line)?))
}

// Reads what follows a keyword.
#[tactic(auto, unfolding(crate::specs::Text::Said::by_keyword))]
fn by_keyword(alloc: Global, keyword: Keyword, line: &[u8]) -> Result<Statement, LineFault>
    ensures { Reads result (spec.by_keyword keyword (words_of line.now)) }
{
    match keyword {
        Keyword::Star => readable(read_header(line)),
        Keyword::Registers => readable(read_registers(line)),
        Keyword::Group => read_group(alloc, line),
        Keyword::Keep => readable(read_keep(line)),
        Keyword::Put => Ok(Statement::Act(read_put(alloc, line)?)),
        Keyword::Scan => readable(read_scan(line)),
        Keyword::End => readable(read_end(line)),
        Keyword::Report => readable(read_report(line)),
        Keyword::Show => Ok(Statement::Show(read_show(alloc, line)?)),
        Keyword::Sort => readable(read_sort_line(line)),
    }
}

// Reads an instruction that writes a register, from its first word and the line after it.
fn read_instruction(alloc: Global, word: &[u8], line: &[u8]) -> Result<Statement, LineFault>
    ensures { Reads result (spec.by_first None word.now (words_of line.now)) }
{
    let target = readable(read_register(word))?;
    Ok(Statement::Act(read_assigned(alloc, target, line)?))
}

#[tactic(auto, unfolding(crate::specs::Text::Said::by_words, crate::specs::Text::Keywords::keyword_of))]
fn read_words(alloc: Global, line: &[u8]) -> Result<Statement, LineFault>
    ensures { Reads result (spec.by_words (words_of line.now)) }
{
    let (word, rest) = read_first(line)?;
    match first_named(&KEYWORDS, word) {
        Some(keyword) => by_keyword(alloc, keyword, rest),
        None => read_instruction(alloc, word, rest),
    }
}

/// Reads the statement of a line, if it is one.
#[tactic(auto, unfolding(crate::specs::Text::Said::said))]
pub(crate) fn read_line(alloc: Global, line: &[u8]) -> Result<Statement, LineFault>
    ensures { Reads result (spec.said line.now) }
{
    if are_printable(line) {
        read_words(alloc, line)
    } else {
        Err(LineFault::Unreadable)
    }
}
