// A query from its tokens, by recursive descent: the next token, the counts, names, numbers and
// texts.

ghost use Rattle.std.specs.{Prelude.{◌≡◌, ◌≤◌, Some, [], ◌∷◌, ◌-◌, length, map, drop, option_to_list, IfErr, IfOk, IfSome, IfNone}, Bool.{OnTrue, OnFalse}};
ghost use Rattle.star_query.specs.{Private.Reads.{spot_of, head_of, next_kind, Takes, No, Expects, Counted, NoName, NoNumber, IsName, IsNumber, ReadsName, ReadsNumber, ReadsText, Nests}, Views.tree_view, Private.Lexed.placed, Derives.{Derives, first_offset}, Private.TokenFaults.{IsTokenFault, IsTreeRead, query_fault}};
ghost use Rattle.star_query.specs.Symbols as symbols;
ghost use Rattle.star_query.specs.Tree as tree;
ghost use Rattle.star_query.specs.Private.Cut as spec;

use crate::counts::{Counts, MAX_DEPTH, MAX_NAME, Part};
use crate::fault::{Fault, ParseError, QueryFault};
use crate::terminals::Terminal;
use crate::token::{Digits, Kind, Token};
use crate::tree::{Name, Tree};
use std::alloc::{AllocError, Global};

#[derive(Drop)]
pub(crate) struct Parser<'a> {
    pub(crate) alloc: Global,
    pub(crate) rest: &'a [Token<'a>],
    counts: Counts,
}

impl<'a> Parser<'a> {
    // The next token.
    fn peek(&self) -> Option<Kind<'a>>
        ensures { result ≡ next_kind self.now.rest.now }
    {
        self.rest.first().map(|token| token.kind)
    }

    // Which of these is next, if one is.
    fn peek_terminal<T: Terminal>(&self) -> Option<T>
        ensures found { IfSome result (λ next. head_of (spot_of self.now).rest
            ≡ Some (T.symbol next)) }
        ensures other { IfNone result ((x : T) → No (T.symbol x) (spot_of self.now)) }
    {
        T::of(self.rest.first()?)
    }

    fn is_next<T: Terminal>(&self, wanted: T) -> bool
        ensures found { OnTrue result (head_of (spot_of self.now).rest ≡ Some (T.symbol wanted)) }
        ensures other { OnFalse result (No (T.symbol wanted) (spot_of self.now)) }
    {
        self.peek_terminal() == Some(wanted)
    }

    // Goes past this, if it is next.
    pub(crate) fn take<T: Terminal>(&mut self, wanted: T) -> bool
        ensures taken { OnTrue result (Takes (spot_of self.old) (spot_of self.new)
            (T.symbol wanted) []) }
        ensures other { OnFalse result (No (T.symbol wanted) (spot_of self.old)
            × (spot_of self.new ≡ spot_of self.old)) }
        ensures shorter { length self.new.rest.now ≤ length self.old.rest.now }
    {
        let is_next = self.is_next(wanted);
        if is_next {
            self.rest = &self.rest[1..];
        }
        is_next
    }

    // Goes past one of these, if one is next.
    pub(crate) fn take_any<T: Terminal>(&mut self) -> Option<T>
        ensures taken { IfSome result (λ next. Takes (spot_of self.old) (spot_of self.new)
            (T.symbol next) []) }
        ensures other { IfNone result (((x : T) → No (T.symbol x) (spot_of self.old))
            × (spot_of self.new ≡ spot_of self.old)) }
        ensures shorter { length self.new.rest.now ≤ length self.old.rest.now }
    {
        let next = self.peek_terminal()?;
        self.rest = &self.rest[1..];
        Some(next)
    }

    // Goes past this, which has to be next.
    pub(crate) fn expect<T: Terminal>(&mut self, wanted: T) -> Result<(), ParseError>
        ensures reads { Expects (T.symbol wanted) (spot_of self.old) (spot_of self.new) result }
        ensures shorter { length self.new.rest.now ≤ length self.old.rest.now }
    {
        if self.take(wanted) {
            Ok(())
        } else {
            Err(ParseError::Fault(Fault::Unexpected))
        }
    }

    // One more of a part.
    pub(crate) fn count(&mut self, part: Part) -> Result<(), ParseError>
        ensures { Counted part (spot_of self.old) (spot_of self.new) result }
    {
        if self.counts.number(part) >= part.limit() {
            return Err(ParseError::Fault(Fault::TooMany));
        }
        self.counts.bump(part);
        Ok(())
    }

    pub(crate) fn is_name(&self) -> bool
        ensures found { OnTrue result (IsName (spot_of self.now).rest) }
        ensures other { OnFalse result (NoName (spot_of self.now).rest) }
    {
        matches!(self.peek(), Some(Kind::Name(_)))
    }

    pub(crate) fn is_number(&self) -> bool
        ensures found { OnTrue result (IsNumber (spot_of self.now).rest) }
        ensures other { OnFalse result (NoNumber (spot_of self.now).rest) }
    {
        matches!(self.peek(), Some(Kind::Number(_)))
    }

    // A name.
    #[tactic(auto, using(crate::proofs::Counting::long_word))]
    pub(crate) fn name(&mut self) -> Result<Name, ParseError>
        ensures reads { ReadsName [] (spot_of self.old) (spot_of self.new) result }
        ensures shorter { length self.new.rest.now ≤ length self.old.rest.now }
    {
        let Some(Kind::Name(word)) = self.peek() else {
            return Err(ParseError::Fault(Fault::Unexpected));
        };
        if word.len() > MAX_NAME {
            return Err(ParseError::Fault(Fault::TooMany));
        }
        let text = word.to_ascii_lowercase(self.alloc)?;
        let offset = self.rest[0].offset;
        self.rest = &self.rest[1..];
        Ok(Name { text, offset })
    }

    // A number.
    pub(crate) fn number(&mut self) -> Result<Digits, ParseError>
        ensures reads { ReadsNumber [] (spot_of self.old) (spot_of self.new) result }
        ensures shorter { length self.new.rest.now ≤ length self.old.rest.now }
    {
        let Some(Kind::Number(digits)) = self.peek() else {
            return Err(ParseError::Fault(Fault::Unexpected));
        };
        self.rest = &self.rest[1..];
        Ok(digits)
    }

    // A name at which a part begins.
    pub(crate) fn counted_name(&mut self, part: Part) -> Result<Name, ParseError>
        ensures reads { ReadsName (part ∷ []) (spot_of self.old) (spot_of self.new) result }
        ensures shorter { length self.new.rest.now ≤ length self.old.rest.now }
    {
        if !self.is_name() {
            return Err(ParseError::Fault(Fault::Unexpected));
        }
        self.count(part)?;
        self.name()
    }

    // A number at which a part begins.
    pub(crate) fn counted_number(&mut self, part: Part) -> Result<Digits, ParseError>
        ensures reads { ReadsNumber (part ∷ []) (spot_of self.old) (spot_of self.new) result }
        ensures shorter { length self.new.rest.now ≤ length self.old.rest.now }
    {
        if !self.is_number() {
            return Err(ParseError::Fault(Fault::Unexpected));
        }
        self.count(part)?;
        self.number()
    }

    // What a text says.
    pub(crate) fn text(&mut self) -> Result<Vec<u8>, ParseError>
        ensures reads { ReadsText (spot_of self.old) (spot_of self.new) result }
        ensures shorter { length self.new.rest.now ≤ length self.old.rest.now }
    {
        let Some(Kind::Text(inside)) = self.peek() else {
            return Err(ParseError::Fault(Fault::Unexpected));
        };
        let text = unquoted(self.alloc, inside)?;
        self.rest = &self.rest[1..];
        Ok(text)
    }

    // Goes past this, which opens a nesting, if it is next. A part may begin there.
    pub(crate) fn nest<T: Terminal>(
        &mut self,
        opening: T,
        part: Option<Part>,
        depth: u32,
    ) -> Result<bool, ParseError>
        ensures reads { Nests (T.symbol opening) (option_to_list part) depth (spot_of self.old)
            (spot_of self.new) result }
        ensures shorter { length self.new.rest.now ≤ length self.old.rest.now }
    {
        if !self.is_next(opening) {
            return Ok(false);
        }
        if depth >= MAX_DEPTH {
            return Err(ParseError::Fault(Fault::TooDeep));
        }
        if let Some(part) = part {
            self.count(part)?;
        }
        self.rest = &self.rest[1..];
        Ok(true)
    }
}

// What a text says, of whose quotes each is doubled.
fn unquoted(alloc: Global, inside: &[u8]) -> Result<Vec<u8>, AllocError>
    ensures { IfOk result (λ text. text.items ≡ spec.undoubled inside.now) }
{
    let mut text = Vec::new(alloc);
    let mut doubled = false;
    for byte in inside {
        if doubled {
            doubled = false;
        } else {
            text.push(*byte)?;
            doubled = *byte == b'\'';
        }
    }
    Ok(text)
}

// The tree of tokens, or their first fault, in a text of this length.
pub(crate) fn parse_tokens(
    alloc: Global,
    tokens: &[Token<'_>],
    end: usize,
) -> Result<Tree, QueryFault>
    ensures found { IfOk result (λ read. Derives (symbols.symbols (map placed tokens.now))
        (tree_view read)) }
    ensures only { (t : tree.Tree) → Derives (symbols.symbols (map placed tokens.now)) t
        → IsTreeRead t result }
    ensures fault { IfErr result (IsTokenFault (map placed tokens.now) end) }
{
    let mut parser = Parser {
        alloc,
        rest: tokens,
        counts: Counts::new(),
    };
    let read = parser.query();
    match read {
        Ok(tree) => Ok(tree),
        Err(error) => {
            let passed = count_passed(tokens, parser.rest);
            let at = offset_at(tokens, passed, end);
            Err(fault_of(error, at))
        }
    }
}

// A fault, with its position if it has one.
fn fault_of(error: ParseError, at: usize) -> QueryFault
    ensures { result ≡ query_fault error at }
{
    match error {
        ParseError::OutOfMemory => QueryFault::OutOfMemory,
        ParseError::Fault(Fault::Unexpected) => QueryFault::Unexpected { at },
        ParseError::Fault(Fault::TooDeep) => QueryFault::TooDeep,
        ParseError::Fault(Fault::TooMany) => QueryFault::TooMany,
    }
}

fn count_passed(tokens: &[Token<'_>], rest: &[Token<'_>]) -> usize
    ensures { result ≡ length tokens.now - length rest.now }
{
    tokens.len().saturating_sub(rest.len())
}

// The position at which the tokens after the first `passed` begin.
fn offset_at(tokens: &[Token<'_>], passed: usize, end: usize) -> usize
    ensures { result ≡ first_offset (drop passed (map placed tokens.now)) end }
{
    if passed < tokens.len() {
        tokens[passed].offset
    } else {
        end
    }
}
