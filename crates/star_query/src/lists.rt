// Lists with commas: items, tables, group columns and sort keys.

ghost use Rattle.std.specs.{Prelude.◌≤◌, Prelude.Result, Prelude.length, Prelude.OnOk, declared.alloc.Global.Global, declared.vec.Vec.Vec};
ghost use Rattle.star_query.specs.{Private.Clauses.{NoComma, ReadsColumn, ReadsColumns, ReadsItem, ReadsItems, ReadsKey, ReadsKeyList, ReadsTable, ReadsTables}, Private.Lists.{IsListOf, columns_listed, items_listed, keys_listed, tables_listed}, declared.fault.ParseError.ParseError, Private.Reads.{Spot, spot_of}};

use crate::counts::Part;
use crate::fault::ParseError;
use crate::parser::Parser;
use crate::token::Sign;
use crate::tree::{Item, Name, SortKey};

// A list with commas, of elements that are read one by one.
pub(crate) trait Listing {
    type Element: Drop;

    // What reading an element does, and what reading the list does.
    ghost ReadsOne: { Spot → Spot → Result Self.Element ParseError → Type 0 };

    ghost ReadsAll: { Spot → Spot → Result (Vec Self.Element Global) ParseError → Type 0 };

    fn read(parser: &mut Parser<'_>) -> Result<Self::Element, ParseError>
        ensures reads { ReadsOne (spot_of parser.old) (spot_of parser.new) result }
        ensures shorter { length parser.new.rest.now ≤ length parser.old.rest.now };

    // What each list has here is proved among the definitions (`specs/Private/Lists.antt`), since
    // an `impl` may name nothing else of its own crate.
    ghost is_list: { IsListOf ReadsOne ReadsAll };
}

// item {, item}
pub(crate) struct Items;

impl Listing for Items {
    type Element = Item;

    ghost ReadsOne = { ReadsItem };

    ghost ReadsAll = { ReadsItems };

    ghost is_list = { items_listed };

    fn read(parser: &mut Parser<'_>) -> Result<Item, ParseError> {
        parser.item()
    }
}

// name {, name}
pub(crate) struct Tables;

impl Listing for Tables {
    type Element = Name;

    ghost ReadsOne = { ReadsTable };

    ghost ReadsAll = { ReadsTables };

    ghost is_list = { tables_listed };

    fn read(parser: &mut Parser<'_>) -> Result<Name, ParseError> {
        parser.name()
    }
}

// The columns of a group.
pub(crate) struct Columns;

impl Listing for Columns {
    type Element = Name;

    ghost ReadsOne = { ReadsColumn };

    ghost ReadsAll = { ReadsColumns };

    ghost is_list = { columns_listed };

    fn read(parser: &mut Parser<'_>) -> Result<Name, ParseError> {
        parser.counted_name(Part::GroupColumn)
    }
}

// key {, key}
pub(crate) struct Keys;

impl Listing for Keys {
    type Element = SortKey;

    ghost ReadsOne = { ReadsKey };

    ghost ReadsAll = { ReadsKeyList };

    ghost is_list = { keys_listed };

    fn read(parser: &mut Parser<'_>) -> Result<SortKey, ParseError> {
        parser.key()
    }
}

impl<'a> Parser<'a> {
    // One element, and more after commas.
    pub(crate) fn several<L: Listing>(&mut self) -> Result<Vec<L::Element>, ParseError>
        ensures reads { L.ReadsAll (spot_of self.old) (spot_of self.new) result }
        ensures ends { OnOk result (NoComma (spot_of self.new)) }
    {
        let mut several = Vec::new(self.alloc);
        let first = L::read(self)?;
        several.push(first)?;
        while self.take(Sign::Comma) {
            let next = L::read(self)?;
            several.push(next)?;
        }
        Ok(several)
    }
}
