// Five tables that are read in pieces.

ghost use Rattle.std.specs.Prelude.{IfOk, map};
ghost use Rattle.star_reader.specs.Partway.{HasReadText};
ghost use Rattle.star_catalogue.specs.{Load.texts_view, Pieces.AreRead};

use crate::texts::Texts;
use star_reader::TableReader;
use star_schema::{Limits, TableId};
use std::alloc::{AllocError, Global};

/// The readers of the five tables in order, each of which has been given its text.
#[derive(Drop)]
pub struct ReadTables {
    pub date: Box<TableReader>,
    pub customer: Box<TableReader>,
    pub supplier: Box<TableReader>,
    pub part: Box<TableReader>,
    pub lineorder: Box<TableReader>,
}

/// Returns a reader that has been given some parts.
fn given(
    alloc: Global,
    parts: &[&[u8]],
    table: TableId,
    limits: Limits,
) -> Result<Box<TableReader>, AllocError>
    ensures { IfOk result (λ reader.
        HasReadText reader.value table limits.rows (map (λ part. part.now) parts.now)) }
{
    let reader = TableReader::of_parts(alloc, parts, table, limits)?;
    Ok(Box::new(alloc, reader)?)
}

impl ReadTables {
    /// Returns the readers that have been given five texts.
    pub fn of_texts(
        alloc: Global,
        texts: &Texts<'_>,
        limits: Limits,
    ) -> Result<ReadTables, AllocError>
        ensures { IfOk result (λ read. AreRead read limits.rows (texts_view texts.now)) }
    {
        let date = given(alloc, &[texts.date], TableId::Date, limits)?;
        let customer = given(alloc, &[texts.customer], TableId::Customer, limits)?;
        let supplier = given(alloc, &[texts.supplier], TableId::Supplier, limits)?;
        let part = given(alloc, &[texts.part], TableId::Part, limits)?;
        let lineorder = given(alloc, texts.lineorder, TableId::Lineorder, limits)?;
        Ok(ReadTables {
            date,
            customer,
            supplier,
            part,
            lineorder,
        })
    }
}
