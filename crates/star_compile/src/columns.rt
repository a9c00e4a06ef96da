// Loads columns, each at its first use.

ghost use Rattle.std.specs.Prelude.{◌≡◌, IfOk};
ghost use Rattle.star_program.specs.World.{is_column};
ghost use Rattle.star_schema.specs.{Schema.is_table, declared.table.TableId.TheVariants.Lineorder};
ghost use Rattle.star_compile_laws.specs.Compiled.{foreign_of, register_in};
ghost use Rattle.star_compile.specs.Private.Emitted.{HasRegisterRoom, Writes, find_code};
ghost use Rattle.star_schema.specs.Schema as schema;
ghost use Rattle.star_compile_laws.specs.Compiled as spec;

use crate::emitter::Emitter;
use star_plan::Join;
use star_program::Operation;
use star_schema::{ColumnId, TableId, is_table, table_of};
use std::alloc::AllocError;

// Returns the register of a key, by its first entry.
fn entry<K: Copy + PartialEq>(entries: &[(K, u16)], key: K) -> Option<u16>
    ensures { result ≡ register_in K.eq entries.now key }
{
    for entry in entries {
        if key == entry.0 {
            return Some(entry.1);
        }
    }
    None
}

// Returns the register of a column, if it is loaded.
fn register_of(loaded: &[(ColumnId, u16)], column: ColumnId) -> Option<u16>
    ensures { result ≡ register_in is_column loaded.now column }
{
    entry(loaded, column)
}

// Returns the register of a table's row, if it is found.
fn row_of(found: &[(TableId, u16)], table: TableId) -> Option<u16>
    ensures { result ≡ register_in is_table found.now table }
{
    entry(found, table)
}

// Returns the foreign key by which a table is joined. A plan joins the table of each of its
// columns; the last line is the definition's default for a table that is not joined.
fn foreign_key(joins: &[Join], table: TableId) -> ColumnId
    ensures { result ≡ foreign_of joins.now table }
{
    for join in joins {
        if is_table(table, table_of(join.key)) {
            return join.foreign;
        }
    }
    ColumnId::LoOrderdate
}

impl Emitter {
    fn load(&mut self, column: ColumnId, row: u16) -> Result<u16, AllocError>
        requires room { HasRegisterRoom self.old (spec.load_code column row) }
        ensures written { IfOk result (Writes self.old self.new (spec.load_code column row)) }
    {
        let register = self.assign(Operation::Load { column, row })?;
        self.loaded.push((column, register))?;
        Ok(register)
    }

    // Finds the row of a table by a key.
    fn find(&mut self, table: TableId, key: u16) -> Result<u16, AllocError>
        requires room { HasRegisterRoom self.old (find_code table key) }
        ensures written { IfOk result (Writes self.old self.new (find_code table key)) }
    {
        let register = self.assign(Operation::Find { table, key })?;
        self.found.push((table, register))?;
        Ok(register)
    }

    // Loads a column of lineorder.
    fn fact_column(&mut self, column: ColumnId) -> Result<u16, AllocError>
        requires room { HasRegisterRoom self.old (λ env k.
            spec.fact_code column env k (register_in is_column env.loaded column)) }
        ensures written { IfOk result (Writes self.old self.new (λ env k.
            spec.fact_code column env k (register_in is_column env.loaded column))) }
    {
        match register_of(&self.loaded, column) {
            Some(register) => Ok(register),
            None => self.load(column, 0),
        }
    }

    // Returns the register of a dimension's row, which is found at its first use.
    fn row(&mut self, joins: &[Join], table: TableId) -> Result<u16, AllocError>
        requires room { HasRegisterRoom self.old (λ env k.
            spec.row_code joins.now table env k (register_in is_table env.found table)) }
        ensures written { IfOk result (Writes self.old self.new (λ env k.
            spec.row_code joins.now table env k (register_in is_table env.found table))) }
    {
        match row_of(&self.found, table) {
            Some(register) => Ok(register),
            None => {
                let key = self.fact_column(foreign_key(joins, table))?;
                self.find(table, key)
            }
        }
    }

    // Loads a column of lineorder or of a dimension's row.
    fn place(&mut self, joins: &[Join], column: ColumnId) -> Result<u16, AllocError>
        requires room { HasRegisterRoom self.old (λ env k.
            spec.place_code joins.now column env k
            (schema.is_table (schema.table_of column) Lineorder)) }
        ensures written { IfOk result (Writes self.old self.new (λ env k.
            spec.place_code joins.now column env k
            (schema.is_table (schema.table_of column) Lineorder))) }
    {
        let table = table_of(column);
        if is_table(table, TableId::Lineorder) {
            self.load(column, 0)
        } else {
            let row = self.row(joins, table)?;
            self.load(column, row)
        }
    }

    /// Returns the register of a column, which is loaded at its first use.
    pub(crate) fn column(&mut self, joins: &[Join], column: ColumnId) -> Result<u16, AllocError>
        requires room { HasRegisterRoom self.old (spec.column_code joins.now column) }
        ensures written { IfOk result (
            Writes self.old self.new (spec.column_code joins.now column)) }
    {
        match register_of(&self.loaded, column) {
            Some(register) => Ok(register),
            None => self.place(joins, column),
        }
    }
}
