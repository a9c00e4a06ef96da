// A digest of the dimensions.

ghost use Rattle.std.specs.Prelude.{length, ◌<◌, ◌≡◌};
ghost use Rattle.star_schema.specs.{Database.rows_in, Schema.{kind_of, table_of}};

use sha2::{Digest, Sha256};
use star_catalogue::Catalogue;
use star_schema::{ColumnId, Kind, TableId, column_at, kind_of, table_of, width};

// Returns how far a row's number is above the least of its column, or its text's code.
fn word_at(catalogue: &Catalogue, column: ColumnId, least: i64, row: u32) -> u64
    requires { row < length (rows_in catalogue.now (table_of column)) }
{
    match kind_of(column) {
        Kind::Number => catalogue
            .number(column, row)
            .wrapping_sub(least)
            .cast_unsigned(),
        Kind::Text => catalogue.code(column, row) as u64,
    }
}

// Takes one byte of the word of each row, 256 rows at once: calls for a few bytes each would cost
// more than their digest. The bytes after the last row are those of earlier rows.
fn take_byte(digest: &mut Sha256, catalogue: &Catalogue, column: ColumnId, least: i64, byte: usize)
    requires { byte < 8 }
{
    let mut block = [0u8; 256];
    for row in 0..catalogue.rows(table_of(column)) {
        let index = row as usize % 256;
        block[index] = word_at(catalogue, column, least, row).to_le_bytes()[byte];
        if index == 255 {
            digest.update(&block[..]);
        }
    }
    digest.update(&block[..]);
}

// Takes the least number of a column, its span, and as many bytes of each word as the span needs.
fn take_words(digest: &mut Sha256, catalogue: &Catalogue, column: ColumnId, least: i64, span: u64) {
    digest.update(&least.to_le_bytes()[..]);
    digest.update(&span.to_le_bytes()[..]);
    let mut rest = span;
    for byte in 0..8 {
        if rest > 0 {
            take_byte(digest, catalogue, column, least, byte);
        }
        rest >>= 8;
    }
}

// Takes each text of a column's dictionary, and a bar after it, which no text of a table has.
fn take_dictionary(digest: &mut Sha256, catalogue: &Catalogue, column: ColumnId)
    requires { kind_of column ≡ Kind.Text }
{
    for code in 0..catalogue.entries(column) {
        digest.update(catalogue.text(column, code));
        digest.update(&b"|"[..]);
    }
}

fn take_column(digest: &mut Sha256, catalogue: &Catalogue, column: ColumnId) {
    match kind_of(column) {
        Kind::Number => {
            let bounds = catalogue.bounds(column);
            let span = bounds.high.wrapping_sub(bounds.low).cast_unsigned();
            take_words(digest, catalogue, column, bounds.low, span);
        }
        Kind::Text => {
            take_dictionary(digest, catalogue, column);
            take_words(
                digest,
                catalogue,
                column,
                0,
                catalogue.entries(column) as u64,
            );
        }
    }
}

fn take_table(digest: &mut Sha256, catalogue: &Catalogue, table: TableId) {
    digest.update(&catalogue.rows(table).to_le_bytes()[..]);
    for index in 0..width(table) {
        take_column(digest, catalogue, column_at(table, index));
    }
}

/// Returns the SHA-256 digest of the rows of the four dimensions. It names their contents only as
/// far as no two contents are found with one digest: no contract speaks of it.
pub(crate) fn digest_of(catalogue: &Catalogue) -> [u8; 32] {
    let mut digest = Sha256::new();
    take_table(&mut digest, catalogue, TableId::Date);
    take_table(&mut digest, catalogue, TableId::Customer);
    take_table(&mut digest, catalogue, TableId::Supplier);
    take_table(&mut digest, catalogue, TableId::Part);
    digest.finalize()
}
