//! Laws of texts of tables: functions with no body, whose clauses are the laws.

ghost use Rattle.std.specs.Prelude.{◌≡◌, ◌↔◌, ◌++◌, ℕ, List, None};
ghost use Rattle.star_schema.specs.{Records.records_of, Tables.IsTable, declared.table.TableId.TableId};
ghost use Rattle.star_reader.specs.{Faults.records_fault, Faults.text_fault, Pieces.fault_from, Pieces.joined_pieces, Pieces.records_from};

/// However a text is cut into pieces, in mid-record too, its records are those that end in each
/// piece after what the pieces before left open, and at last the record that is left open; and the
/// first fault of them is the first fault of the text's records.
pub fn any_cut_gives_the_records_of_the_text()
    ensures records { (carried : List ℕ) (pieces : List (List ℕ))
        → records_from carried pieces ≡ records_of (carried ++ joined_pieces pieces) }
    ensures fault { (table : TableId) (most from : ℕ) (carried : List ℕ) (pieces : List (List ℕ))
        → fault_from table most from carried pieces
        ≡ records_fault table most from (records_of (carried ++ joined_pieces pieces)) }
{}

/// A text in parts has no fault exactly if it is a table of at most `most` rows.
pub fn texts_without_a_fault_are_tables()
    ensures { (table : TableId) (most : ℕ) (parts : List (List ℕ))
        → (text_fault table most parts ≡ None) ↔ IsTable table most parts }
{}
