// What is known of files determines what is read.

ghost use Rattle.std.specs.Prelude.{◌≡◌, ◌≢◌, ℕ, List, None};
ghost use Rattle.star_schema.specs.{Database.TableTexts, declared.table.TableId.TableId};
ghost use Rattle.star_cli.specs.Stores.{AreTablesIn, Known};

/// If it is known of each path which file is there, or that none is, a folder has one set of tables.
pub fn known_folders_have_one_database()
    ensures { (known : Known) (folder : List ℕ) (one other : TableTexts)
        → ((path : List ℕ) → known path ≢ None) → AreTablesIn known folder one
        → AreTablesIn known folder other → (table : TableId) → one table ≡ other table }
{}
