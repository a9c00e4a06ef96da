//! Laws of reports: functions with empty bodies, whose clauses are the laws.

ghost use Rattle.std.specs.Prelude.{◌≡◌, ℕ, List};
ghost use Rattle.star_schema.specs.{Database.Database, Database.TableTexts, Loadable.IsLoadable, Loadable.database_of};
ghost use Rattle.star_engine.specs.{declared.fault.EngineFault.EngineFault, Executions.IsRunOf, Executions.IsRunOver, Executions.IsRunError, Executions.IsRunErrorOver, Loads.AreLoadedRows, WithNotes.RunText, Trials.IsBoundedReport};

/// States that no two texts are reports of one file, run over the same tables with the same bound.
pub fn one_report()
    ensures { (database : Database) (file : List ℕ) (visits : ℕ) (report other : List ℕ)
        → IsBoundedReport database file visits report → IsBoundedReport database file visits other
        → report ≡ other }
{}

/// States that no error is due if a report of a file's program and its notes are due, over the same
/// rows or texts, under the same limits.
pub fn reported_files_have_no_fault()
    ensures over_rows { (visits : ℕ) (database : Database) (file : List ℕ)
        (run : RunText) (fault : EngineFault) → IsRunOver visits database file run
        → ¬ IsRunErrorOver visits database file fault }
    ensures of_texts { (most visits : ℕ) (texts : TableTexts) (file : List ℕ)
        (run : RunText) (fault : EngineFault) → IsRunOf most visits texts file run
        → ¬ IsRunError most visits texts file fault }
{}

/// States that the rows of five texts that can be loaded are as a load leaves them.
pub fn loadable_texts_hold_loaded_rows()
    ensures { (most : ℕ) (texts : TableTexts)
        → IsLoadable most texts → AreLoadedRows (database_of texts) }
{}
