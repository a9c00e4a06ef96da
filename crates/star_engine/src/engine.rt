// Five tables that are loaded once and queried often.

ghost use Rattle.std.specs.Prelude.{◌≡◌, ◌≤◌, ◌^◌, ◌↔◌, ℕ, Bool, true, List, IfErr, IfOk, IsTrue, MatchResult, string_bytes};
ghost use Rattle.star_schema.specs.{Database.TableTexts, Loadable.IsLoadable, Loadable.database_of};
ghost use Rattle.star_catalogue.specs.{Load.texts_view, Pieces.AreRead, Pieces.AreReadSome, Pieces.IsReadNextTo, Pieces.with_lineorder_text};
ghost use Rattle.star_partial.specs.Contents.{contents_of};
ghost use Rattle.star_engine.specs.{Answered.{IsAnswered, OrMemory, change}, Bench.{AllFit, IsBenchOver}, Listing.IsListingOver, Loads.{AreLoadedRows, AreOfLoadableTexts, IsLoadError, loaded_of}, Partials.IsPartialOver, Queries.IsQueryError, WithNotes.IsAnsweredWithNotes, Questions.Asks, QuoteTexts.IsQuoteOfKindOver, RunTexts.{IsForecastErrorOfKind, IsForecastOfKind, IsRunOfKind, run_text_of}, Trials.{IsBoundedReport, IsTrialErrorOver}};

use crate::benchmark::bench_of;
use crate::executions::{
    RunOutput, checked, execute, forecast, report_of, run_checked, write_text,
};
use crate::fault::EngineFault;
use crate::notes::program_note;
use crate::partials::partial_of;
use crate::query_laws::each_query_has_laws;
use crate::question::Question;
use star_catalogue::{Catalogue, ReadTables, Texts};
use star_common::Sink;
use star_partial::{Partial, list_tables};
use star_reader::TableReader;
use star_schema::Limits;
use star_verify::{Facts, Verified};
use std::alloc::Global;
use std::marker::Model;

/// The rows of five loaded tables, and the limits of their queries. A contract sees the rows of
/// each table, the limit on rows of the load, and the limit on visits. No call changes an engine;
/// equal calls return equal results.
pub struct Engine {
    catalogue: Catalogue,
    limits: Limits,
}

impl Drop for Engine {
    fn drop(self) {
        let Self { catalogue, limits } = self;
    }
}

impl Model for Engine {
    ghost use Rattle.star_engine.specs.Loads.{AreOfLoadableTexts, Loaded};

    ghost Value = { Loaded };

    ghost view = { λ engine. record {
      database = engine.catalogue;
      rows = engine.limits.rows;
      visits = engine.limits.visits;
    } };

    ghost invariant = { λ engine. AreOfLoadableTexts engine.limits.rows engine.catalogue };
}

// Returns the catalogue of the tables that five readers were given.
fn load_read(alloc: Global, read: ReadTables) -> Result<Catalogue, EngineFault>
    requires { AreReadSome read }
    ensures { (most : ℕ) (texts : TableTexts) → AreRead read most texts → MatchResult result
        (λ catalogue. IsLoadable most texts × (catalogue ≡ database_of texts))
        (OrMemory (IsLoadError most texts)) }
{
    Ok(Catalogue::finish(alloc, read)?)
}

// Returns the catalogue of the same dimensions and the lineorder that a reader was given.
fn load_next(
    alloc: Global,
    catalogue: Catalogue,
    reader: Box<TableReader>,
) -> Result<Catalogue, EngineFault>
    requires { (most : ℕ) × (texts : TableTexts) × (text : List (List ℕ))
        × IsReadNextTo catalogue reader.value most texts text }
    ensures { (most : ℕ) (texts : TableTexts) (text : List (List ℕ))
        → IsReadNextTo catalogue reader.value most texts text
        → let all = with_lineorder_text texts text in MatchResult result
        (λ loaded. IsLoadable most all × (loaded ≡ database_of all))
        (OrMemory (IsLoadError most all)) }
{
    Ok(catalogue.with_lineorder(alloc, reader)?)
}

impl Engine {
    /// Loads the tables of five texts under `limits`, or returns their first error. The texts are
    /// not needed afterwards.
    pub fn load(alloc: Global, texts: &Texts<'_>, limits: Limits) -> Result<Engine, EngineFault>
        ensures loadable { IfOk result (λ engine. IsLoadable limits.rows (texts_view texts.now)) }
        ensures loaded { IfOk result
            (λ engine. engine ≡ loaded_of limits.rows limits.visits (texts_view texts.now)) }
        ensures refused { IfErr result (OrMemory (IsLoadError limits.rows (texts_view texts.now))) }
    {
        let read = ReadTables::of_texts(alloc, texts, limits)?;
        Engine::of_read(alloc, read, limits)
    }

    /// Loads the tables that five readers were given in pieces, under `limits`. The readers have
    /// the same limit on rows. Returns the first error, as `load` does.
    pub fn of_read(alloc: Global, read: ReadTables, limits: Limits) -> Result<Engine, EngineFault>
        requires { (texts : TableTexts) × AreRead read limits.rows texts }
        ensures loadable { (texts : TableTexts) → AreRead read limits.rows texts
            → IfOk result (λ engine. IsLoadable limits.rows texts) }
        ensures loaded { (texts : TableTexts) → AreRead read limits.rows texts
            → IfOk result (λ engine. engine ≡ loaded_of limits.rows limits.visits texts) }
        ensures refused { (texts : TableTexts) → AreRead read limits.rows texts
            → IfErr result (OrMemory (IsLoadError limits.rows texts)) }
    {
        let catalogue = load_read(alloc, read)?;
        Ok(Engine { catalogue, limits })
    }

    /// Returns an engine over the same dimensions and the lineorder that a reader was given in
    /// pieces, or the first error, as `of_read` does. The reader has the same limit on rows.
    pub fn with_lineorder(
        self,
        alloc: Global,
        reader: Box<TableReader>,
    ) -> Result<Engine, EngineFault>
        requires { (texts : TableTexts) × (text : List (List ℕ))
            × IsReadNextTo self.database reader.value self.rows texts text }
        ensures loadable { (texts : TableTexts) (text : List (List ℕ))
            → IsReadNextTo self.database reader.value self.rows texts text
            → IfOk result (λ engine. IsLoadable self.rows (with_lineorder_text texts text)) }
        ensures loaded { (texts : TableTexts) (text : List (List ℕ))
            → IsReadNextTo self.database reader.value self.rows texts text → IfOk result
            (λ engine. engine ≡ loaded_of self.rows self.visits (with_lineorder_text texts text)) }
        ensures refused { (texts : TableTexts) (text : List (List ℕ))
            → IsReadNextTo self.database reader.value self.rows texts text
            → IfErr result (OrMemory (IsLoadError self.rows (with_lineorder_text texts text))) }
    {
        let Engine { catalogue, limits } = self;
        let loaded = load_next(alloc, catalogue, reader)?;
        Ok(Engine {
            catalogue: loaded,
            limits,
        })
    }

    /// States the properties of every engine: its rows are those of texts that can be loaded. Each
    /// row has a value of the right type for each column. The keys of each table are distinct, and
    /// each foreign key refers to a row. The bounds of the numeric columns have 64 bits.
    pub fn law(&self)
        ensures of_texts { AreOfLoadableTexts self.now.rows self.now.database }
        ensures loaded { AreLoadedRows self.now.database }
    {
        self.catalogue.law();
    }

    /// Writes the row count of each table and the bounds of its numeric columns to `out`.
    pub fn check<S: Sink>(&self, alloc: Global, out: &mut S) -> Result<(), EngineFault>
        ensures { IsAnswered (change S.contents S.is_failed out.old out.new)
            (IsListingOver self.now.database) (λ fault. ⊥) result }
    {
        let facts = Facts::of(&self.catalogue);
        let text = list_tables(alloc, facts.sizes, &facts.bounds)?;
        write_text(out, text.as_bytes())
    }

    /// Answers a question: writes its report to `out`.
    ///
    /// The note of the quote goes to `notes` before the question is checked; a query's quote is
    /// lineorder's row count. The note of the run's counts follows the report. A query that does
    /// not fit the tables is refused. A program is refused if it is not admissible over the tables,
    /// or if its quote exceeds the limit.
    pub fn answer<S: Sink, N: Sink>(
        &self,
        alloc: Global,
        question: Question,
        out: &mut S,
        notes: &mut N,
    ) -> Result<(), EngineFault>
        ensures { (is_program : Bool) (file : List ℕ) → Asks is_program file question
            → IsAnsweredWithNotes (change S.contents S.is_failed out.old out.new)
            (change N.contents N.is_failed notes.old notes.new)
            (IsQuoteOfKindOver is_program self.now.database file)
            (IsRunOfKind is_program self.now.visits self.now.database file)
            (IsForecastErrorOfKind is_program self.now.visits self.now.database file) result }
    {
        each_query_has_laws(&self.catalogue);
        let program = question.program;
        execute(alloc, &self.catalogue, program, self.limits, out, notes)
    }

    /// Returns the report and the notes that `answer` writes.
    pub fn report(&self, alloc: Global, question: Question) -> Result<RunOutput, EngineFault>
        ensures { (is_program : Bool) (file : List ℕ) → Asks is_program file question
            → MatchResult result (λ ran.
            IsRunOfKind is_program self.now.visits self.now.database file (run_text_of ran))
            (OrMemory (IsForecastErrorOfKind is_program self.now.visits self.now.database file)) }
    {
        each_query_has_laws(&self.catalogue);
        run_checked(alloc, &self.catalogue, question.program, self.limits)
    }

    /// Returns the line of a question that is checked but not run: its quote, and the maximum
    /// number of rows of its report. The question is refused as by `answer`.
    pub fn forecast(&self, alloc: Global, question: Question) -> Result<String, EngineFault>
        ensures { (is_program : Bool) (file : List ℕ) → Asks is_program file question
            → MatchResult result (λ line.
            IsForecastOfKind is_program self.now.visits self.now.database file (string_bytes line))
            (OrMemory (IsForecastErrorOfKind is_program self.now.visits self.now.database file)) }
    {
        each_query_has_laws(&self.catalogue);
        forecast(alloc, &self.catalogue, question.program, self.limits)
    }

    /// Writes the quote of a question over the loaded tables to `out`. Nothing is checked against
    /// the tables.
    pub fn quote<S: Sink>(
        &self,
        alloc: Global,
        question: &Question,
        out: &mut S,
    ) -> Result<(), EngineFault>
        ensures { (is_program : Bool) (file : List ℕ) → Asks is_program file question.now
            → IsAnswered (change S.contents S.is_failed out.old out.new)
            (IsQuoteOfKindOver is_program self.now.database file) (λ fault. ⊥) result }
    {
        each_query_has_laws(&self.catalogue);
        let note = program_note(alloc, &self.catalogue, &question.program)?;
        write_text(out, note.as_bytes())
    }

    /// Runs a program over the loaded tables without verifying it, for at most `visits` visits, and
    /// writes its report to `out`. The engine's own limit on visits is not used.
    pub fn trial<S: Sink>(
        &self,
        alloc: Global,
        question: &Question,
        visits: u64,
        out: &mut S,
    ) -> Result<(), EngineFault>
        requires { visits ≤ 10 ^ 15 }
        ensures { (file : List ℕ) → Asks true file question.now
            → IsAnswered (change S.contents S.is_failed out.old out.new)
            (IsBoundedReport self.now.database file visits)
            (IsTrialErrorOver self.now.database file visits) result }
    {
        let report = report_of(alloc, &self.catalogue, &question.program, visits)?;
        write_text(out, report.as_slice())
    }

    /// Returns the partial of a query over the loaded tables: their row counts, bounds and span of keys,
    /// and the outcome of the query's plain program, if the query fits.
    pub fn partial(&self, alloc: Global, query: &[u8]) -> Result<Partial, EngineFault>
        ensures { MatchResult result (λ partial.
            IsPartialOver self.now.visits self.now.database query.now (contents_of partial))
            (OrMemory (IsQueryError query.now)) }
    {
        partial_of(alloc, &self.catalogue, query, self.limits)
    }

    /// Verifies a question over the loaded tables, for runs that are measured.
    pub fn verify(&self, alloc: Global, question: Question) -> Result<Verified<'_>, EngineFault>
        ensures { IfOk result (λ verified. (verified.database ≡ self.now.database)
            × (verified.program ≡ question.program)) }
    {
        checked(alloc, &self.catalogue, question.program, self.limits)
    }

    /// Answers the thirteen queries of the benchmark over the loaded tables. For each it writes the
    /// query's name with its quote, then its report or one line with its refusal. The whole text is
    /// made before any of it is written. Returns whether no query was refused. The only errors are
    /// out of memory and a failed write.
    pub fn bench<S: Sink>(&self, alloc: Global, out: &mut S) -> Result<bool, EngineFault>
        ensures answered { IsAnswered (change S.contents S.is_failed out.old out.new)
            (IsBenchOver self.now.visits self.now.database) (λ fault. ⊥) result }
        ensures fits { IfOk result
            (λ fits. IsTrue fits ↔ AllFit self.now.visits self.now.database) }
    {
        let found = bench_of(alloc, &self.catalogue, self.limits)?;
        write_text(out, found.text.as_slice())?;
        Ok(found.fits)
    }
}
