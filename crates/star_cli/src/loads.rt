// The loaded tables of a folder.

ghost use Rattle.std.specs.Prelude.{◌≡◌, IfErr, IfOk, MatchResult, OnOk};
ghost use Rattle.star_schema.specs.{Database.TableTexts, Loadable.IsLoadable, Most.most_rows, Most.most_visits};
ghost use Rattle.star_catalogue.specs.Pieces.{AreRead};
ghost use Rattle.star_engine.specs.{Answered.IsUntouched, Answered.OrMemory, Answered.change, Loads.IsLoadError, Loads.loaded_of};
ghost use Rattle.star_cli.specs.{FolderLoads.IsFolderRefused, FolderLoads.IsFolderUnread, FolderLoads.IsLoadedFrom, Private.Reads.IsWidest, ReadFolders.AreReadIn, ReadFolders.AreWidelyRead};

use crate::failure::Failure;
use crate::files::read_tables;
use crate::progress::Watch;
use crate::store::Store;
use star_common::Sink;
use star_engine::{Engine, EngineFault, ReadTables};
use star_schema::Limits;
use star_service::print_fault;
use star_words::WordsFault;
use std::alloc::Global;

// An engine over the tables of a folder, which were read, under the widest limits.
pub(crate) fn engine_of(alloc: Global, read: ReadTables) -> Result<Engine, EngineFault>
    requires { AreWidelyRead read }
    ensures loaded { (texts : TableTexts) → AreRead read most_rows texts → MatchResult result
        (λ engine. IsLoadable most_rows texts
        × (engine ≡ loaded_of most_rows most_visits texts))
        (OrMemory (IsLoadError most_rows texts)) }
    ensures widest { IfOk result (λ engine. IsWidest engine) }
{
    Engine::of_read(alloc, read, Limits::widest())
}

// The tables of a folder whose name is not empty.
fn read_named<R: Store + AllocGlobal, P: Watch>(
    rt: &R,
    folder: &str,
    progress: &mut P,
) -> Result<ReadTables, Failure<'static>>
    ensures read { IfOk result (AreReadIn (R.known rt.now) folder.now) }
    ensures unread { IfErr result (IsFolderUnread (R.known rt.now) folder.now) }
{
    if folder.is_empty() {
        return Err(Failure::Words(WordsFault::EmptyFolder));
    }
    read_tables(rt, folder, progress)
}

/// Loads an engine over the tables of a folder under the widest limits. If it can't, it prints why
/// as the commands of `star` do, and returns the exit status: 2 if the folder's name is empty, 3
/// for table files that can't be loaded, 6 for a file that can't be read, 7 if memory runs out.
/// `progress` is shown how far the reading of the files is.
pub fn load_engine<R: Store + AllocGlobal, P: Watch, S: Sink, E: Sink>(
    rt: &R,
    folder: &str,
    progress: &mut P,
    out: &mut S,
    err: &mut E,
) -> Result<Engine, u8>
    ensures engine { IfOk result (IsLoadedFrom (R.known rt.now) folder.now) }
    ensures silent { OnOk result (IsUntouched (change S.contents S.is_failed out.old out.new)
        × IsUntouched (change E.contents E.is_failed err.old err.new)) }
    ensures printed { IfErr result (IsFolderRefused (R.known rt.now) folder.now
        (change S.contents S.is_failed out.old out.new)
        (change E.contents E.is_failed err.old err.new)) }
{
    let read = match read_named(rt, folder, progress) {
        Ok(read) => read,
        Err(failure) => return Err(failure.print(rt.alloc(), out, err)),
    };
    match engine_of(rt.alloc(), read) {
        Ok(engine) => Ok(engine),
        Err(unloaded) => Err(print_fault(rt.alloc(), err, &unloaded)),
    }
}
