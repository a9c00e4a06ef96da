// The files and folders that a command reads.

ghost use Rattle.std.specs.Prelude.{◌≡◌, ◌≤◌, ◌⊎◌, None, IfErr, IfOk, IfSome, OnOk, option_map, string_bytes, vec_len};
ghost use Rattle.star_schema.specs.declared.table.TableId.{TableId};
ghost use Rattle.star_cli.specs.{Private.Reads.{AreAllRead, ArePartsFed, ArePartsUnread, IsFed, IsLineorderFed, IsLineorderRead, IsLineorderUnread, IsReadIn, IsTableUnread, failure_named, name_of}, Stores.{IsAt, IsFile, IsGivenFile, part_name, path_in, table_name}, Failures.IsReadError, FolderLoads.AreTablesUnread, ReadFolders.{AreReadIn, AreWidelyRead, HasReadSome}, declared.failure.Failure.TheVariants.{OutOfMemory, Part}};

use crate::failure::Failure;
use crate::progress::{TableFile, Watch, Watched};
use crate::store::Store;
use star_engine::{FileFault, Input, ReadTables, TableReader, read_expected, read_part, sample};
use star_schema::{Limits, TableId};
use std::alloc::{AllocError, Global};
use std::fs::OpenFile;
use std::rt::Files;
use std::{fs, io};

/// The most bytes that a table file, or a part of one, may have.
const MOST_TABLE_BYTES: u64 = 1_000_000_000_000;

/// The most parts that lineorder may have.
const MOST_PARTS: u16 = 1_000;

/// The most bytes that the file of a program may have.
const MOST_FILE_BYTES: u64 = 16_777_216;

// The size that the system reports of an open file, if it is a regular file.
fn reported_size(file: &impl OpenFile) -> u64 {
    match file.metadata() {
        Ok(metadata) if metadata.is_file() => metadata.len(),
        _ => 0,
    }
}

// The bytes of a file of at most `most` bytes, if it is there. It is opened once. A file with a
// size above that is not read: it may be sparse, and larger than any memory.
fn read_there<R: Store + AllocGlobal>(
    rt: &R,
    path: &str,
    most: u64,
) -> Result<Option<Vec<u8>>, FileFault>
    ensures at { IfOk result
        (λ read. IsAt (R.known rt.now) path.now (option_map (λ bytes. bytes.items) read)) }
    ensures within { IfOk result (λ read. IfSome read (λ bytes. vec_len bytes ≤ most)) }
{
    let Some(file) = rt.open_there(path)? else {
        return Ok(None);
    };
    let expected = reported_size(&file);
    if expected > most {
        return Err(FileFault::Failed);
    }
    let mut input = Input::new(file);
    let bytes = read_expected(rt.alloc(), &mut input, most, expected)?;
    Ok(Some(bytes))
}

// The failure of a fault: out of memory, or else the failure that names the file.
fn failure_of(fault: FileFault, named: Failure<'_>) -> Failure<'_>
    ensures { (result ≡ OutOfMemory) ⊎ (result ≡ named.entry) }
{
    match fault {
        FileFault::Memory => Failure::OutOfMemory,
        FileFault::Failed => named,
    }
}

// Reads a file of at most `most` bytes, which a failure names as the words do.
fn read_at_most<'a, R: Store + AllocGlobal>(
    rt: &R,
    path: &'a str,
    most: u64,
) -> Result<Vec<u8>, Failure<'a>>
    ensures read { IfOk result (λ bytes. IsFile (R.known rt.now) most path.now bytes.items) }
    ensures unread { IfErr result (IsReadError path.now) }
{
    match read_there(rt, path, most) {
        Ok(Some(bytes)) => Ok(bytes),
        Ok(None) => Err(Failure::File(path)),
        Err(fault) => Err(failure_of(fault, Failure::File(path))),
    }
}

/// Reads the file of a query or a program.
pub(crate) fn read_file<'a, R: Store + AllocGlobal>(
    rt: &R,
    path: &'a str,
) -> Result<Vec<u8>, Failure<'a>>
    ensures read { IfOk result (λ bytes. IsGivenFile (R.known rt.now) path.now bytes.items) }
    ensures unread { IfErr result (IsReadError path.now) }
{
    read_at_most(rt, path, MOST_FILE_BYTES)
}

/// Reads the file of a partial.
pub(crate) fn read_partial_file<'a, R: Store + AllocGlobal>(
    rt: &R,
    path: &'a str,
) -> Result<Vec<u8>, Failure<'a>> {
    read_at_most(rt, path, MOST_TABLE_BYTES)
}

// The failure that names a file of a table.
fn named(file: TableFile) -> Failure<'static>
    ensures { result ≡ failure_named file }
{
    match file {
        TableFile::Named(name) => Failure::File(name),
        TableFile::Part(number) => Failure::Part(number),
    }
}

// The path of a file of a table in a folder.
fn path_of(alloc: Global, folder: &str, file: TableFile) -> Result<String, AllocError>
    ensures { IfOk result (λ path. string_bytes path ≡ path_in folder.now (name_of file)) }
{
    format!(in alloc; "{folder}/{file}")
}

// Gives a reader of a table the bytes of a file as one more part, if it is there, and returns
// whether it is. The file is opened once, and read in pieces. One with a size above the bound is
// not read.
fn feed_there<R: Store + AllocGlobal, P: Watch>(
    rt: &R,
    path: &str,
    file: TableFile,
    reader: &mut TableReader,
    progress: &mut P,
) -> Result<bool, FileFault>
    ensures { IfOk result
        (λ is_there. IsFed (R.known rt.now) path.now is_there reader.old reader.new) }
{
    let Some(opened) = rt.open_there(path)? else {
        return Ok(false);
    };
    let size = reported_size(&opened);
    if size > MOST_TABLE_BYTES {
        return Err(FileFault::Failed);
    }
    let watched = Watched::new(opened, file, size, progress);
    read_part(
        rt.alloc(),
        &mut Input::new(watched),
        reader,
        MOST_TABLE_BYTES,
    )?;
    Ok(true)
}

// Gives a reader of a table a file of it in the folder, and returns whether it is there.
fn feed_file<R: Store + AllocGlobal, P: Watch>(
    rt: &R,
    folder: &str,
    file: TableFile,
    reader: &mut TableReader,
    progress: &mut P,
) -> Result<bool, Failure<'static>>
    ensures fed { IfOk result (λ is_there. IsFed (R.known rt.now)
        (path_in folder.now (name_of file)) is_there reader.old reader.new) }
    ensures unread { IfErr result
        (λ failure. (failure ≡ OutOfMemory) ⊎ (failure ≡ failure_named file)) }
{
    let path = path_of(rt.alloc(), folder, file)?;
    match feed_there(rt, path.as_str(), file, reader, progress) {
        Ok(there) => Ok(there),
        Err(fault) => Err(failure_of(fault, named(file))),
    }
}

fn boxed(alloc: Global, reader: TableReader) -> Result<Box<TableReader>, AllocError>
    ensures { IfOk result (λ boxed. boxed.value ≡ reader) }
{
    Ok(Box::new(alloc, reader)?)
}

// The name of the file of a table. The parts of lineorder have a dot and their number after it.
fn file_name(table: TableId) -> &'static str
    ensures { result.now ≡ table_name table }
{
    match table {
        TableId::Date => "date.tbl",
        TableId::Customer => "customer.tbl",
        TableId::Supplier => "supplier.tbl",
        TableId::Part => "part.tbl",
        TableId::Lineorder => "lineorder.tbl",
    }
}

// Reads a table of one file.
fn read_table<R: Store + AllocGlobal, P: Watch>(
    rt: &R,
    folder: &str,
    table: TableId,
    progress: &mut P,
) -> Result<Box<TableReader>, Failure<'static>>
    ensures read { IfOk result (λ reader. IsReadIn (R.known rt.now) folder.now table reader.value) }
    ensures unread { IfErr result (IsTableUnread table) }
{
    let name = file_name(table);
    let mut reader = TableReader::new(rt.alloc(), table, Limits::widest())?;
    if !feed_file(rt, folder, TableFile::Named(name), &mut reader, progress)? {
        return Err(Failure::File(name));
    }
    Ok(boxed(rt.alloc(), reader)?)
}

// Refuses a part of lineorder after the last that may be there. It is not read.
fn refuse_more<R: Store + AllocGlobal>(rt: &R, folder: &str) -> Result<(), Failure<'static>>
    ensures absent { OnOk result (IsAt (R.known rt.now) (path_in folder.now (part_name 1001)) None) }
    ensures unread { IfErr result (λ failure. (failure ≡ OutOfMemory) ⊎ (failure ≡ Part 1001)) }
{
    let part = TableFile::Part(MOST_PARTS + 1);
    let path = path_of(rt.alloc(), folder, part)?;
    match rt.open_there(path.as_str()) {
        Ok(None) => Ok(()),
        Ok(Some(_)) => Err(named(part)),
        Err(fault) => Err(failure_of(fault, named(part))),
    }
}

// Gives a reader the parts of lineorder, from the first up to one that is not there, and returns
// whether there is one.
fn feed_parts<R: Store + AllocGlobal, P: Watch>(
    rt: &R,
    folder: &str,
    reader: &mut TableReader,
    progress: &mut P,
) -> Result<bool, Failure<'static>>
    ensures fed { IfOk result
        (λ is_there. ArePartsFed (R.known rt.now) folder.now is_there reader.old reader.new) }
    ensures unread { IfErr result (ArePartsUnread (R.known rt.now) folder.now) }
{
    for number in 1..=MOST_PARTS {
        if !feed_file(rt, folder, TableFile::Part(number), reader, progress)? {
            return Ok(number > 1);
        }
    }
    refuse_more(rt, folder)?;
    Ok(true)
}

// Gives a reader the file of lineorder, or else its parts, and returns whether there is one.
fn feed_lineorder<R: Store + AllocGlobal, P: Watch>(
    rt: &R,
    folder: &str,
    reader: &mut TableReader,
    progress: &mut P,
) -> Result<bool, Failure<'static>>
    ensures fed { IfOk result
        (λ is_there. IsLineorderFed (R.known rt.now) folder.now is_there reader.old reader.new) }
    ensures unread { IfErr result (IsLineorderUnread (R.known rt.now) folder.now) }
{
    let whole = TableFile::Named(file_name(TableId::Lineorder));
    if feed_file(rt, folder, whole, reader, progress)? {
        return Ok(true);
    }
    feed_parts(rt, folder, reader, progress)
}

// Reads lineorder: its file, or else its parts, at least one.
fn read_lineorder<R: Store + AllocGlobal, P: Watch>(
    rt: &R,
    folder: &str,
    progress: &mut P,
) -> Result<Box<TableReader>, Failure<'static>>
    ensures read { IfOk result
        (λ reader. IsReadIn (R.known rt.now) folder.now TableId.Lineorder reader.value) }
    ensures unread { IfErr result (IsLineorderUnread (R.known rt.now) folder.now) }
{
    let mut reader = TableReader::new(rt.alloc(), TableId::Lineorder, Limits::widest())?;
    if !feed_lineorder(rt, folder, &mut reader, progress)? {
        return Err(Failure::File(file_name(TableId::Lineorder)));
    }
    Ok(boxed(rt.alloc(), reader)?)
}

// Reads lineorder from the file of one part, or from its whole file if the part's number is 0.
fn read_one_part<R: Store + AllocGlobal, P: Watch>(
    rt: &R,
    folder: &str,
    part: u16,
    progress: &mut P,
) -> Result<Box<TableReader>, Failure<'static>>
    ensures { IfOk result (λ reader. HasReadSome reader.value TableId.Lineorder) }
{
    let file = if part == 0 {
        TableFile::Named(file_name(TableId::Lineorder))
    } else {
        TableFile::Part(part)
    };
    let mut reader = TableReader::new(rt.alloc(), TableId::Lineorder, Limits::widest())?;
    if !feed_file(rt, folder, file, &mut reader, progress)? {
        return Err(named(file));
    }
    Ok(boxed(rt.alloc(), reader)?)
}

// Reads all of lineorder, or one part of it.
fn read_parts<R: Store + AllocGlobal, P: Watch>(
    rt: &R,
    folder: &str,
    only: Option<u16>,
    progress: &mut P,
) -> Result<Box<TableReader>, Failure<'static>>
    ensures read { IfOk result
        (λ reader. IsLineorderRead (R.known rt.now) folder.now only reader.value) }
    ensures unread { only ≡ None → IfErr result (IsLineorderUnread (R.known rt.now) folder.now) }
{
    match only {
        Some(number) => read_one_part(rt, folder, number, progress),
        None => read_lineorder(rt, folder, progress),
    }
}

// Reads the tables of a folder, in their order: all of lineorder, or one part of it.
fn read_all<R: Store + AllocGlobal, P: Watch>(
    rt: &R,
    folder: &str,
    only: Option<u16>,
    progress: &mut P,
) -> Result<ReadTables, Failure<'static>>
    ensures read { IfOk result (AreAllRead (R.known rt.now) folder.now only) }
    ensures unread { only ≡ None → IfErr result (AreTablesUnread (R.known rt.now) folder.now) }
{
    let date = read_table(rt, folder, TableId::Date, progress)?;
    let customer = read_table(rt, folder, TableId::Customer, progress)?;
    let supplier = read_table(rt, folder, TableId::Supplier, progress)?;
    let part = read_table(rt, folder, TableId::Part, progress)?;
    let lineorder = read_parts(rt, folder, only, progress)?;
    Ok(ReadTables {
        date,
        customer,
        supplier,
        part,
        lineorder,
    })
}

/// Reads the tables of a folder, in their order. If there is no file of lineorder its parts are
/// read, `lineorder.tbl.1` and on, up to the first that is not there. The contents of the tables
/// are checked later: a fault of them comes after every failure to read a file. `progress` is shown
/// how far it is, from its begin to its end.
pub(crate) fn read_tables<R: Store + AllocGlobal, P: Watch>(
    rt: &R,
    folder: &str,
    progress: &mut P,
) -> Result<ReadTables, Failure<'static>>
    ensures read { IfOk result (AreReadIn (R.known rt.now) folder.now) }
    ensures unread { IfErr result (AreTablesUnread (R.known rt.now) folder.now) }
{
    progress.begin();
    let read = read_all(rt, folder, None, progress);
    progress.end();
    read
}

/// Reads the dimensions of a folder and one part of lineorder, or its whole file if the part's number
/// is 0.
pub(crate) fn read_part_tables<R: Store + AllocGlobal, P: Watch>(
    rt: &R,
    folder: &str,
    part: u16,
    progress: &mut P,
) -> Result<ReadTables, Failure<'static>>
    ensures { IfOk result AreWidelyRead }
{
    progress.begin();
    let read = read_all(rt, folder, Some(part), progress);
    progress.end();
    read
}

/// Reads one part of lineorder, as `read_part_tables` does.
pub(crate) fn read_lineorder_part<R: Store + AllocGlobal, P: Watch>(
    rt: &R,
    folder: &str,
    part: u16,
    progress: &mut P,
) -> Result<Box<TableReader>, Failure<'static>>
    ensures { IfOk result (λ reader. HasReadSome reader.value TableId.Lineorder) }
{
    progress.begin();
    let read = read_one_part(rt, folder, part, progress);
    progress.end();
    read
}

/// The tables of the sample.
pub(crate) fn sample_tables(alloc: Global) -> Result<ReadTables, AllocError>
    ensures { IfOk result AreWidelyRead }
{
    ReadTables::of_texts(alloc, &sample(), Limits::widest())
}

/// Sees to it that a folder is there, which a failure names as the words do.
pub(crate) fn find_folder<'a, R: Files>(rt: &R, folder: &'a str) -> Result<(), Failure<'a>>
    ensures { IfErr result (IsReadError folder.now) }
{
    match fs::metadata(rt, folder) {
        Ok(metadata) if metadata.is_dir() => Ok(()),
        Err(error) if error.kind() == io::ErrorKind::OutOfMemory => Err(Failure::from(AllocError)),
        _ => Err(Failure::File(folder)),
    }
}
