// Where files are read from.

ghost use Rattle.std.specs.Prelude.{ℕ, List, Option, None, IfOk, option_map};
ghost use Rattle.star_cli.specs.Stores.{IsOpened};

use star_engine::FileFault;
use std::fs::File;
use std::io;
use std::rt::Files;

/// Files whose bytes may be known, for proofs.
pub trait Store: Files {
    // What is known to be at a path: a file with these bytes, or no file.
    ghost known: { Self → List ℕ → Option (Option (List ℕ)) };

    /// Opens the file at a path, if there is one.
    fn open_there(&self, path: &str) -> Result<Option<Self::File>, FileFault>
        ensures { IfOk result (λ opened.
            IsOpened (known self.now) path.now (option_map (λ file. Self.File.remaining file) opened)) };
}

// Opens a file of the file system, if it is there. Only what is not found is not there.
fn open_file<R: Files>(rt: &R, path: &str) -> Result<Option<R::File>, FileFault> {
    match File::open(rt, path) {
        Ok(file) => Ok(Some(file)),
        Err(error) => match error.kind() {
            io::ErrorKind::NotFound => Ok(None),
            io::ErrorKind::OutOfMemory => Err(FileFault::Memory),
            _ => Err(FileFault::Failed),
        },
    }
}

/// The files of the runtime. Nothing is known of them.
impl Store for HostRuntime {
    ghost known = { λ rt path. None };

    fn open_there(&self, path: &str) -> Result<Option<File>, FileFault> {
        open_file(self, path)
    }
}
