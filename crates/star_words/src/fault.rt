// Why words ask for nothing that can be done.

ghost use Rattle.std.specs.Prelude.{◌≡◌};
ghost use Rattle.star_common.specs.Memory.{TellsMemory};
ghost use Rattle.star_words.specs.{Faults.fault_of_error, Faults.words_fault_status, Faults.words_fault_text, Faults.words_status, declared.fault.WordsFault.TheVariants.OutOfMemory};

use clap::Error;
use clap::error::ErrorKind;
use std::alloc::AllocError;
use std::fmt;

/// Why words ask for nothing that can be done.
#[derive(Drop)]
pub enum WordsFault {
    /// The arguments are no command, or ask for help or the version: the parser's text.
    Told(Error),
    /// A word is not UTF-8.
    NotText,
    /// The folder's name is empty: its files would be those at the root of the file system.
    EmptyFolder,
    /// Several partials are asked for, and no folder is named for them.
    NoTarget,
    /// The words begin with no command, and the parser of words finds nothing wrong with them.
    NoCommand,
    /// Memory was refused.
    OutOfMemory,
}

impl From<AllocError> for WordsFault {
    ghost from_gives = { TellsMemory OutOfMemory };

    fn from(_error: AllocError) -> WordsFault {
        WordsFault::OutOfMemory
    }
}

impl From<Error> for WordsFault {
    ghost from_gives = { λ error fault. fault ≡ fault_of_error error };

    fn from(error: Error) -> WordsFault {
        match error.kind() {
            ErrorKind::OutOfMemory => WordsFault::OutOfMemory,
            _ => WordsFault::Told(error),
        }
    }
}

/// Writes its line with the line's end; of `Told` the parser's text, which may be help.
impl fmt::Display for WordsFault {
    ghost output = { words_fault_text };

    #[tactic(auto, unfolding(crate::specs::Faults::words_fault_text))]
    fn fmt<W: fmt::Write>(&self, f: &mut fmt::Formatter<W>) -> fmt::Result {
        match self {
            WordsFault::Told(error) => write!(f, "{error}"),
            WordsFault::NotText => f.write_str("error: a word is not UTF-8\n"),
            WordsFault::EmptyFolder => f.write_str("error: the folder's name is empty\n"),
            WordsFault::NoTarget => f.write_str("error: several partials need --to TARGET\n"),
            WordsFault::NoCommand => f.write_str("error: the words are no command\n"),
            WordsFault::OutOfMemory => f.write_str("memory\n"),
        }
    }
}

// Help and the version are no fault.
fn status_of_words(kind: ErrorKind) -> u8
    ensures { result ≡ words_status kind }
{
    match kind {
        ErrorKind::DisplayHelp | ErrorKind::DisplayVersion => 0,
        _ => 2,
    }
}

impl WordsFault {
    /// Returns the exit status: 0 of help and the version, 7 of out of memory, and 2 of all else.
    pub fn status(&self) -> u8
        ensures { result ≡ words_fault_status self.now }
    {
        match self {
            WordsFault::Told(error) => status_of_words(error.kind()),
            WordsFault::NotText
            | WordsFault::EmptyFolder
            | WordsFault::NoTarget
            | WordsFault::NoCommand => 2,
            WordsFault::OutOfMemory => 7,
        }
    }
}
