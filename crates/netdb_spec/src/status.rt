//! What a call of the program answers.
ghost use Rattle.std.specs.Prelude.{◌≡◌};

use edif_spec::EdifFault;

/// The status of a call. `word` is the position of a file's name among the words, from 0.
#[derive(Debug, PartialEq, Eq)]
pub enum Status {
    /// All was read and written.
    Ok,
    /// The words are no command.
    Usage,
    /// There is no such file.
    Missing { word: u32 },
    /// There was a fault in reading this file.
    ReadFault { word: u32 },
    /// There was a fault in writing.
    WriteFault,
    /// The design file has no meaning.
    BadEdif { fault: EdifFault },
    /// The script's file has a bad line: this is the first, from 1.
    BadScript { word: u32, line: u64 },
    /// The file has more bytes than its limit.
    TooLarge { word: u32 },
    /// Something is wanted that needs a top, and the design has none.
    NoTop,
    /// Some script ended since the log was full. The whole report was written.
    LogFull,
    /// An allocation was refused.
    NoMemory,
}

impl Drop for Status {
    fn drop(self) {
        match self {
            Status::Ok => {}
            Status::Usage => {}
            Status::Missing { word: _ } => {}
            Status::ReadFault { word: _ } => {}
            Status::WriteFault => {}
            Status::BadEdif { fault: _ } => {}
            Status::BadScript { word: _, line: _ } => {}
            Status::TooLarge { word: _ } => {}
            Status::NoTop => {}
            Status::LogFull => {}
            Status::NoMemory => {}
        }
    }
}

impl Status {
    ghost use Rattle.netdb_spec.specs.StatusNumber.{number_of};
    ghost use Rattle.netdb_spec.specs.StatusText.{word_of};

    /// The number with which the program ends.
    pub fn number(&self) -> u8
        ensures { result ≡ number_of self.now }
    {
        match self {
            Status::Ok => 0,
            Status::Usage => 2,
            Status::Missing { .. } => 3,
            Status::ReadFault { .. } => 4,
            Status::WriteFault => 5,
            Status::BadEdif { .. } => 6,
            Status::BadScript { .. } => 7,
            Status::TooLarge { .. } => 8,
            Status::NoTop => 9,
            Status::LogFull => 10,
            Status::NoMemory => 11,
        }
    }

    /// The position among the words of the name of the file that the status is about, where it is about one.
    pub fn word(&self) -> Option<u32>
        ensures { result ≡ word_of self.now }
    {
        match self {
            Status::Missing { word } => Some(*word),
            Status::ReadFault { word } => Some(*word),
            Status::BadEdif { .. } => Some(1),
            Status::BadScript { word, .. } => Some(*word),
            Status::TooLarge { word } => Some(*word),
            Status::Ok => None,
            Status::Usage => None,
            Status::WriteFault => None,
            Status::NoTop => None,
            Status::LogFull => None,
            Status::NoMemory => None,
        }
    }
}
