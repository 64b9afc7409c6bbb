//! `Files`: files that can be read.
ghost use Rattle.std.specs.Prelude.{◌≡◌, ◌≢◌, ◌⊎◌, ℕ, ◌<◌, ◌≤◌, List, [], ◌∷◌, ◌++◌, length, Option, Some, None, IfSome};
ghost use Rattle.netdb_outside.specs.Outside.{Folder, SameFiles, NothingLeft, Rose, file_named};
ghost use Rattle.netdb_outside.specs.Reading.{ReadGives, ReadsOn};
ghost use Rattle.netdb_outside.specs.Visits.{Visit, begun, read_on};

/// What opening a file answers.
#[derive(Clone, Copy, Debug, PartialEq, Eq)]
pub enum Opened {
    /// The file is the one that is read, from its first byte.
    Ready,
    /// There is no file of this name.
    Missing,
    /// There was a fault.
    Failed,
    /// There was no memory.
    NoMemory,
}

/// What reading answers.
#[derive(Clone, Copy, Debug, PartialEq, Eq)]
pub enum Got {
    /// So many bytes, at least one, stand at the front of the buffer.
    Bytes(usize),
    /// Nothing is left.
    End,
    /// There was a fault.
    Failed,
    /// There was no memory.
    NoMemory,
}

/// An outside with files, of which one at a time is read.
///
/// It may tell its files, by name with their bytes, and with them the rest of the one that is being read. No call changes
/// the files, or whether they are told. What a failed read does to the rest is left open. A call that is not refused counts no
/// fault.
///
/// It may tell too which files were asked for, in their order, each with how many of its bytes came and what the last call on it
/// answered. `open_file` adds the file of its name, whatever it answers, and `read` goes on with the last one.
pub trait Files {
    /// The files, and the rest of the one that is being read, where they are told.
    ghost told: { Self → Option Folder };

    /// How many faults there were. The count stands still at its type's end.
    ghost faults: { Self → ℕ };

    /// That these are the files that were asked for. Where those are not told, it holds of any.
    ghost visits: { Self → List Visit → Type 0 };

    /// Makes the named file the one that is read, from its first byte. After each answer but `Ready` none is read.
    fn open_file(&mut self, name: &str) -> Opened
        ensures files { SameFiles (told self.old) (told self.new) }
        ensures ready { result ≡ Opened.Ready → IfSome (told self.new) (λ folder. file_named folder.files name.now ≡ Some folder.rest) }
        ensures missing { result ≡ Opened.Missing → IfSome (told self.new) (λ folder. file_named folder.files name.now ≡ None) }
        ensures others { result ≢ Opened.Ready → NothingLeft (told self.new) }
        ensures failed { result ≡ Opened.Failed → Rose (faults self.old) (faults self.new) }
        ensures quiet { (result ≡ Opened.Ready) ⊎ (result ≡ Opened.Missing) → faults self.new ≡ faults self.old }
        ensures never_falls { faults self.old ≤ faults self.new }
        ensures visited { (before : List Visit) → visits self.old before → visits self.new (before ++ begun name.now result ∷ []) };

    /// Reads the next bytes into the front of a buffer.
    fn read(&mut self, buf: &mut [u8]) -> Got
        requires { 0 < length buf.old }
        ensures files { SameFiles (told self.old) (told self.new) }
        ensures gives { ReadGives (told self.old) (told self.new) buf.new result }
        ensures failed { result ≡ Got.Failed → Rose (faults self.old) (faults self.new) }
        ensures quiet { ReadsOn result → faults self.new ≡ faults self.old }
        ensures never_falls { faults self.old ≤ faults self.new }
        ensures visited { (before : List Visit) (visit : Visit) → visits self.old (before ++ visit ∷ []) → visits self.new (before ++ read_on visit result ∷ []) };
}
