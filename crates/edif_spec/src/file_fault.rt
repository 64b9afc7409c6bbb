//! What is wrong with a design file.
use crate::fault::MeaningFault;
use edif_spelling_spec::{LexKind, TreeKind};

/// What is wrong with a design file. A place counts the bytes before it.
#[derive(Debug, PartialEq, Eq)]
pub enum EdifFault {
    /// The first lexical fault of the file.
    Lex {
        /// What it is.
        kind: LexKind,
        /// Where it stands.
        place: u64,
    },
    /// The first fault of the tokens, where no lexical fault stands in the file.
    Tree {
        /// What it is.
        kind: TreeKind,
        /// Where it stands.
        place: u64,
    },
    /// A fault that stands in the tree of the file.
    Meaning(MeaningFault),
}

impl Drop for EdifFault {
    fn drop(self) {
        match self {
            EdifFault::Lex { kind: _, place: _ } => {}
            EdifFault::Tree { kind: _, place: _ } => {}
            EdifFault::Meaning(_) => {}
        }
    }
}
