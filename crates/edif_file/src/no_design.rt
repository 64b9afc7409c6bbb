//! Why bytes gave no design.
ghost use Rattle.std.specs.Prelude.{◌≡◌};
ghost use Rattle.edif_file.specs.declared.no_design.NoDesign.TheVariants as answers;
ghost use Rattle.edif_file.specs.Steps.{said_by_lexer, said_by_tree, said_by_reader};

use edif_build::EdifError;
use edif_lexer::LexError;
use edif_spec::EdifFault;
use edif_tree::TreeError;
use netlist_schema::NoMemory;
use thiserror::Error;

/// Why bytes gave no design.
#[derive(Debug, PartialEq, Eq, Drop, Error)]
pub enum NoDesign {
    /// What is wrong with them.
    #[error("the bytes mean no design")]
    Fault(EdifFault),
    /// An allocation was refused.
    #[error("no memory")]
    NoMemory,
}

impl From<LexError> for NoDesign {
    ghost from_gives = { λ error said. said ≡ said_by_lexer error };

    fn from(error: LexError) -> NoDesign {
        match error {
            LexError::At { kind, place } => NoDesign::Fault(EdifFault::Lex { kind, place }),
            LexError::NoMemory => NoDesign::NoMemory,
        }
    }
}

impl From<TreeError> for NoDesign {
    ghost from_gives = { λ error said. said ≡ said_by_tree error };

    fn from(error: TreeError) -> NoDesign {
        match error {
            TreeError::At { kind, place } => NoDesign::Fault(EdifFault::Tree { kind, place }),
            TreeError::NoMemory => NoDesign::NoMemory,
        }
    }
}

impl From<EdifError> for NoDesign {
    ghost from_gives = { λ error said. said ≡ said_by_reader error };

    fn from(error: EdifError) -> NoDesign {
        match error {
            EdifError::Fault(fault) => NoDesign::Fault(EdifFault::Meaning(fault)),
            EdifError::NoMemory => NoDesign::NoMemory,
        }
    }
}

impl From<NoMemory> for NoDesign {
    ghost from_gives = { λ _ said. said ≡ answers.NoMemory };

    fn from(_error: NoMemory) -> NoDesign {
        NoDesign::NoMemory
    }
}
