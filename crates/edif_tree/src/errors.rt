//! Why tokens have no tree.
ghost use Rattle.std.specs.Prelude.{◌≡◌};
ghost use Rattle.edif_tree.specs.declared.errors.TreeError.TheVariants.{NoMemory};

use edif_spelling_spec::TreeKind;
use netlist_schema::NoMemory;

/// What ended the reading of tokens.
#[derive(Clone, Copy, Debug, PartialEq, Eq)]
pub enum TreeError {
    /// The first tree fault of the tokens, and the number of bytes before it.
    At { kind: TreeKind, place: u64 },
    /// An allocation was refused, or there are more than 2^30 nodes, or more bytes before one than a `u32` counts. A file within its
    /// limit has fewer.
    NoMemory,
}

impl From<NoMemory> for TreeError {
    ghost from_gives = { λ _ e. e ≡ NoMemory };

    fn from(_e: NoMemory) -> TreeError {
        TreeError::NoMemory
    }
}
