//! A form by its parts, with a failing that is kept beside its tree.
ghost use Rattle.std.specs.Prelude.{◌≡◌, IfErr, IfOk};
ghost use Rattle.edif_tree.specs.Handles.{here};
ghost use Rattle.edif_grammar.specs.Forms.{HasParts};
ghost use Rattle.edif_grammar.specs.Kept.{Breaks};
ghost use Rattle.edif_grammar.specs.declared.kept.EdifFormError.TheVariants.{NoMemory};

use crate::lent::{Breach, Form, parts_of};
use edif_spec::Keyword;
use edif_tree::Node;
use netlist_schema::{Ident, NoMemory};
use std::alloc::{AllocError, Global};

/// Why a form has no parts.
#[derive(Debug, PartialEq, Eq, Drop)]
pub enum EdifFormError {
    /// A form whose keyword the form that holds it does not have.
    NotInProfile {
        /// The keyword as spelled, without `&`.
        keyword: Ident,
        /// The number of bytes before its `(`.
        place: u64,
    },
    /// Any other breach of a row, but those that have a kind of their own.
    BadForm {
        /// The number of bytes before what is wrong.
        place: u64,
    },
    /// An allocation was refused. It says nothing of the form.
    NoMemory,
}

impl From<NoMemory> for EdifFormError {
    ghost from_gives = { λ _ e. e ≡ NoMemory };

    fn from(_e: NoMemory) -> EdifFormError {
        EdifFormError::NoMemory
    }
}

impl From<AllocError> for EdifFormError {
    ghost from_gives = { λ _ e. e ≡ NoMemory };

    fn from(_e: AllocError) -> EdifFormError {
        EdifFormError::NoMemory
    }
}

/// The parts of the form at a node, where it fits the row of its keyword and the row of the form that holds it; with no parent, the form
/// is to be a whole file. `NotInProfile` where the row above has no form of this keyword, or this form's row none of an argument's;
/// `BadForm` at any other breach of the form's row. Another version or level, and a second view or design, are faults of their own, and
/// no breach here.
pub fn form<'a>(
    alloc: Global,
    node: Node<'a>,
    parent: Option<Keyword>,
) -> Result<Form<'a>, EdifFormError>
    ensures ok { IfOk result (λ p. HasParts parent (here node.entry) p) }
    ensures err { IfErr result (λ e. Breaks parent (here node.entry) e) }
{
    match parts_of(node, parent) {
        Ok(parts) => Ok(parts),
        Err(Breach::NotInProfile { keyword, place }) => Err(EdifFormError::NotInProfile {
            keyword: keyword.copy(alloc)?,
            place,
        }),
        Err(Breach::BadForm { place }) => Err(EdifFormError::BadForm { place }),
    }
}
