//! What is wrong with a tree that means no design.
use netlist_schema::Ident;

/// What is wrong at one place.
#[derive(Clone, Copy, Debug, PartialEq, Eq)]
pub enum Kind {
    /// A breach of the table of forms that has no kind of its own: at the `(` of a form that lacks a part, at an argument that may
    /// not stand where it does, at the `(` of a second form where one is allowed, of a form without a keyword, and of a form that
    /// may stand elsewhere in its parent. Also at a word that is none of those that its form has, at an exponent beyond 32 bits, and
    /// at what breaks the shape of a note.
    BadForm,
    /// A version other than 2 0 0, at the argument.
    BadVersion,
    /// A level other than 0, at the argument.
    BadLevel,
    /// A view of another type, at the identifier of the type.
    NotNetlist,
    /// A reference that means no definition, at its identifier.
    Unresolved,
    /// A reference that means several definitions, at its identifier.
    Ambiguous,
    /// A size of an array that is not from 1 to 65,536, or a member that the port does not have, at the integer.
    BadIndex,
    /// A port of several bits where one bit is wanted, at the identifier.
    WholeArray,
    /// An end of another width than that of the array of its net, at the identifier of a port or at the `(` of a member.
    BadWidth,
    /// A path without steps, at its `(`, or a step of a path that means no instance or several, at the step.
    BadPath,
}

/// What is wrong with a form because of an earlier one.
#[derive(Clone, Copy, Debug, PartialEq, Eq)]
pub enum ClashKind {
    /// A second view of a cell, at the `(` of both.
    SecondView,
    /// A second design, at the `(` of both.
    SecondDesign,
    /// A definition of a name that its scope has already byte for byte, at the identifiers of both. The nets of an array are
    /// defined at the array's identifier.
    Duplicate,
    /// A bit that is joined already in the same contents, at the `(` of both ends.
    EndTwice,
}

/// A fault of meaning. Places count the bytes before.
#[derive(Debug, PartialEq, Eq)]
pub enum MeaningFault {
    /// A form whose keyword its parent does not have, at its `(`.
    NotInProfile {
        /// The keyword as spelled, without `&`.
        keyword: Ident,
        /// The number of bytes before the form.
        place: u64,
    },
    /// A fault at one place.
    At {
        /// What it is.
        kind: Kind,
        /// The number of bytes before what is wrong.
        place: u64,
    },
    /// A fault of a form because of an earlier one.
    Clash {
        /// What it is.
        kind: ClashKind,
        /// The number of bytes before the later one.
        place: u64,
        /// The number of bytes before the earlier one.
        earlier: u64,
    },
    /// A form beyond a limit of the profile, at the first one that is.
    OverLimit {
        /// How many are allowed.
        limit: u64,
        /// The number of bytes before the first form beyond the limit.
        place: u64,
    },
}

impl Drop for MeaningFault {
    fn drop(self) {
        match self {
            MeaningFault::NotInProfile {
                keyword: _,
                place: _,
            } => {}
            MeaningFault::At { kind: _, place: _ } => {}
            MeaningFault::Clash {
                kind: _,
                place: _,
                earlier: _,
            } => {}
            MeaningFault::OverLimit { limit: _, place: _ } => {}
        }
    }
}
