//! Types of a hierarchical netlist, and what makes a design valid.
#![tactic(auto)]

mod cell;
mod compared;
mod copied;
mod design;
mod ident;
mod ids;
mod inside;
mod library;
pub mod limits;
mod listed;
mod marks;
mod property;
mod shown;
mod text;
mod width;

pub use cell::{CellBody, CellKind, Contents, Direction, End, Inst, Net, Port};
pub use design::Design;
pub use ident::Ident;
pub use ids::{CellId, LibId, Object};
pub use library::{Lib, LibHead, Note, TopHead};
pub use limits::{
    MOST_BITS, MOST_CELLS, MOST_ENDS, MOST_EVENTS, MOST_FILE_BYTES, MOST_INSTS, MOST_LEVELS,
    MOST_LIBS, MOST_NETS, MOST_NOTES, MOST_PORTS, MOST_WIDTH,
};
pub use listed::{Listed, Mark, Marks};
pub use marks::{end_bit, hash_of, name_number};
pub use netlist_pages::{Copied, Each, NoMemory};
pub use netlist_parts::{Parts, PartsRef, Row, Shared, SharedRow};
pub use property::{Name, Num, Property, Value};
pub use shown::{Shown, design_is_valid};
pub use text::Text;
pub use width::Width;
