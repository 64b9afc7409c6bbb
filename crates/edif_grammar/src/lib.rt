//! The table of forms: how a form fits its row.
#![tactic(auto)]

mod checks;
mod kept;
mod laws;
mod lent;
mod nodes;
mod rules;

pub use edif_keywords::keyword;
pub use edif_spec::Keyword;
pub use kept::{EdifFormError, form};
pub use laws::no_form_fits_and_fails;
pub use lent::{Breach, Form, parts_as, parts_of};
pub use nodes::is_form_of;
