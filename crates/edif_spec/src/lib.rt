//! What an EDIF file of the profile means, what may be wrong with its bytes, and how a design is written.
#![tactic(auto)]

mod fault;
mod fault_examples;
mod fault_laws;
mod file_fault;
mod keyword;
mod laws;
mod meaning_laws;
mod nets;
mod text_laws;

pub use fault::{ClashKind, Kind, MeaningFault};
pub use fault_examples::{faults_of_large_files, faults_of_small_files};
pub use fault_laws::{fault_is_there, fault_or_meaning, spelled_tree_is_writable};
pub use file_fault::EdifFault;
pub use keyword::Keyword;
pub use laws::{meant_is_arranged, text_reads_back};
pub use meaning_laws::{meant_is_in_order, one_meaning, tree_means_its_design};
pub use nets::{NetForm, Stretch};
pub use text_laws::{
    arranged_in_order, arranged_is_valid, arranged_twice, canonical_text_spells,
    in_order_is_arranged, layout_reads_back,
};
