//! Ungroup: one instance is dissolved into its parent. The definition of the operation, and the law that leaf pins keep their nets.
#![tactic(auto)]

mod laws;

pub use laws::{
    done_dissolves, done_is_ungroup, effective_stays, feedthrough_is_ungrouped,
    instances_and_notes_are_kept, nets_are_carried, occurrences_are_carried, pair_is_ungrouped,
    paths_are_mapped, pins_are_carried, test_tells_group, ungroup_is_local, valid_stays,
};
