//! Editing operations on a design: what each replies, reads and writes.
#![tactic(auto)]

mod copied;
mod laws;
mod ops;
mod typed;

pub use edit_rules_spec::{CellName, EndName, Reply};
pub use laws::{
    commit_overlays, copies_keep_flattening, drop_example, frame, full_library_refuses,
    inst_is_shown, limit_is_reached, limits_example, middle_example, net_is_shown_whole,
    one_more_operation, overlay_is_the_run, own_ends_example, refused_changes_nothing, replay,
    run_is_grown, run_is_valid, run_leaves_the_rest, step_is_grown, step_is_valid,
    step_keeps_closed, ungroup_example, ungroup_keeps, worked_example, written_is_there,
};
pub use ops::{Op, PortDecl, Target};
pub use typed::op_is_typed;
