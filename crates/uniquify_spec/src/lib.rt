//! Operations that give occurrences cells of their own: what they do to a design, what they read and write, and that the
//! flattening stays as it is but for the names of the cells that are copied.
#![tactic(auto)]

mod laws;

pub use laws::{
    alike_flatten_alike, both_are_local, both_grow, both_keep_valid, capital_is_unique,
    copies_are_made_in_one_pass, copies_get_least_free, firsts_keep_their_cells, flattening_stays,
    once_is_enough, one_path_each, originals_stay, pair_is_unique, path_is_unique,
    too_many_is_too_full,
};
