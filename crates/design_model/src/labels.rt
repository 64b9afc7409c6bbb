//! Labels of nets, lowered pass by pass until nets that meet have one label.
ghost use Rattle.std.specs.Prelude.{◌≡◌, ◌<◌, ◌≤◌, ◌⊎◌, ℕ, true, false, length, slice_index, sum, IfOk};
ghost use Rattle.design_model.specs.Labels.{AreLabels, AreSettled, near};

use crate::meets::are_neighbours;
use flat_spec::NetAt;
use netlist_schema::{CellId, NoMemory, Shown};
use std::alloc::Global;

/// Whether the nets at two places meet, in either direction.
#[tactic(auto, unfolding(crate::specs::Labels::near))]
fn are_near<S: Shown>(design: &S, root: CellId, nets: &[NetAt], first: usize, second: usize) -> bool
    requires first_within { first < length nets.now }
    requires second_within { second < length nets.now }
    ensures { result ≡ near (S.design design.now) root nets.now first second }
{
    are_neighbours(design, root, &nets[first], &nets[second])
}

/// The least label of the net at a place and of those that meet it.
fn least_label<S: Shown>(
    design: &S,
    root: CellId,
    nets: &[NetAt],
    labels: &[usize],
    place: usize,
) -> usize
    requires long { length labels.now ≡ length nets.now }
    requires within { place < length nets.now }
    ensures own { result ≤ slice_index labels.now place }
    ensures least { (j : ℕ) → j < length nets.now → near (S.design design.now) root nets.now place j ≡ true → result ≤ slice_index labels.now j }
    ensures reached { (j : ℕ) × (j < length nets.now) × ((j ≡ place) ⊎ (near (S.design design.now) root nets.now place j ≡ true)) × (result ≡ slice_index labels.now j) }
{
    let mut least = labels[place];
    for other in 0..nets.len() {
        if labels[other] < least && are_near(design, root, nets, place, other) {
            least = labels[other];
        }
    }
    least
}

/// Lowers each label in turn to the least of the nets that meet its own; whether one was lowered.
fn lower_labels<S: Shown>(design: &S, root: CellId, nets: &[NetAt], labels: &mut [usize]) -> bool
    requires { AreLabels (S.design design.now) root nets.now labels.old }
    ensures labels { AreLabels (S.design design.now) root nets.now labels.new }
    ensures lowered { result ≡ true → sum labels.new < sum labels.old }
    ensures settled { result ≡ false → AreSettled (S.design design.now) root nets.now labels.new }
{
    let mut lowered = false;
    for place in 0..nets.len() {
        let least = least_label(design, root, nets, labels, place);
        if least < labels[place] {
            labels[place] = least;
            lowered = true;
        }
    }
    lowered
}

/// A label for each net, where nets that meet have one label.
pub(crate) fn label_nets<S: Shown>(
    alloc: Global,
    design: &S,
    root: CellId,
    nets: &[NetAt],
) -> Result<Vec<usize>, NoMemory>
    ensures labels { IfOk result (λ labels. AreLabels (S.design design.now) root nets.now labels.items) }
    ensures settled { IfOk result (λ labels. AreSettled (S.design design.now) root nets.now labels.items) }
{
    let mut labels = Vec::new(alloc);
    for place in 0..nets.len() {
        labels.push(place)?;
    }
    'passes: while lower_labels(design, root, nets, labels.as_mut_slice()) {}
    Ok(labels)
}
