//! What the nets of a tree join.
ghost use Rattle.std.specs.Prelude.{◌≡◌};
ghost use Rattle.std.specs.Option.{option_copied};
ghost use Rattle.flat_spec.specs.Paths.{ends_at, net_of};

use flat_lookup::{cell_along, net_at};
use flat_spec::NetAt;
use netlist_schema::{CellId, End, Net, Shown};

/// The net itself, where there is such a net below the root.
fn net_of<'a, S: Shown>(design: &'a S, root: CellId, net: &NetAt) -> Option<&'a Net>
    ensures { option_copied result ≡ net_of (S.design design.now) root net.now }
{
    match cell_along(design, root, net.path.as_slice()) {
        Some(cell) => net_at(design, cell, net.net),
        None => None,
    }
}

/// The ends that a net joins in its own contents: none where there is no such net below the root.
pub(crate) fn ends_at<'a, S: Shown>(design: &'a S, root: CellId, net: &NetAt) -> &'a [End]
    ensures { result.now ≡ ends_at (S.design design.now) root net.now }
{
    match net_of(design, root, net) {
        Some(net) => net.ends.as_slice(),
        None => &[],
    }
}
