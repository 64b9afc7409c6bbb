//! The nets of a tree, and the representative of each.
ghost use Rattle.std.specs.Prelude.{◌≡◌, Some, slice_get, Contains, IfOk};
ghost use Rattle.netlist_schema.specs.Design.{Design};
ghost use Rattle.flat_spec.specs.ConnectionTest.{same_net};
ghost use Rattle.flat_spec.specs.Paths.{at_path};
ghost use Rattle.flat_spec.specs.Representatives.{representative};
ghost use Rattle.design_model.specs.Tables.{AreTreeNets};

use flat_spec::{NetAt, Path};
use netlist_schema::{CellId, Copied, NoMemory};
use std::alloc::Global;

/// The nets of the root's tree in order, and beside each the place of its representative.
#[derive(Debug, Drop)]
pub struct TreeNets {
    pub root: CellId,
    pub nets: Vec<NetAt>,
    pub places: Vec<usize>,
}

/// Whether the net is that of the path and place.
fn is_net_at(net: &NetAt, path: &Path, place: u32) -> bool
    ensures { result ≡ same_net net.now (at_path path.now place) }
{
    net.path == *path && net.net == place
}

/// Where the net of the path and place stands in the list.
fn place_of(nets: &[NetAt], path: &Path, net: u32) -> usize
    requires { Contains nets.now (at_path path.now net) }
    ensures { slice_get nets.now result ≡ Some (at_path path.now net) }
{
    for (k, other) in nets.iter().enumerate() {
        if is_net_at(other, path, net) {
            return k;
        }
    }
    unreachable!()
}

impl TreeNets {
    /// The representative of the net of the path and place, which is one of the nets.
    pub fn first_of(&self, alloc: Global, path: &Path, net: u32) -> Result<NetAt, NoMemory>
        requires nets { (d : Design) × AreTreeNets d self.now }
        requires listed { Contains self.now.nets.items (at_path path.now net) }
        ensures { IfOk result (λ first. (d : Design) → AreTreeNets d self.now → first ≡ representative d self.now.root (at_path path.now net)) }
    {
        let place = place_of(self.nets.as_slice(), path, net);
        let first = self.places[place];
        self.nets[first].copy(alloc)
    }
}
