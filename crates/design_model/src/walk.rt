//! The occurrences of a tree in path order, and its nets.
ghost use Rattle.std.specs.Prelude.{◌≡◌, ◌++◌, ◌∷◌, [], IfOk, OnOk, map};
ghost use Rattle.std.specs.List.{flat_map};
ghost use Rattle.netlist_schema.specs.Valid.{IsValid};
ghost use Rattle.flat_spec.specs.Occurrences.{occurrences, own_nets};
ghost use Rattle.flat_spec.specs.Below.{under_path};

use flat_lookup::{insts_at, net_count};
use flat_spec::{NetAt, Path};
use netlist_schema::{CellId, Copied, NoMemory, Shown};
use std::alloc::Global;
use std::marker::Model;

/// An occurrence: its path, and the cell to which the path leads.
#[derive(Debug, Drop)]
pub struct Occurrence {
    path: Path,
    cell: CellId,
}

impl Model for Occurrence {
    ghost use Rattle.flat_spec.specs.Occurrences.{Occurrence as Place};

    ghost Value = { Place };

    ghost view = { λ o. record { path = o.path; cell = o.cell } };
}

impl Occurrence {
    /// The occurrence of this path and cell.
    fn of(path: Path, cell: CellId) -> Occurrence
        ensures { result ≡ record { path = path; cell = cell } }
    {
        Occurrence { path, cell }
    }

    /// Lends the path.
    pub fn path(&self) -> &Path
        ensures { result.now ≡ self.now.path }
    {
        &self.path
    }

    /// The cell.
    pub fn cell(&self) -> CellId
        ensures { result ≡ self.now.cell }
    {
        self.cell
    }
}

/// The path with one more step.
fn extended(alloc: Global, path: &[u32], step: u32) -> Result<Vec<u32>, NoMemory>
    ensures { IfOk result (λ longer. longer.items ≡ path.now ++ step ∷ []) }
{
    let mut longer = path.to_vec(alloc)?;
    longer.push(step)?;
    Ok(longer)
}

/// Adds the occurrences of the cell's tree, which stands at the path.
fn list_below<S: Shown>(
    alloc: Global,
    design: &S,
    path: &[u32],
    cell: CellId,
    found: &mut Vec<Occurrence>,
) -> Result<(), NoMemory>
    requires { IsValid (S.design design.now) }
    ensures { OnOk result (found.new.items ≡ found.old.items ++ map (under_path path.now) (occurrences (S.design design.now) cell)) }
{
    let here = Path::of(alloc, path)?;
    found.push(Occurrence::of(here, cell))?;
    let insts = insts_at(design, cell);
    for i in 0..insts.len() {
        let inst = insts.at(i);
        let longer = extended(alloc, path, i as u32)?;
        list_below(alloc, design, longer.as_slice(), inst.of, found)?;
    }
    Ok(())
}

/// The occurrences of the root's tree, in path order.
pub(crate) fn list_occurrences<S: Shown>(
    alloc: Global,
    design: &S,
    root: CellId,
) -> Result<Vec<Occurrence>, NoMemory>
    requires { IsValid (S.design design.now) }
    ensures { IfOk result (λ found. found.items ≡ occurrences (S.design design.now) root) }
{
    let mut found = Vec::new(alloc);
    list_below(alloc, design, &[], root, &mut found)?;
    Ok(found)
}

/// Adds the nets of one occurrence, in the order of its contents.
fn list_own<S: Shown>(
    alloc: Global,
    design: &S,
    occurrence: &Occurrence,
    found: &mut Vec<NetAt>,
) -> Result<(), NoMemory>
    ensures { OnOk result (found.new.items ≡ found.old.items ++ own_nets (S.design design.now) occurrence.now) }
{
    let path = occurrence.path();
    let count = net_count(design, occurrence.cell());
    for net in 0..count {
        found.push(NetAt {
            path: path.copy(alloc)?,
            net,
        })?;
    }
    Ok(())
}

/// The nets of these occurrences, one after the other.
pub(crate) fn list_nets<S: Shown>(
    alloc: Global,
    design: &S,
    occurrences: &[Occurrence],
) -> Result<Vec<NetAt>, NoMemory>
    ensures { IfOk result (λ found. found.items ≡ flat_map (own_nets (S.design design.now)) occurrences.now) }
{
    let mut found = Vec::new(alloc);
    for occurrence in occurrences {
        list_own(alloc, design, occurrence, &mut found)?;
    }
    Ok(found)
}
