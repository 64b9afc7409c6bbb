//! `Path`: the way from the top of a hierarchy to one of its occurrences.
ghost use Rattle.std.specs.Prelude.{◌≡◌, ◌≤◌, ◌↔◌, IfOk, IsOk, IsTrue, length, nat_eq};
ghost use Rattle.std.specs.Cmp.{partial_equiv_from_equiv};
ghost use Rattle.std.specs.Cmp.Lexicographic.{pointwise, nat_list_eq_equiv};
ghost use Rattle.flat_spec.specs.Steps.{IsTypedPath};

use netlist_schema::{Copied, NoMemory};
use smallvec::SmallVec;
use std::alloc::Global;
use std::marker::Model;

/// The path of an occurrence: the places of the instances that lead to it from the top, each in the contents of the cell
/// that the steps before it reach, from 0. The top's own path is empty. Contracts see a list of numbers of 32 bits.
#[derive(Debug)]
pub struct Path {
    steps: SmallVec<u32, 8>,
}

impl Drop for Path {
    fn drop(self) {
        let Path { steps: _ } = self;
    }
}

impl Model for Path {
    ghost use Rattle.std.specs.Prelude.{List, ℕ};
    ghost use Rattle.flat_spec.specs.Steps.{IsTypedPath};

    ghost Value = { List ℕ };

    ghost view = { λ p. p.steps.items };

    ghost invariant = { λ p. IsTypedPath p.steps.items };
}

impl Path {
    /// The path of these steps. The one error is that an allocation was refused; up to eight steps need none.
    pub fn of(alloc: Global, steps: &[u32]) -> Result<Path, NoMemory>
        ensures value { IfOk result (λ path. path ≡ steps.now) }
        ensures short { length steps.now ≤ 8 → IsOk result }
    {
        Ok(Path {
            steps: SmallVec::from_slice(alloc, steps)?,
        })
    }

    /// Lends the steps, from the top downwards. Takes no memory.
    pub fn as_slice(&self) -> &[u32]
        ensures value { result.now ≡ self.now }
        ensures steps { IsTypedPath self.now }
    {
        self.steps.as_slice()
    }
}

impl Copied for Path {
    ghost typed = { IsTypedPath };

    fn copy(&self, alloc: Global) -> Result<Path, NoMemory> {
        Path::of(alloc, self.as_slice())
    }
}

impl PartialEq for Path {
    ghost eq = { pointwise nat_eq };

    ghost laws = { partial_equiv_from_equiv nat_list_eq_equiv };

    fn eq(&self, other: &Path) -> bool
        ensures value { result ≡ pointwise nat_eq self.now other.now }
        ensures equal { IsTrue result ↔ (self.now ≡ other.now) }
    {
        self.as_slice() == other.as_slice()
    }
}

impl Eq for Path {
    ghost laws = { nat_list_eq_equiv };
}
