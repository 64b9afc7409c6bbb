//! `SharedRow`: a list that several hold.
ghost use Rattle.std.specs.Prelude.{◌≡◌, [], IfOk};
ghost use Rattle.std.specs.Cmp.Lexicographic.{lists_equiv, lists_per, pointwise};

use crate::row::Row;
use crate::shared::Shared;
use netlist_pages::{Copied, NoMemory};
use std::alloc::Global;
use std::marker::Model;

/// A list that several may hold, and that contracts see as the list. It is lent and never written to; in its place comes
/// another one. A list without items takes no memory.
#[derive(Debug, Drop)]
pub struct SharedRow<T> {
    pub(crate) items: Option<Shared<Row<T>>>,
}

impl<T> Model for SharedRow<T> {
    ghost use Rattle.std.specs.Prelude.{List, []};
    ghost use Rattle.std.specs.Option.{unwrap_or};

    ghost Value = { List T };

    ghost view = { λ r. unwrap_or r.items [] };
}

impl<T> SharedRow<T> {
    /// The list without items. Takes no memory.
    pub fn empty() -> SharedRow<T>
        ensures { result ≡ [] }
    {
        SharedRow { items: None }
    }

    /// The list, held by one. Takes memory where it has items.
    pub fn of(alloc: Global, row: Row<T>) -> Result<SharedRow<T>, NoMemory>
    where
        T: Drop,
        ensures { IfOk result (λ made. made ≡ row) }
    {
        if row.as_slice().is_empty() {
            return Ok(SharedRow::empty());
        }
        Ok(SharedRow {
            items: Some(Shared::of(alloc, row)?),
        })
    }

    /// The same list, held by one more. Takes no memory; the one error is that its count is full.
    pub fn share(&self) -> Result<SharedRow<T>, NoMemory>
        ensures { IfOk result (λ made. made ≡ self.now) }
    {
        match &self.items {
            Some(row) => Ok(SharedRow {
                items: Some(row.share()?),
            }),
            None => Ok(SharedRow::empty()),
        }
    }

    /// Lends the list, in order.
    pub fn as_slice(&self) -> &[T]
        ensures { result.now ≡ self.now }
    {
        match &self.items {
            Some(row) => row.as_slice(),
            None => &[],
        }
    }
}

impl<T: PartialEq> PartialEq for SharedRow<T> {
    ghost eq = { pointwise T.eq };

    ghost laws = { lists_per T.laws };

    fn eq(&self, other: &SharedRow<T>) -> bool {
        self.as_slice() == other.as_slice()
    }
}

impl<T: Eq> Eq for SharedRow<T> {
    ghost laws = { lists_equiv T.Eq.laws };
}

impl<T: Drop> Copied for SharedRow<T> {
    ghost typed = { λ _. Unit {0} };

    fn copy(&self, _alloc: Global) -> Result<SharedRow<T>, NoMemory> {
        self.share()
    }
}
