//! `PartsRef`: a list that is lent.
ghost use Rattle.std.specs.Prelude.{◌≡◌, ◌<◌, [], drop, get_or, length, slice_get, Some};
ghost use Rattle.std.specs.Option.{option_copied};

use crate::parts::Parts;
use netlist_pages::Each;
use std::marker::Model;

/// A list that is lent, or the list without items, as a slice is a list in one piece that is lent. Contracts see the list.
#[derive(Drop)]
pub struct PartsRef<'a, T> {
    pub(crate) parts: Option<&'a Parts<T>>,
}

impl<'a, T> Model for PartsRef<'a, T> {
    ghost use Rattle.std.specs.Prelude.{List, []};
    ghost use Rattle.std.specs.Option.{option_copied, unwrap_or};

    ghost Value = { List T };

    ghost view = { λ r. unwrap_or (option_copied r.parts) [] };
}

impl<'a, T> PartsRef<'a, T> {
    /// The list without items.
    #[inline]
    pub fn none() -> PartsRef<'a, T>
        ensures { result ≡ [] }
    {
        PartsRef { parts: None }
    }

    /// How many items there are.
    #[inline]
    pub fn len(&self) -> usize
        ensures { result ≡ length self.now }
    {
        match self.parts {
            Some(parts) => parts.len(),
            None => 0,
        }
    }

    /// The item at a place.
    #[inline]
    pub fn get(&self, place: usize) -> Option<&'a T>
        ensures { option_copied result ≡ slice_get self.now place }
    {
        match self.parts {
            Some(parts) => parts.get(place),
            None => None,
        }
    }

    /// The item at a place that is there.
    #[inline]
    pub fn at(&self, place: usize) -> &'a T
        requires { place < length self.now }
        ensures there { slice_get self.now place ≡ Some result.now }
        ensures is { result.now ≡ get_or self.now place result.now }
    {
        match self.get(place) {
            Some(item) => item,
            None => unreachable!(),
        }
    }

    /// Each item, in order. Takes less time than to get them one by one.
    #[inline]
    pub fn iter(&self) -> Each<'a, T>
        ensures { result ≡ self.now }
    {
        match self.parts {
            Some(parts) => parts.iter(),
            None => Each::of(&[]),
        }
    }

    /// Each item from a place on, in order.
    pub fn iter_from(&self, place: usize) -> Each<'a, T>
        ensures { result ≡ drop place self.now }
    {
        match self.parts {
            Some(parts) => parts.iter_from(place),
            None => Each::of(&[]),
        }
    }
}
