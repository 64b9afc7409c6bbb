//! The items of a list in pages, in order.
ghost use Rattle.std.specs.Prelude.{◌≡◌, drop, slice_get};
ghost use Rattle.std.specs.Option.{option_copied};
ghost use Rattle.std.specs.Iterator.{YieldsFirstRef, item_count};

use crate::page::Page;
use std::marker::Model;

/// Yields the items that are left, in order. Contracts see their list.
#[derive(Drop)]
pub struct Each<'a, T> {
    pub(crate) page: &'a [T],
    pub(crate) pages: &'a [Page<T>],
}

impl<'a, T> Model for Each<'a, T> {
    ghost use Rattle.std.specs.Prelude.{List, ◌++◌};
    ghost use Rattle.netlist_pages.specs.Pages.{listed};

    ghost Value = { List T };

    ghost view = { λ e. e.page.now ++ listed e.pages.now };
}

impl<'a, T> Each<'a, T> {
    /// The items of a slice.
    #[inline]
    pub fn of(items: &'a [T]) -> Each<'a, T>
        ensures { result ≡ items.now }
    {
        Each {
            page: items,
            pages: &[],
        }
    }

    /// The same items once more.
    #[inline]
    pub fn again(&self) -> Each<'a, T>
        ensures { result ≡ self.now }
    {
        Each {
            page: self.page,
            pages: self.pages,
        }
    }

    /// The first of the items.
    #[inline]
    pub fn first(&self) -> Option<&'a T>
        ensures { option_copied result ≡ slice_get self.now 0 }
    {
        let mut items = self.again();
        items.next()
    }

    /// The items behind so many.
    pub fn behind(&self, count: usize) -> Each<'a, T>
        ensures { result ≡ drop count self.now }
    {
        let mut items = self.again();
        for _ in 0..count {
            let Some(_item) = items.next() else {
                return items;
            };
        }
        items
    }
}

impl<'a, T> Iterator for Each<'a, T> {
    type Item = &'a T;

    ghost next_gives = { YieldsFirstRef (λ rest. rest) };

    ghost remaining = { item_count (λ rest. rest) };

    #[inline]
    fn next(&mut self) -> Option<&'a T> {
        if let Some((first, others)) = self.page.split_first() {
            self.page = others;
            return Some(first);
        }
        while let Some((page, pages)) = self.pages.split_first() {
            self.pages = pages;
            if let Some((first, others)) = page.as_slice().split_first() {
                self.page = others;
                return Some(first);
            }
        }
        None
    }
}
