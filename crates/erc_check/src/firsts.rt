//! First nets, and how pins drive them.
ghost use Rattle.std.specs.Prelude.{◌≡◌, ℕ, IfSome, List, Option as Perhaps, map};
ghost use Rattle.std.specs.List.{AllPairs, Contains};
ghost use Rattle.std.specs.Option.{option_to_list};
ghost use Rattle.flat_spec.specs.ConnectionTest.{same_net};
ghost use Rattle.flat_spec.specs.PathOrder.{NetBefore};
ghost use Rattle.flat_spec.specs.Types.{NetAt as Place};
ghost use Rattle.flat_items.specs.Lent.{net_of};
ghost use Rattle.erc_check.specs.Firsts.{drive_after, first_found, IsPlaceOf, IsSearched, net_order, one_more, one_pin_more, with_note};

use erc_spec::Finding;
use flat_items::NetRef;
use flat_spec::NetAt;
use std::cmp::Ordering;

/// A net that is the first of those connected with it, and how many of the pins that were seen drive it strongly: nothing where none of
/// them drives it.
pub struct FirstNet {
    pub at: NetAt,
    pub drive: Option<u64>,
}

impl Drop for FirstNet {
    fn drop(self) {
        let FirstNet { at: _, drive: _ } = self;
    }
}

impl FirstNet {
    /// What is found of it.
    pub fn found(self) -> Option<Finding>
        ensures { option_to_list result ≡ first_found self }
    {
        let FirstNet { at, drive } = self;
        match drive {
            None => Some(Finding::Undriven { at }),
            Some(strong) => {
                if strong < 2 {
                    return None;
                }
                Some(Finding::Many { at, strong })
            }
        }
    }
}

/// How two nets compare: by their occurrences in path order, and within one by their places.
fn order(x: &NetAt, y: NetRef<'_>) -> Ordering
    ensures { result ≡ net_order x.now (net_of y.entry) }
{
    x.path.as_slice().cmp(y.path).then(x.net.cmp(&y.net))
}

/// Where a net may stand among first nets, if those from `near` on are of its occurrence.
fn guess(firsts: &[FirstNet], near: usize, net: u32) -> Option<usize> {
    let tail = firsts.get(near..)?;
    match tail.binary_search_by_key(&net, |first| first.at.net) {
        Ok(place) => near.checked_add(place),
        Err(_) => None,
    }
}

/// Whether a first net is this one.
fn is_net(first: &FirstNet, at: NetRef<'_>) -> bool
    ensures { result ≡ same_net first.now.at (net_of at.entry) }
{
    first.at.path.as_slice() == at.path && first.at.net == at.net
}

/// Where a net stands among the first nets from `near` on, if these are of its occurrence.
fn near_place(firsts: &[FirstNet], near: usize, at: NetRef<'_>) -> Option<usize>
    ensures { IfSome result (IsPlaceOf firsts.now (net_of at.entry)) }
{
    let Some(place) = guess(firsts, near, at.net) else {
        return None;
    };
    if place < firsts.len() && is_net(&firsts[place], at) {
        return Some(place);
    }
    None
}

/// Where a net stands among first nets: `None` only where it is none of them, or they are not in order. Only time depends on `near`.
fn place_of(firsts: &[FirstNet], near: usize, at: NetRef<'_>) -> Option<usize>
    ensures { IsSearched firsts.now (net_of at.entry) result }
{
    match near_place(firsts, near, at) {
        Some(place) => Some(place),
        None => search(firsts, at),
    }
}

/// Where a net stands among first nets: `None` only where it is none of them, or they are not in order.
fn search(firsts: &[FirstNet], at: NetRef<'_>) -> Option<usize>
    ensures { IsSearched firsts.now (net_of at.entry) result }
{
    let mut low = 0;
    let mut high = firsts.len();
    'halves: while low < high {
        let middle = low + (high - low) / 2;
        match order(&firsts[middle].at, at) {
            Ordering::Less => low = middle + 1,
            Ordering::Equal => return Some(middle),
            Ordering::Greater => high = middle,
        }
    }
    None
}

/// A count with one pin more.
fn one_more(count: Option<u64>, is_strong: bool) -> u64
    ensures { result ≡ one_more is_strong count }
{
    let before = count.unwrap_or(0);
    if is_strong {
        before.saturating_add(1)
    } else {
        before
    }
}

/// Adds a pin that drives a first net.
fn note(first: &mut FirstNet, is_strong: bool)
    ensures { first.new ≡ one_pin_more is_strong first.old }
{
    first.drive = Some(one_more(first.drive, is_strong));
}

/// Adds a pin that drives one of these first nets, looked for from `near` on before it is looked for among all. Takes no memory.
pub fn add_pin(firsts: &mut [FirstNet], near: usize, at: NetRef<'_>, is_strong: bool)
    ensures { (nets : List Place) (drives : Place → Perhaps ℕ) → AllPairs NetBefore nets → Contains nets (net_of at.entry)
        → firsts.old ≡ map (with_note drives) nets
        → firsts.new ≡ map (with_note (λ x. drive_after (net_of at.entry) is_strong x (drives x))) nets }
{
    match place_of(firsts, near, at) {
        Some(place) => note(&mut firsts[place], is_strong),
        None => {}
    }
}
