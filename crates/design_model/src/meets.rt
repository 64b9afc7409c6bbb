//! Whether two nets of a tree meet.
ghost use Rattle.std.specs.Prelude.{◌≡◌, ◌&&◌};
ghost use Rattle.flat_spec.specs.ConnectionTest.{are_neighbours, bit_of, has_end, meets, same_end, share_bit};
ghost use Rattle.flat_spec.specs.Paths.{on, own};

use crate::ends::ends_at;
use flat_spec::NetAt;
use netlist_schema::{CellId, End, Shown};

/// Whether the end is among those that are joined.
pub(crate) fn has_end(ends: &[End], end: End) -> bool
    ensures { result ≡ has_end ends.now end }
{
    ends.iter().any(|other| end == *other)
}

/// Whether the end is one of the cell's own bits, and the same bit of the instance is among the upper ends.
fn is_shared(step: u32, upper: &[End], end: End) -> bool
    ensures { result ≡ (same_end end (own (bit_of end)) && has_end upper.now (on step (bit_of end))) }
{
    let inner = End {
        inst: None,
        port: end.port,
        bit: end.bit,
    };
    let outer = End {
        inst: Some(step),
        port: end.port,
        bit: end.bit,
    };
    end == inner && has_end(upper, outer)
}

/// Whether some bit is among the lower ends as the cell's own, and among the upper ones as that of the instance.
fn share_bit(step: u32, upper: &[End], lower: &[End]) -> bool
    ensures { result ≡ share_bit step upper.now lower.now }
{
    lower.iter().any(|end| is_shared(step, upper, *end))
}

/// Whether the upper net meets the lower one.
fn meets<S: Shown>(design: &S, root: CellId, upper: &NetAt, lower: &NetAt) -> bool
    ensures { result ≡ meets (S.design design.now) root upper.now lower.now }
{
    match lower.path.as_slice().split_last() {
        Some((step, path)) => {
            path == upper.path.as_slice()
                && share_bit(
                    *step,
                    ends_at(design, root, upper),
                    ends_at(design, root, lower),
                )
        }
        None => false,
    }
}

/// Whether one of two nets below the root meets the other: the upper one joins a bit of an instance, and the lower one, in the
/// contents of that instance, joins the same bit as its cell's own.
pub(crate) fn are_neighbours<S: Shown>(
    design: &S,
    root: CellId,
    first: &NetAt,
    second: &NetAt,
) -> bool
    ensures { result ≡ are_neighbours (S.design design.now) root first.now second.now }
{
    meets(design, root, first, second) || meets(design, root, second, first)
}
