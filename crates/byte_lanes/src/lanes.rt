//! The first of sixteen.
ghost use Rattle.std.specs.Prelude.{◌≡◌};
ghost use Rattle.byte_lanes.specs.Lanes.{first_set};

/// How many bytes are looked at together.
pub const LANES: usize = 16;

/// The place of the lowest bit that is set in a mask, or `LANES` where none is.
#[inline(always)]
pub fn first_set(mask: u64) -> usize
    ensures { result ≡ first_set mask }
{
    if mask == 0 {
        LANES
    } else {
        mask.trailing_zeros() as usize
    }
}
