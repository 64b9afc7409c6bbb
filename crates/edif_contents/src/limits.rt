//! Limits on how many forms may stand, and on where.
ghost use Rattle.std.specs.Prelude.{◌≡◌, ◌<◌, ◌≤◌};
ghost use Rattle.edif_spec.specs.declared.fault.MeaningFault.TheVariants.{OverLimit};
ghost use Rattle.edif_parts.specs.Reading.{Answers};

use edif_parts::{EdifError, over_limit};

/// Whether there is room for a form at this place, where so many stand before it; else it is the first beyond the limit.
pub(crate) fn room(count: usize, limit: usize, place: u64) -> Result<(), EdifError>
    ensures { Answers (λ _. count < limit) (λ f. (limit ≤ count) × (f ≡ OverLimit limit place)) result }
{
    if count < limit {
        Ok(())
    } else {
        Err(over_limit(limit as u64, place))
    }
}
