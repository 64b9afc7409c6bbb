//! Steps on a list.
ghost use Rattle.std.specs.Prelude.{◌≡◌, ◌<◌, Some, length, slice_get};

use uniquify_copies::Step;

/// The step at a place of a list.
#[tactic(auto, using(crate::proofs::Blocks::got))]
pub fn step_at(steps: &[Step], place: usize) -> Step
    requires { place < length steps.now }
    ensures { slice_get steps.now place ≡ Some result }
{
    steps[place]
}
