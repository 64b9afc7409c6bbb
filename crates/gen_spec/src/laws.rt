//! What holds of the definitions. A law is what a function without parameters ensures; there is nothing to run.
ghost use Rattle.std.specs.Prelude.{◌≡◌, ℕ, List};
ghost use Rattle.gen_spec.specs.Calls.{IsGenerated};
ghost use Rattle.gen_spec.specs.Summary.{IsSummaryOf};
ghost use Rattle.db_spec.specs.declared.event.Event.{Event};

/// A number has one run at most: its callers and their calls determine each answer.
pub fn one_run()
    ensures { (n : ℕ) (a b : List Event) → IsGenerated n a → IsGenerated n b → a ≡ b }
{}

/// So it has one summary at most.
pub fn one_summary()
    ensures { (n : ℕ) (a b : List ℕ) → IsSummaryOf n a → IsSummaryOf n b → a ≡ b }
{}
