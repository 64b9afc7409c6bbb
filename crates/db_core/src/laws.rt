//! What holds of pins as a history goes on. A law is what a function without parameters ensures; there is nothing to run.
ghost use Rattle.std.specs.Prelude.{List, ◌++◌};
ghost use Rattle.std.specs.List.{All};
ghost use Rattle.edit_tx.specs.Facts.{PinFacts};
ghost use Rattle.db_spec.specs.History.{Legal};
ghost use Rattle.db_spec.specs.Laws.{IsReleaseOf};
ghost use Rattle.db_spec.specs.declared.event.Event.{Event};
ghost use Rattle.db_core.specs.Story.{Story, IsPinOf};

/// A pin of a database stays one, with the design of its version, until its caller releases it, whatever else comes.
pub fn pin_stays()
    ensures { (story : Story) (more : List Event) (pin : PinFacts) → Legal story.opening (story.events ++ more) → IsPinOf story pin → All (λ event. ¬ IsReleaseOf pin.caller pin.number event) more
        → IsPinOf (record story { events = story.events ++ more }) pin }
{}
