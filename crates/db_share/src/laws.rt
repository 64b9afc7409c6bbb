//! What a caller knows between its calls. A law is what a function without parameters ensures; there is nothing to run.
ghost use Rattle.std.specs.Prelude.{◌≡◌, ◌≢◌, ℕ, Contains, Result};
ghost use Rattle.std.specs.List.{All};
ghost use Rattle.netlist_schema.specs.Valid.{IsValid};
ghost use Rattle.edit_tx.specs.Facts.{PinFacts, TxFacts};
ghost use Rattle.db_spec.specs.declared.event.Call.{Call};
ghost use Rattle.db_spec.specs.declared.event.Call.TheVariants.{Release};
ghost use Rattle.db_spec.specs.declared.event.Answer.{Answer};
ghost use Rattle.db_spec.specs.declared.event.Answer.TheVariants.{Pinned};
ghost use Rattle.db_spec.specs.State.{IsLive};
ghost use Rattle.db_core.specs.declared.errors.CollectError.{CollectError};
ghost use Rattle.db_core.specs.declared.errors.CommitError.{CommitError};
ghost use Rattle.db_core.specs.declared.errors.PinAtError.{PinAtError};
ghost use Rattle.db_core.specs.declared.errors.PinError.{PinError};
ghost use Rattle.db_core.specs.Calls.{event_of};
ghost use Rattle.db_share.specs.Passes.{Shared, Pass, HasPin, IsReady, KeepsPins, known, new_pass};
ghost use Rattle.db_share.specs.Calls.{GoesOn, HasCollected, HasCommitted, HasPinned, HasPinnedAt, HasReleased, Looks, Makes};

/// A pass is ready before its first call, where the opening design is valid, and what a pass goes on with over two calls it goes on with over both.
pub fn passes_go_on()
    ensures first { (db : Shared) (number : ℕ) → IsValid db.base → IsReady db (new_pass db number) }
    ensures both { (db : Shared) (first second third : Pass) → GoesOn db first second → GoesOn db second third → GoesOn db first third }
{}

/// A pin of a pass stays its own and live over each call of the pass but its release.
pub fn pins_stay()
    ensures looks { (db : Shared) (old new : Pass) (pin : PinFacts) → IsReady db old → Looks db old new → HasPin db old pin → HasPin db new pin }
    ensures makes { (db : Shared) (old new : Pass) (call : Call) (answer : Answer) (pin : PinFacts) → IsReady db old → Makes db old new call answer
        → ¬ (call ≡ Release pin.number) → HasPin db old pin → HasPin db new pin }
{}

/// Over each call but a release a pass keeps its pins, and over a release all others.
pub fn calls_keep_pins()
    ensures pin { (db : Shared) (old new : Pass) (r : Result PinFacts PinError) → IsReady db old → HasPinned db old new r → KeepsPins db old new }
    ensures pin_at { (db : Shared) (old new : Pass) (version : ℕ) (r : Result PinFacts PinAtError) → IsReady db old → HasPinnedAt db old new version r → KeepsPins db old new }
    ensures collect { (db : Shared) (old new : Pass) (r : Result ℕ CollectError) → IsReady db old → HasCollected db old new r → KeepsPins db old new }
    ensures commit { (db : Shared) (old new : Pass) (tx : TxFacts) (r : Result (ℕ × PinFacts) (CommitError × TxFacts)) → IsReady db old → HasCommitted db old new tx r → KeepsPins db old new }
    ensures release { (db : Shared) (old new : Pass) (released pin : PinFacts) → IsReady db old → HasReleased db old new released → released.number ≢ pin.number → HasPin db old pin → HasPin db new pin }
{}

/// A pin that is among the answers to a pass, and whose release is not among its calls, is live and on the version that was
/// answered.
pub fn unreleased_pins_are_live()
    ensures { (db : Shared) (pass : Pass) (call : Call) (number v : ℕ) → IsReady db pass → Contains pass.own (event_of pass.number call (Pinned number v))
        → All (λ event. ¬ (event.call ≡ Release number)) pass.own → IsLive (known db pass) number pass.number v }
{}
