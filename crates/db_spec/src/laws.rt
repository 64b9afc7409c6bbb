//! What holds of every legal history. A law is what a function without parameters ensures; there is nothing to run.
ghost use Rattle.std.specs.Prelude.{◌≡◌, ◌↔◌, ◌⊎◌, ◌≤◌, ◌<◌, ◌+◌, length, List, [], ◌∷◌, ◌++◌, ℕ, map};
ghost use Rattle.std.specs.List.{All};
ghost use Rattle.netlist_schema.specs.Design.{Design};
ghost use Rattle.netlist_schema.specs.Types.{Object};
ghost use Rattle.netlist_schema.specs.Valid.{IsValid};
ghost use Rattle.edit_spec.specs.Frame.{IsReplayed};
ghost use Rattle.edit_rules_spec.specs.Objects.{IsClosed, IsThere};
ghost use Rattle.edit_spec.specs.Step.{run};
ghost use Rattle.edit_spec.specs.declared.ops.Op.{Op};
ghost use Rattle.edit_rules_spec.specs.declared.reply.Reply.{Reply};
ghost use Rattle.db_spec.specs.Answers.{Admits, Answers, HasNoConflict, HasRoom, IsCallers, IsKept};
ghost use Rattle.db_spec.specs.History.{IsLegalFrom, Legal, state_after, version_at};
ghost use Rattle.db_spec.specs.Laws.{IsGrowing, IsReleaseOf, IsSound, IsTypedCall, accepted, asked};
ghost use Rattle.db_spec.specs.State.{IsLive, IsWritten, after, collected, head, next_version, version};
ghost use Rattle.db_spec.specs.declared.event.Answer.{Answer};
ghost use Rattle.db_spec.specs.declared.event.Answer.TheVariants.{Conflict};
ghost use Rattle.db_spec.specs.declared.event.Call.{Call};
ghost use Rattle.db_spec.specs.declared.event.Call.TheVariants.{Commit};
ghost use Rattle.db_spec.specs.declared.event.Event.{Event};

/// A history with one more event is legal exactly where the history is and the event may come next: it has room, is its
/// caller's and has the answer of its call. The state is then the one after that event.
pub fn one_more_event()
    ensures legal { (d : Design) (events : List Event) (event : Event) → Legal d (events ++ event ∷ []) ↔ (Legal d events × Admits (state_after d events) event) }
    ensures state { (d : Design) (events : List Event) (event : Event) → state_after d (events ++ event ∷ []) ≡ after (state_after d events) event }
{}

/// A history is legal exactly where its beginning is and the rest is from there on.
pub fn legal_by_parts()
    ensures { (d : Design) (events more : List Event) → Legal d (events ++ more) ↔ (Legal d events × IsLegalFrom (state_after d events) more) }
{}

/// Along a legal history the number of events and the number of live pins together never fall and stay within the limit,
/// and later versions are grown.
pub fn growth()
    ensures { (d : Design) (events more : List Event) → Legal d (events ++ more) → IsGrowing d events more }
{}

/// A call that finds no room after a legal history finds none after one that goes on from it, not even once all pins are
/// released.
pub fn full_stays_full()
    ensures { (d : Design) (events more : List Event) (call : Call) → Legal d (events ++ more) → ¬ HasRoom (state_after d events) call → ¬ HasRoom (state_after d (events ++ more)) call }
{}

/// A version is the same in every history that begins with one that has it, and so is the written set of its commit.
pub fn version_stays()
    ensures design { (d : Design) (events more : List Event) (v : ℕ) → v ≤ head (state_after d events) → version_at d (events ++ more) v ≡ version_at d events v }
    ensures written { (d : Design) (events more : List Event) (w : ℕ) (object : Object) → w ≤ head (state_after d events) → IsWritten (state_after d (events ++ more)) w object ↔ IsWritten (state_after d events) w object }
{}

/// Each version is what the operations of its commit make of the one before. The version that an accepted commit makes is the next
/// one, and in this and each later history it is what the commit's operations make of the version that was last when it came.
pub fn versions_follow()
    ensures next { (d : Design) (events : List Event) (v : ℕ) → v < head (state_after d events)
        → version_at d events (v + 1) ≡ (run (version_at d events v) (version (state_after d events) (v + 1)).made_by).design }
    ensures commit { (d : Design) (events more : List Event) (caller number : ℕ) (ops : List Op) (made : ℕ) (replies : List Reply) → Legal d (events ++ accepted caller number ops made replies ∷ more)
        → (made ≡ head (state_after d events) + 1) × (version (state_after d (events ++ accepted caller number ops made replies ∷ more)) made ≡ next_version (state_after d events) ops) }
{}

/// What a commit wrote is there in its version and in each later one, and so the object of a refused commit is there in the last one.
pub fn written_is_there()
    ensures version { (d : Design) (events : List Event) (v w : ℕ) (object : Object) → w ≤ v → v ≤ head (state_after d events) → IsWritten (state_after d events) w object → IsThere (version_at d events v) object }
    ensures conflict { (d : Design) (events : List Event) (caller number : ℕ) (ops : List Op) (object : Object) (w : ℕ) → Answers (state_after d events) caller (Commit number ops) (Conflict object w)
        → IsThere (version_at d events (head (state_after d events))) object }
{}

/// Where no commit after a pin's version wrote what operations read there, they read and write the same objects on the
/// last version as on the pinned one, and reply the same. So the replies to an accepted commit, which are those on the
/// last version, are those on the pinned version.
pub fn replies_on_head()
    ensures same { (d : Design) (events : List Event) (caller number v : ℕ) (ops : List Op) → IsClosed d → Legal d events → IsLive (state_after d events) number caller v
        → HasNoConflict (state_after d events) v ops → IsReplayed (version_at d events v) (version_at d events (head (state_after d events))) ops }
    ensures replies { (d : Design) (events : List Event) (caller number v : ℕ) (ops : List Op) (version : ℕ) (replies : List Reply) → IsClosed d
        → Legal d (events ++ accepted caller number ops version replies ∷ []) → IsLive (state_after d events) number caller v → replies ≡ (run (version_at d events v) ops).replies }
{}

/// The numbers of pins and versions after a legal history: how many there are, that no two live pins have one number, that
/// the kept versions stand in order and end with the last version, and that those of live pins are kept. Events are counted.
pub fn states_are_sound()
    ensures sound { (d : Design) (events : List Event) → Legal d events → IsSound (state_after d events) }
    ensures counted { (d : Design) (events : List Event) → (state_after d events).events ≡ length events }
{}

/// A collect leaves just the last version and those of live pins.
pub fn collect_leaves_what_is_held()
    ensures { (d : Design) (events : List Event) (v : ℕ) → Legal d events
        → IsKept (collected (state_after d events)) v ↔ ((v ≡ head (state_after d events)) ⊎ ((number caller : ℕ) × IsLive (state_after d events) number caller v)) }
{}

/// A live pin stays live, its caller's and on its version until its caller releases it, whatever else comes.
pub fn pin_stays_live()
    ensures { (d : Design) (events more : List Event) (caller number v : ℕ) → Legal d (events ++ more) → IsLive (state_after d events) number caller v
        → All (λ event. ¬ IsReleaseOf caller number event) more → IsLive (state_after d (events ++ more)) number caller v }
{}

/// After a legal history a call has at most one answer, and no call whose pin is live and the caller's is without one.
pub fn one_answer()
    ensures at_most_one { (d : Design) (events : List Event) (caller : ℕ) (call : Call) (a b : Answer) → Legal d events
        → Answers (state_after d events) caller call a → Answers (state_after d events) caller call b → a ≡ b }
    ensures at_least_one { (d : Design) (events : List Event) (caller : ℕ) (call : Call) → Legal d events → IsCallers (state_after d events) caller call
        → ¬ ((answer : Answer) → ¬ Answers (state_after d events) caller call answer) }
{}

/// The callers and their calls, in order, determine a legal history.
pub fn one_history()
    ensures { (d : Design) (events others : List Event) → Legal d events → Legal d others → map asked events ≡ map asked others → events ≡ others }
{}

/// Each version is a valid design where the first one is, and in each each instance is of a cell of the design where it is so
/// in the first one.
pub fn versions_are_valid()
    ensures valid { (d : Design) (events : List Event) (v : ℕ) → IsValid d → All (λ event. IsTypedCall event.call) events → v ≤ head (state_after d events) → IsValid (version_at d events v) }
    ensures closed { (d : Design) (events : List Event) (v : ℕ) → IsClosed d → v ≤ head (state_after d events) → IsClosed (version_at d events v) }
{}
