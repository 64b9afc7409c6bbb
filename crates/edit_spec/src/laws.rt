//! Laws of the operations.
ghost use Rattle.std.specs.Prelude.{◌≡◌, ◌↔◌, ◌⊎◌, ◌++◌, ◌∷◌, [], Bool, IsSome, List, Some, ℕ, length, map};
ghost use Rattle.std.specs.List.{All};
ghost use Rattle.netlist_schema.specs.Design.{Design};
ghost use Rattle.netlist_schema.specs.Types.{Inst, Object};
ghost use Rattle.netlist_schema.specs.Valid.{IsValid};
ghost use Rattle.edit_spec.specs.Frame.{ChangesNothing, IsFramed, IsReplayed};
ghost use Rattle.edit_spec.specs.Needs.{Needs, Reads, Writes, Written};
ghost use Rattle.edit_rules_spec.specs.Objects.{AgreesOn, Grown, IsClosed, IsThere, cell_name_at};
ghost use Rattle.edit_rules_spec.specs.Overlay.{IsOverlaid};
ghost use Rattle.edit_rules_spec.specs.Rule.{IsRefusal};
ghost use Rattle.edit_rules_spec.specs.Seen.{inside, placed};
ghost use Rattle.edit_spec.specs.ShowNet.{ends_of_net, net_shown};
ghost use Rattle.edit_spec.specs.Step.{step, run};
ghost use Rattle.edit_spec.specs.Typed.{IsTypedOp};
ghost use Rattle.edit_spec.specs.Ungrouping.{UngroupKeeps};
ghost use Rattle.edit_spec.specs.Worked.{drop_replies, ungroup_replies, whole_replies, worked_design};
ghost use Rattle.edit_spec.specs.WorkedMiddle.{IsMiddleGone, own_replies, three};
ghost use Rattle.edit_spec.specs.WorkedLimits.{IsFullLibrary, IsLimitReached, limit_replies, two_libraries};
ghost use Rattle.edit_rules_spec.specs.declared.reply.CellName.{CellName};
ghost use Rattle.uniquify_spec.specs.Erased.{erased_flattening};
ghost use Rattle.edit_spec.specs.declared.ops.Op.TheVariants.{Uniquify, UniquePath};
ghost use Rattle.edit_spec.specs.declared.ops.Op.{Op};
ghost use Rattle.edit_spec.specs.declared.ops.PortDecl.{PortDecl};

/// An operation keeps that each instance is of a cell of the design.
pub fn step_keeps_closed()
    ensures { (d : Design) (op : Op) → IsClosed d → IsClosed (step d op).design }
{}

/// An operation does the same to two designs that agree on what it needs.
pub fn frame()
    ensures { (d e : Design) (op : Op) → IsClosed d → Grown d e → AgreesOn d e (Needs d op) → IsFramed d e op }
{}

/// Operations do the same to two designs that agree on what they read.
pub fn replay()
    ensures { (d e : Design) (ops : List Op) → IsClosed d → Grown d e → AgreesOn d e (Reads d ops) → IsReplayed d e ops }
{}

/// The design after an operation is grown.
pub fn step_is_grown()
    ensures { (d : Design) (op : Op) → Grown d (step d op).design }
{}

/// The design after several operations is grown.
pub fn run_is_grown()
    ensures { (d : Design) (ops : List Op) → Grown d (run d ops).design }
{}

/// Several operations keep a valid design valid.
pub fn run_is_valid()
    ensures { (d : Design) (ops : List Op) → All IsTypedOp ops → IsValid d → IsValid (run d ops).design }
{}

/// An operation that is refused changes nothing and writes nothing.
pub fn refused_changes_nothing()
    ensures { (d : Design) (op : Op) → IsRefusal (step d op).reply → ChangesNothing d op }
{}

/// An operation keeps a valid design valid.
pub fn step_is_valid()
    ensures { (d : Design) (op : Op) → IsTypedOp op → IsValid d → IsValid (step d op).design }
{}

/// In a valid design a net is shown with all its ends.
pub fn net_is_shown_whole()
    ensures { (d : Design) (cell : CellName) (net : List ℕ) → IsValid d → length (net_shown d cell net) ≡ length (ends_of_net (inside d cell) net) }
{}

/// In a valid design an instance that is found is shown: its cell has a name.
pub fn inst_is_shown()
    ensures { (d : Design) (cell : CellName) (name : List ℕ) (inst : Inst) → IsValid d → placed d cell name ≡ Some inst → IsSome (cell_name_at d inst.of) }
{}

/// The operations of the worked example, one after the other, reply as it says.
pub fn worked_example()
    ensures { (run worked_design (map (λ line. line.0) whole_replies)).replies ≡ map (λ line. line.1) whole_replies }
{}

/// What operations leave of a later design is that design with what they wrote on the earlier one.
pub fn commit_overlays()
    ensures { (d e : Design) (ops : List Op) → IsClosed d → Grown d e → AgreesOn d e (Reads d ops) → IsOverlaid e (run d ops).design (Written d ops) (run e ops).design }
{}

/// Whether operations write an object can be told, and the overlay of what they wrote is one design: where they read the same on both,
/// what they leave of a later design is the later design with what they wrote on the earlier one, and nothing else is.
pub fn overlay_is_the_run()
    ensures told { (d : Design) (ops : List Op) (o : Object) → Written d ops o ⊎ (¬ Written d ops o) }
    ensures only { (d e : Design) (ops : List Op) (result : Design) → IsClosed d → Grown d e → AgreesOn d e (Reads d ops)
        → IsOverlaid e (run d ops).design (Written d ops) result → result ≡ (run e ops).design }
{}

/// What operations leave unwritten stays.
pub fn run_leaves_the_rest()
    ensures { (d : Design) (ops : List Op) → AgreesOn d (run d ops).design (λ o. ¬ Written d ops o) }
{}

/// One more operation is done on what those before leave: the design, the replies, what is read and what is written.
pub fn one_more_operation()
    ensures design { (d : Design) (ops : List Op) (op : Op) → (run d (ops ++ op ∷ [])).design ≡ (step (run d ops).design op).design }
    ensures replies { (d : Design) (ops : List Op) (op : Op) → (run d (ops ++ op ∷ [])).replies ≡ (run d ops).replies ++ (step (run d ops).design op).reply ∷ [] }
    ensures reads { (d : Design) (ops : List Op) (op : Op) (o : Object) → Reads d (ops ++ op ∷ []) o ↔ (Reads d ops o ⊎ Needs (run d ops).design op o) }
    ensures written { (d : Design) (ops : List Op) (op : Op) (o : Object) → Written d (ops ++ op ∷ []) o ↔ (Written d ops o ⊎ Writes (run d ops).design op o) }
{}

/// An object that is written is there afterwards.
pub fn written_is_there()
    ensures step { (d : Design) (op : Op) (o : Object) → Writes d op o → IsThere (step d op).design o }
    ensures run { (d : Design) (ops : List Op) (o : Object) → Written d ops o → IsThere (run d ops).design o }
{}

/// The operations of the second worked example reply as it says.
pub fn drop_example()
    ensures { (run worked_design (map (λ line. line.0) drop_replies)).replies ≡ map (λ line. line.1) drop_replies }
{}

/// An instance in the middle goes with its ends and its notes, later instances move one place forward, and properties and notes that
/// are set again stand in their places.
pub fn middle_example()
    ensures { IsMiddleGone }
{}

/// Ends of a cell's own ports are joined, shown and cut as the worked example says.
pub fn own_ends_example()
    ensures { (run three (map (λ line. line.0) own_replies)).replies ≡ map (λ line. line.1) own_replies }
{}

/// The operations of the third worked example reply as it says.
pub fn limits_example()
    ensures { (run two_libraries (map (λ line. line.0) limit_replies)).replies ≡ map (λ line. line.1) limit_replies }
{}

/// What would pass a limit is refused, and what reaches it is not.
pub fn limit_is_reached()
    ensures { IsLimitReached }
{}

/// Uniquify and UniquePath keep the flattening, up to the names of cells that are no leaves.
pub fn copies_keep_flattening()
    ensures uniquify { (d : Design) → IsValid d → erased_flattening (step d Uniquify).design ≡ erased_flattening d }
    ensures unique_path { (d : Design) (path : List (List ℕ)) → IsValid d → erased_flattening (step d (UniquePath path)).design ≡ erased_flattening d }
{}

/// An ungroup of a valid design that replies that it is done dissolves the instance of that name, and keeps the occurrences, each with its
/// cell, designator and properties, the connections with their representatives, and the net of every pin.
pub fn ungroup_keeps()
    ensures { UngroupKeeps }
{}

/// A library of 65,536 cells takes no other one.
pub fn full_library_refuses()
    ensures { (d : Design) (cell : CellName) (leaf : Bool) (ports : List PortDecl) → IsFullLibrary d cell leaf ports }
{}

/// The operations of the worked example with an ungroup reply as it says.
pub fn ungroup_example()
    ensures { (run worked_design (map (λ line. line.0) ungroup_replies)).replies ≡ map (λ line. line.1) ungroup_replies }
{}
