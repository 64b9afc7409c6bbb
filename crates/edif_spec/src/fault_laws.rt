//! Laws on what a tree means and which faults stand in it.
ghost use Rattle.std.specs.Prelude.{ℕ, List, ◌≡◌, ◌⊎◌, IsTrue};
ghost use Rattle.netlist_schema.specs.Typed.{IsBytes};
ghost use Rattle.edif_spelling_spec.specs.Spelling.{Spells};
ghost use Rattle.edif_spelling_spec.specs.Tree.{Bare, bare, Placed};
ghost use Rattle.edif_spec.specs.Design.{Design};
ghost use Rattle.edif_spec.specs.Means.{MeansFile};
ghost use Rattle.edif_spec.specs.Faults.{place_of};
ghost use Rattle.edif_spec.specs.Rows.{has_keyword};
ghost use Rattle.edif_spec.specs.Stands.{Stands};
ghost use Rattle.edif_spec.specs.Told.{AreTwo, AreTwoEnds, Gives, IsFaulty, IsIn, IsLimitOf, IsOutside, IsTwice};
ghost use Rattle.edif_spec.specs.declared.fault.ClashKind.TheVariants.{Duplicate, EndTwice, SecondDesign, SecondView};
ghost use Rattle.edif_spec.specs.declared.fault.Kind.{Kind};
ghost use Rattle.edif_spec.specs.declared.fault.MeaningFault.TheVariants.{At, Clash, NotInProfile, OverLimit};
ghost use Rattle.edif_spec.specs.declared.keyword.Keyword.TheVariants.{Design as DesignWord, PortRef, View};
ghost use Rattle.edif_spec.specs.Writable.{IsWritable};
ghost use Rattle.edif_spec.specs.declared.fault.MeaningFault.{MeaningFault};

/// A tree means a design, or a fault stands in it, and not both. The tree is any whose words are identifiers, whose integers
/// fit 64 bits and whose strings are of bytes, as all that a text spells are.
pub fn fault_or_meaning()
    ensures apart { (t : Placed) (d : Design) (f : MeaningFault) → MeansFile (bare t) d → Stands t f → ⊥ }
    ensures known { (t : Placed) → IsWritable (bare t) → ((d : Design) × MeansFile (bare t) d) ⊎ ((f : MeaningFault) × Stands t f) }
{}

/// The tree that a text of bytes spells has identifiers as its words, integers of 64 bits, and strings of bytes.
pub fn spelled_tree_is_writable()
    ensures { (bytes : List ℕ) (t : Bare) → IsBytes bytes → Spells bytes t → IsWritable t }
{}

/// A fault that stands names what is there. Outside the profile is a form with the keyword that is named, at the place that is
/// named, in a form whose row does not have it, or as the tree itself. A fault of one place is a node of the tree: the argument
/// of a version, a level, a view's type, an array or a member, a port reference or a path for the kinds that are about these, and
/// for a reference that means nothing an identifier in a form that refers by it. A clash is two views or two designs of one form,
/// two words that give one name, or two ends in the nets of one contents; in each the earlier one stands first. A word gives the
/// name that it spells, and as the identifier of a net's array those of its nets. The two words are those of two definitions in
/// one form: two cells, ports, instances, properties or libraries that define the name, two nets, or two notes of one path with
/// the name as their key. What is beyond a limit is a node of the tree, of the kind that the limit is on.
pub fn fault_is_there()
    ensures outside { (t : Placed) (name : List ℕ) (place : ℕ) → Stands t (NotInProfile name place) → IsOutside t name place }
    ensures at { (t : Placed) (kind : Kind) (place : ℕ) → Stands t (At kind place) → (u : Placed) × (place_of u ≡ place) × IsFaulty kind t u }
    ensures views { (t : Placed) (place earlier : ℕ) → Stands t (Clash SecondView place earlier) → (a : Placed) × (b : Placed) × (place_of a ≡ earlier) × (place_of b ≡ place) × AreTwo t View a b }
    ensures designs { (t : Placed) (place earlier : ℕ) → Stands t (Clash SecondDesign place earlier) → (a : Placed) × (b : Placed) × (place_of a ≡ earlier) × (place_of b ≡ place) × AreTwo t DesignWord a b }
    ensures names { (t : Placed) (place earlier : ℕ) → Stands t (Clash Duplicate place earlier) → (name : List ℕ) × Gives t name earlier × Gives t name place × IsTwice t name place earlier }
    ensures ends { (t : Placed) (place earlier : ℕ) → Stands t (Clash EndTwice place earlier) → (a : Placed) × (b : Placed) × (place_of a ≡ earlier) × (place_of b ≡ place) × (IsIn t a × IsTrue (has_keyword PortRef (bare a))) × (IsIn t b × IsTrue (has_keyword PortRef (bare b))) × AreTwoEnds t a b }
    ensures limits { (t : Placed) (limit place : ℕ) → Stands t (OverLimit limit place) → (u : Placed) × (place_of u ≡ place) × IsIn t u × IsLimitOf limit u }
{}
