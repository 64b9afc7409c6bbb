//! What the definitions say of a text that goes on behind its first fault.
ghost use Rattle.std.specs.Prelude.{◌≡◌, ◌++◌, ℕ, List, None, Some};
ghost use Rattle.edif_spelling_spec.specs.Ends.{IsMadeByEnd};
ghost use Rattle.edif_spelling_spec.specs.Lexing.{Fault, tokens, lex_fault};
ghost use Rattle.edif_spelling_spec.specs.TreeFaults.{TreeFault, tree_fault};
ghost use Rattle.edif_spelling_spec.specs.declared.token.Token.{Token};
ghost use Rattle.edif_spelling_spec.specs.declared.tree_fault.TreeKind.TheVariants.{Unended};

/// The first fault of a text does not depend on what follows it, and neither do the tokens before it, but where the end of the
/// text makes the fault; and where the end makes it, the text can go on to one without a fault.
pub fn fault_stays()
    ensures stays { (bytes more : List ℕ) (fault : Fault) → lex_fault bytes ≡ Some fault → (IsMadeByEnd bytes fault → ⊥)
        → (lex_fault (bytes ++ more) ≡ Some fault) × (tokens (bytes ++ more) ≡ tokens bytes) }
    ensures mends { (bytes : List ℕ) (fault : Fault) → lex_fault bytes ≡ Some fault → IsMadeByEnd bytes fault
        → (more : List ℕ) × (lex_fault (bytes ++ more) ≡ None) }
{}

/// The first tree fault of tokens does not depend on the tokens that follow nor on where the input ends, but where it is
/// `Unended`; and where it is, the tokens can go on to ones without a fault.
pub fn tree_fault_stays()
    ensures stays { (ts more : List Token) (end later : ℕ) (fault : TreeFault) → tree_fault ts end ≡ Some fault
        → (fault.kind ≡ Unended → ⊥) → tree_fault (ts ++ more) later ≡ Some fault }
    ensures mends { (ts : List Token) (end later : ℕ) (fault : TreeFault) → tree_fault ts end ≡ Some fault
        → fault.kind ≡ Unended → (more : List Token) × (tree_fault (ts ++ more) later ≡ None) }
{}
