//! What the definitions of fitting and failing say of every form.
ghost use Rattle.std.specs.Prelude.{Option};
ghost use Rattle.edif_spelling_spec.specs.Tree.{Placed};
ghost use Rattle.edif_spec.specs.declared.keyword.Keyword.{Keyword};
ghost use Rattle.edif_grammar.specs.declared.lent.Breach.{Breach};
ghost use Rattle.edif_grammar.specs.Forms.{Fails, Fits, fault_of};

/// No form fits, under any keyword, and fails.
pub fn no_form_fits_and_fails()
    ensures { (parent : Option Keyword) (k : Keyword) (t : Placed) (b : Breach) → Fails parent t (fault_of b) → Fits parent k t → ⊥ }
{}
