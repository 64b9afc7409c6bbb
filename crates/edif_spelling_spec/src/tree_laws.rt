//! What the definition of tree faults says of every row of tokens.
ghost use Rattle.std.specs.Prelude.{◌≡◌, ℕ, List, None, Some, map};
ghost use Rattle.edif_spelling_spec.specs.Lexing.{tokens, lex_fault};
ghost use Rattle.edif_spelling_spec.specs.Spelling.{Spells};
ghost use Rattle.edif_spelling_spec.specs.Tree.{Bare, Placed, bare, listing};
ghost use Rattle.edif_spelling_spec.specs.TreeFaults.{Lists, IsFile, TreeFault, tree_fault, IsFirstFault};
ghost use Rattle.edif_spelling_spec.specs.declared.token.Token.{Token};

/// Tokens have no tree fault exactly where they are those of a file's tree.
pub fn tree_or_fault()
    ensures tree { (ts : List Token) (end : ℕ) → tree_fault ts end ≡ None → (t : Placed) × IsFile ts t }
    ensures none { (ts : List Token) (end : ℕ) (t : Placed) → IsFile ts t → tree_fault ts end ≡ None }
{}

/// Tokens are those of one tree with places at most, and are so exactly where their kinds are the listing of a tree, which is
/// then that tree without its places.
pub fn one_placed_tree()
    ensures one { (ts : List Token) (s t : Placed) → Lists ts s → Lists ts t → s ≡ t }
    ensures listing { (ts : List Token) (t : Placed) → Lists ts t → listing (bare t) ≡ map (λ token. token.kind) ts }
    ensures placed { (ts : List Token) (b : Bare) → listing b ≡ map (λ token. token.kind) ts
        → (t : Placed) × Lists ts t × (bare t ≡ b) }
{}

/// The first tree fault stands at the first token with which the tokens can't go on to a file, or at the end where all of
/// them can go on and are no file; and what stands so is the first tree fault.
pub fn fault_is_first()
    ensures stands { (ts : List Token) (end : ℕ) (fault : TreeFault) → tree_fault ts end ≡ Some fault
        → IsFirstFault ts end fault }
    ensures only { (ts : List Token) (end : ℕ) (fault : TreeFault) → IsFirstFault ts end fault
        → tree_fault ts end ≡ Some fault }
{}

/// Bytes spell a tree exactly where they have no lexical fault and their tokens are those of a file's tree, which is then that
/// tree with its places.
pub fn spelled_has_no_tree_fault()
    ensures file { (bytes : List ℕ) (b : Bare) → Spells bytes b
        → (t : Placed) × IsFile (tokens bytes) t × (bare t ≡ b) }
    ensures spelled { (bytes : List ℕ) (t : Placed) → lex_fault bytes ≡ None → IsFile (tokens bytes) t
        → Spells bytes (bare t) }
{}
