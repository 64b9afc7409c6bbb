//! What the definitions say of every text and of every tree.
ghost use Rattle.std.specs.Prelude.{◌≡◌, ◌≤◌, ℕ, List, None, Some, map};
ghost use Rattle.edif_spelling_spec.specs.Lexing.{Fault, tokens, lex_fault};
ghost use Rattle.edif_spelling_spec.specs.Grammar.{IsRow};
ghost use Rattle.edif_spelling_spec.specs.LexFaults.{FaultAfter};
ghost use Rattle.edif_spelling_spec.specs.Spelling.{SpellsTokens, Spells, IsForm};
ghost use Rattle.edif_spelling_spec.specs.Tree.{Bare, listing, depth};
ghost use Rattle.edif_spelling_spec.specs.declared.token.Token.{Token};
ghost use Rattle.edif_spelling_spec.specs.declared.token.TokenKind.{TokenKind};

/// A text without a fault is a row of white space and of spellings of its tokens, each word a longest run, and of no
/// other tokens.
pub fn one_reading()
    ensures row { (bytes : List ℕ) → lex_fault bytes ≡ None → IsRow 0 bytes (tokens bytes) }
    ensures only { (bytes : List ℕ) (ts : List Token) → IsRow 0 bytes ts
        → (lex_fault bytes ≡ None) × (tokens bytes ≡ ts) }
{}

/// The first fault of a text stands behind the spellings of its tokens, and what stands so is its first fault.
pub fn one_fault()
    ensures stands { (bytes : List ℕ) (fault : Fault) → lex_fault bytes ≡ Some fault
        → FaultAfter 0 bytes (tokens bytes) fault }
    ensures only { (bytes : List ℕ) (ts : List Token) (fault : Fault) → FaultAfter 0 bytes ts fault
        → (lex_fault bytes ≡ Some fault) × (tokens bytes ≡ ts) }
{}

/// A row of tokens with their places spells the tokens without them, and where bytes spell tokens each has one place,
/// from whatever place on the bytes are counted.
pub fn row_is_spelled()
    ensures spelled { (place : ℕ) (bytes : List ℕ) (ts : List Token) → IsRow place bytes ts
        → SpellsTokens bytes (map (λ t. t.kind) ts) }
    ensures placed { (place : ℕ) (bytes : List ℕ) (kinds : List TokenKind) → SpellsTokens bytes kinds
        → (ts : List Token) × IsRow place bytes ts × (map (λ t. t.kind) ts ≡ kinds) }
{}

/// Tokens are those of one tree at most.
pub fn one_tree()
    ensures { (s t : Bare) → listing s ≡ listing t → s ≡ t }
{}

/// Bytes spell one tree at most.
pub fn one_spelled_tree()
    ensures { (bytes : List ℕ) (s t : Bare) → Spells bytes s → Spells bytes t → s ≡ t }
{}

/// Bytes spell a tree exactly where they have no lexical fault, their tokens are those of the tree, and the tree is a
/// form with no level above 256.
pub fn spelled_has_no_fault()
    ensures lexed { (bytes : List ℕ) (t : Bare) → Spells bytes t
        → (lex_fault bytes ≡ None) × (map (λ token. token.kind) (tokens bytes) ≡ listing t) }
    ensures spelled { (bytes : List ℕ) (t : Bare) → lex_fault bytes ≡ None
        → map (λ token. token.kind) (tokens bytes) ≡ listing t → IsForm t → depth t ≤ 256 → Spells bytes t }
{}
