//! A tree as it is made, token by token.
ghost use Rattle.std.specs.Prelude.{◌≡◌, ◌<◌, ℕ, List, ◌∷◌, ◌++◌, [], length, Some, None, IfOk, IfErr, OnOk, IfSome, IfNone};
ghost use Rattle.edif_spelling_spec.specs.Lent.{IsNamed, kind_of};
ghost use Rattle.edif_spelling_spec.specs.Tree.{Placed};
ghost use Rattle.edif_spelling_spec.specs.TreeFaults.{token_at, fault_at, tree_fault, Lists};
ghost use Rattle.edif_spelling_spec.specs.declared.token.Token.{Token};
ghost use Rattle.edif_spelling_spec.specs.declared.token.TokenKind.TheVariants.{LeftParen, RightParen};
ghost use Rattle.edif_tree.specs.Making.{IsLeaf, HasRead, CanCome};
ghost use Rattle.edif_tree.specs.Nodes.{IsAt};
ghost use Rattle.edif_spelling_spec.specs.declared.tree_fault.TreeKind.TheVariants.{Unended};
ghost use Rattle.edif_tree.specs.TreeError.{Names};
ghost use Rattle.edif_tree.specs.declared.errors.TreeError.TheVariants.{At};

use crate::errors::TreeError;
use crate::store::Store;
use crate::tree::Tree;
use edif_spelling_spec::{LentKind, Token, TokenKind, TreeKind};
use netlist_schema::{MOST_LEVELS, NoMemory};
use std::alloc::Global;

/// A form whose `)` is to come.
#[derive(Clone, Copy)]
pub struct OpenForm {
    /// The place of its `(`.
    pub place: u64,
    /// How many loose nodes stand before its arguments.
    pub start: usize,
}

/// The tokens so far, as nodes.
#[derive(Drop)]
pub struct Making {
    /// The nodes of all tokens and of all closed forms.
    pub nodes: Store,
    /// The open forms, the file's form first.
    pub forms: Vec<OpenForm>,
}

/// The fault of tokens that end too early, where the input has so many bytes.
fn unended(end: u64) -> TreeError
    ensures { result ≡ At Unended end }
{
    TreeError::At {
        kind: TreeKind::Unended,
        place: end,
    }
}

impl Making {
    /// A tree of which nothing was read. Takes no memory.
    pub fn new(alloc: Global) -> Making
        ensures { HasRead result [] }
    {
        Making {
            nodes: Store::new(alloc),
            forms: Vec::new(alloc),
        }
    }

    /// The fault of a token that comes next, or none.
    fn fault(&self, kind: &LentKind<'_>) -> Option<TreeKind>
        ensures some { IfSome result (λ k. (ts rest : List Token) (place end : ℕ) → HasRead self.now ts → tree_fault (ts ++ token_at (kind_of kind.now) place ∷ rest) end ≡ fault_at k place) }
        ensures none { IfNone result (CanCome (kind_of kind.now) self.now) }
    {
        match kind {
            LentKind::LeftParen if self.forms.len() >= MOST_LEVELS => Some(TreeKind::TooDeep),
            LentKind::LeftParen if self.forms.is_empty() && self.nodes.loose_len() > 0 => {
                Some(TreeKind::Trailing)
            }
            LentKind::LeftParen => None,
            LentKind::RightParen if self.forms.is_empty() => Some(TreeKind::ExtraClose),
            LentKind::RightParen => None,
            _ if !self.forms.is_empty() => None,
            _ if self.nodes.loose_len() == 0 => Some(TreeKind::NotForm),
            _ => Some(TreeKind::Trailing),
        }
    }

    /// Opens a form.
    fn begin(&mut self, place: u64) -> Result<(), NoMemory>
        requires { CanCome LeftParen self.old }
        ensures ok { OnOk result ((ts : List Token) → HasRead self.old ts → HasRead self.new (ts ++ token_at LeftParen place ∷ [])) }
    {
        let start = self.nodes.loose_len();
        let form = OpenForm { place, start };
        if self.forms.len() < self.forms.capacity() {
            self.forms.push_reserved(form);
            return Ok(());
        }
        self.forms.push(form)?;
        Ok(())
    }

    /// Adds a word, an integer or a string to the innermost form.
    #[inline(always)]
    fn add_leaf(&mut self, place: u64, kind: LentKind<'_>) -> Result<(), NoMemory>
        requires leaf { IsLeaf (kind_of kind) }
        requires named { IsNamed kind }
        requires inside { 0 < length self.old.forms.items }
        ensures ok { OnOk result ((ts : List Token) → HasRead self.old ts → HasRead self.new (ts ++ token_at (kind_of kind.entry) place ∷ [])) }
    {
        self.nodes.push_leaf(place, kind)
    }

    /// Closes the innermost form.
    #[inline(always)]
    fn close(&mut self, place: u64) -> Result<(), NoMemory>
        requires inside { 0 < length self.old.forms.items }
        requires reads { (ts : List Token) × HasRead self.old ts }
        ensures ok { OnOk result ((ts : List Token) → HasRead self.old ts → HasRead self.new (ts ++ token_at RightParen place ∷ [])) }
    {
        let Some(form) = self.forms.pop() else {
            unreachable!();
        };
        self.nodes.push_form(form.place, form.start)
    }

    /// Reads the next token, before which so many bytes of the input stand.
    #[inline(always)]
    pub fn add(&mut self, kind: LentKind<'_>, place: u64) -> Result<(), TreeError>
        requires named { IsNamed kind }
        requires reads { (ts : List Token) × HasRead self.old ts }
        ensures ok { OnOk result ((ts : List Token) → HasRead self.old ts → HasRead self.new (ts ++ token_at (kind_of kind.entry) place ∷ [])) }
        ensures at { IfErr result (λ e. (ts rest : List Token) (end : ℕ) → HasRead self.old ts → Names e (tree_fault (ts ++ token_at (kind_of kind.entry) place ∷ rest) end)) }
    {
        if let Some(kind) = self.fault(&kind) {
            return Err(TreeError::At { kind, place });
        }
        match kind {
            LentKind::LeftParen => self.begin(place)?,
            LentKind::RightParen => self.close(place)?,
            leaf => self.add_leaf(place, leaf)?,
        }
        Ok(())
    }

    /// Reads the next token, which is spent.
    pub fn add_token(&mut self, token: Token) -> Result<(), TreeError>
        requires { (ts : List Token) × HasRead self.old ts }
        ensures ok { OnOk result ((ts : List Token) → HasRead self.old ts → HasRead self.new (ts ++ token ∷ [])) }
        ensures at { IfErr result (λ e. (ts rest : List Token) (end : ℕ) → HasRead self.old ts → Names e (tree_fault (ts ++ token ∷ rest) end)) }
    {
        let Token { kind, place } = token;
        match kind {
            TokenKind::LeftParen => self.add(LentKind::LeftParen, place),
            TokenKind::RightParen => self.add(LentKind::RightParen, place),
            TokenKind::Word(name) => self.add(LentKind::Word(name.as_slice()), place),
            TokenKind::Integer(value) => self.add(LentKind::Integer(value), place),
            TokenKind::String(text) => self.add(LentKind::String(text.as_slice()), place),
        }
    }

    /// Reads the next tokens.
    pub fn add_all(&mut self, tokens: Vec<Token>) -> Result<(), TreeError>
        requires { (ts : List Token) × HasRead self.old ts }
        ensures ok { OnOk result ((ts : List Token) → HasRead self.old ts → HasRead self.new (ts ++ tokens.items)) }
        ensures at { IfErr result (λ e. (ts rest : List Token) (end : ℕ) → HasRead self.old ts → Names e (tree_fault (ts ++ tokens.items ++ rest) end)) }
    {
        for token in tokens {
            self.add_token(token)?;
        }
        Ok(())
    }

    /// The tree of all tokens.
    pub fn finish(self, end: u64) -> Result<Tree, TreeError>
        requires { (ts : List Token) × HasRead self ts }
        ensures ok { IfOk result (λ made. (ts : List Token) → HasRead self ts → (tree_fault ts end ≡ None) × ((t : Placed) × IsAt made.rows made.root t × Lists ts t)) }
        ensures at { IfErr result (λ e. (ts : List Token) → HasRead self ts → Names e (tree_fault ts end)) }
    {
        if !self.forms.is_empty() {
            return Err(unended(end));
        }
        if self.nodes.loose_len() == 0 {
            return Err(unended(end));
        }
        let root = self.nodes.next()?;
        Ok(Tree::of(self.nodes, root)?)
    }
}
