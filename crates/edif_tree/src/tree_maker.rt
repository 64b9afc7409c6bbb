//! `TreeMaker`: tokens that come in pieces to a tree.
ghost use Rattle.std.specs.Prelude.{◌≡◌, ◌≢◌, ◌∷◌, [], List, Ok, Err, Some, None, IfErr, OnErr, OnOk};
ghost use Rattle.edif_spelling_spec.specs.Lent.{Gains, IsNamed, kind_of};
ghost use Rattle.edif_spelling_spec.specs.TreeFaults.{token_at};
ghost use Rattle.edif_spelling_spec.specs.declared.token.Token.{Token};
ghost use Rattle.edif_tree.specs.Maker.{Feeds, Finishes, HasTaken, IsHanded};
ghost use Rattle.edif_tree.specs.declared.errors.TreeError.{TreeError};
ghost use Rattle.edif_tree.specs.declared.errors.TreeError.TheVariants.{NoMemory as WantsMemory};

use crate::errors::TreeError;
use crate::making::Making;
use crate::tree::Tree;
use edif_spelling_spec::{LentKind, Token, Tokens};
use netlist_schema::NoMemory;
use std::alloc::Global;
use std::marker::Model;

/// Makes a tree of tokens that come in pieces, and keeps none of them: a word stands once, however often it comes.
#[derive(Drop)]
pub struct TreeMaker {
    making: Making,
    failed: Option<TreeError>,
}

impl Model for TreeMaker {
    ghost use Rattle.std.specs.Prelude.{◌≡◌, List, None};
    ghost use Rattle.edif_spelling_spec.specs.declared.token.Token.{Token};
    ghost use Rattle.edif_tree.specs.Making.{HasRead};
    ghost use Rattle.edif_tree.specs.Maker.{Maker};

    ghost Value = { Maker };

    ghost view = { λ m. record { making = m.making; failed = m.failed } };

    ghost invariant = { λ m. m.failed ≡ None → (ts : List Token) × HasRead m.making ts };
}

impl TreeMaker {
    /// A maker that was fed no tokens. Takes no memory.
    pub fn new(alloc: Global) -> TreeMaker
        ensures { HasTaken result [] }
    {
        TreeMaker {
            making: Making::new(alloc),
            failed: None,
        }
    }

    /// Reads the next tokens, which follow those fed before and are spent.
    ///
    /// `TreeError::At` is the first tree fault of the tokens so far, whatever follows; it comes exactly where they have one other
    /// than that they end too early. After an error each later call answers that same error.
    pub fn feed(&mut self, tokens: Vec<Token>) -> Result<(), TreeError>
        ensures fed { (fed : List Token) → HasTaken self.old fed → Feeds fed tokens.items self.new result }
        ensures err { IfErr result (λ error. self.new.failed ≡ Some error) }
        ensures again { (error : TreeError) → self.old.failed ≡ Some error → (result ≡ Err error) × (self.new ≡ self.old) }
    {
        if let Some(error) = self.failed {
            return Err(error);
        }
        match self.making.add_all(tokens) {
            Ok(()) => Ok(()),
            Err(error) => {
                self.failed = Some(error);
                Err(error)
            }
        }
    }

    /// Reads the next token, where no fault came before, and keeps the fault that comes with it.
    #[inline(always)]
    fn go_on(&mut self, kind: LentKind<'_>, place: u64) -> Result<(), NoMemory>
        requires named { IsNamed kind }
        requires going { self.old.failed ≡ None }
        ensures ok { OnOk result (Gains IsHanded self.old self.new (token_at (kind_of kind.entry) place ∷ [])) }
        ensures err { OnErr result (Gains IsHanded self.old self.new []) }
        ensures memory { OnOk result (self.new.failed ≢ Some WantsMemory) }
    {
        match self.making.add(kind, place) {
            Ok(()) => Ok(()),
            Err(TreeError::NoMemory) => {
                self.failed = Some(TreeError::NoMemory);
                Err(NoMemory)
            }
            Err(fault) => {
                self.failed = Some(fault);
                Ok(())
            }
        }
    }

    /// The tree of all tokens fed, where no others come and the input has so many bytes; or their first tree fault, as
    /// `read_tree` tells it of all of them. After an error of `feed` it answers that same error.
    pub fn finish(self, end: u64) -> Result<Tree, TreeError>
        ensures fed { (fed : List Token) → HasTaken self fed → Finishes fed end result }
        ensures again { (error : TreeError) → self.failed ≡ Some error → result ≡ Err error }
    {
        match self.failed {
            Some(error) => Err(error),
            None => self.making.finish(end),
        }
    }
}

/// The first fault is kept, and what comes behind it is taken for nothing.
impl Tokens for TreeMaker {
    ghost took = { IsHanded };

    /// Takes the next token, before which so many bytes of the text stand. Where memory is refused, the answer is `NoMemory`. After an
    /// error of an earlier call the answer is Ok, and nothing changes.
    #[inline(always)]
    fn take(&mut self, kind: LentKind<'_>, place: u64) -> Result<(), NoMemory>
        requires { IsNamed kind }
        ensures ok { OnOk result (Gains IsHanded self.old self.new (token_at (kind_of kind.entry) place ∷ [])) }
        ensures err { OnErr result (Gains IsHanded self.old self.new []) }
        ensures memory { self.old.failed ≡ None → OnOk result (self.new.failed ≢ Some WantsMemory) }
        ensures again { (error : TreeError) → self.old.failed ≡ Some error → (result ≡ Ok tt) × (self.new ≡ self.old) }
    {
        match self.failed {
            Some(_) => Ok(()),
            None => self.go_on(kind, place),
        }
    }
}
