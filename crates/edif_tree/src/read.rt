//! `read_tree`: tokens to a tree.
ghost use Rattle.std.specs.Prelude.{◌≡◌, None, IfOk, IfErr};
ghost use Rattle.edif_spelling_spec.specs.Tree.{Placed};
ghost use Rattle.edif_spelling_spec.specs.TreeFaults.{tree_fault, IsFile};
ghost use Rattle.edif_tree.specs.Nodes.{IsAt};
ghost use Rattle.edif_tree.specs.TreeError.{Names};

use crate::errors::TreeError;
use crate::making::Making;
use crate::tree::Tree;
use edif_spelling_spec::{Token, TokenKind};
use netlist_schema::{Copied, NoMemory};
use std::alloc::Global;

/// The tree of the tokens of an input with so many bytes, where they have no tree fault, and else their first tree fault. At the
/// tree's root stands the tree that the tokens are those of. `NoMemory` says nothing of the tokens.
pub fn read_tree(alloc: Global, tokens: &[Token], end: u64) -> Result<Tree, TreeError>
    ensures none { IfOk result (λ made. tree_fault tokens.now end ≡ None) }
    ensures tree { IfOk result (λ made. (t : Placed) × IsAt made.rows made.root t × IsFile tokens.now t) }
    ensures at { IfErr result (λ e. Names e (tree_fault tokens.now end)) }
{
    let mut making = Making::new(alloc);
    for token in tokens {
        making.add_token(copied(alloc, token)?)?;
    }
    making.finish(end)
}

/// An equal token.
fn copied(alloc: Global, token: &Token) -> Result<Token, NoMemory>
    ensures { IfOk result (λ made. made ≡ token.now) }
{
    let kind = match &token.kind {
        TokenKind::LeftParen => TokenKind::LeftParen,
        TokenKind::RightParen => TokenKind::RightParen,
        TokenKind::Word(name) => TokenKind::Word(name.copy(alloc)?),
        TokenKind::Integer(value) => TokenKind::Integer(*value),
        TokenKind::String(text) => TokenKind::String(text.copy(alloc)?),
    };
    let place = token.place;
    Ok(Token { kind, place })
}
