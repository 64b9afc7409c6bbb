//! Tokens that are lent, and what takes them.
ghost use Rattle.std.specs.Prelude.{◌≡◌, ◌∷◌, [], List, IfOk, OnErr, OnOk};
ghost use Rattle.edif_spelling_spec.specs.Lent.{Gains, IsNamed, kind_of};
ghost use Rattle.edif_spelling_spec.specs.TreeFaults.{token_at};
ghost use Rattle.edif_spelling_spec.specs.declared.token.Token.{Token};

use crate::token::{Token, TokenKind};
use netlist_schema::{Ident, NoMemory, Text};
use std::alloc::Global;

/// What a token is, as `TokenKind`, where its name or its string is lent by who reads it.
#[derive(Clone, Copy)]
pub enum LentKind<'a> {
    /// `(`.
    LeftParen,
    /// `)`.
    RightParen,
    /// A name: a keyword, or an identifier with or without `&`. These bytes are an identifier.
    Word(&'a [u8]),
    /// A number of 64 bits with sign.
    Integer(i64),
    /// The bytes that a string stands for, its escapes resolved.
    String(&'a [u8]),
}

/// What takes the tokens of a text, one by one.
pub trait Tokens {
    /// That just these tokens were taken.
    ghost took: { Self → List Token → Type 0 };

    /// Takes the next token, before which so many bytes of the text stand. After `NoMemory` it was not taken, and those before it were.
    fn take(&mut self, kind: LentKind<'_>, place: u64) -> Result<(), NoMemory>
        requires { IsNamed kind }
        ensures ok { OnOk result (Gains took self.old self.new (token_at (kind_of kind.entry) place ∷ [])) }
        ensures err { OnErr result (Gains took self.old self.new []) };
}

/// The same kind of token with a name or a string of its own.
fn owned(alloc: Global, kind: LentKind<'_>) -> Result<TokenKind, NoMemory>
    requires { IsNamed kind }
    ensures { IfOk result (λ made. made ≡ kind_of kind.entry) }
{
    match kind {
        LentKind::LeftParen => Ok(TokenKind::LeftParen),
        LentKind::RightParen => Ok(TokenKind::RightParen),
        LentKind::Word(name) => match Ident::of(alloc, name)? {
            Some(name) => Ok(TokenKind::Word(name)),
            None => unreachable!(),
        },
        LentKind::Integer(value) => Ok(TokenKind::Integer(value)),
        LentKind::String(text) => {
            let text = Text::of(Vec::from_slice(alloc, text)?);
            Ok(TokenKind::String(text))
        }
    }
}

/// Tokens are appended.
impl Tokens for Vec<Token> {
    ghost took = { λ v ts. v.items ≡ ts };

    fn take(&mut self, kind: LentKind<'_>, place: u64) -> Result<(), NoMemory> {
        let alloc = *self.allocator();
        let kind = owned(alloc, kind)?;
        self.push(Token { kind, place })?;
        Ok(())
    }
}
