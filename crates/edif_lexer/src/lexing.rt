//! Bytes in pieces to tokens.
ghost use Rattle.std.specs.Prelude.{◌≡◌, ◌≢◌, ◌+◌, ◌<◌, ◌≤◌, ◌∷◌, ◌++◌, [], false, get_or, true, length, take, List, ℕ, OnOk, OnErr, IfErr, IfOk, IfSome, IsOkUnless};
ghost use Rattle.std.specs.List.{list_all};
ghost use Rattle.edif_spelling_spec.specs.Bytes.{is_space, is_word_byte, EndsRun};
ghost use Rattle.edif_spelling_spec.specs.Grammar.{SpellsName};
ghost use Rattle.edif_spelling_spec.specs.Lent.{Gains, IsNamed, kind_of};
ghost use Rattle.edif_spelling_spec.specs.TreeFaults.{token_at};
ghost use Rattle.edif_lexer.specs.Lanes.{IsQuoted, is_plain};
ghost use Rattle.edif_lexer.specs.Reading.{is_open_string, is_pending, HasRead, Feeds, Finishes};
ghost use Rattle.edif_lexer.specs.Steps.{Anything, Advances, BadEscapeOf, Ends, ReadsFront, StopsAtEnd};
ghost use Rattle.edif_spelling_spec.specs.declared.token.Token.{Token};
ghost use Rattle.edif_lexer.specs.declared.errors.LexError.{LexError};

use crate::errors::LexError;
use crate::runs::{blanks, is_paren, name_bytes, quoted, unquoted, word_bytes};
use crate::strings::decode;
use crate::words::{is_word_byte, word_kind};
use edif_spelling_spec::{LentKind, LexKind, Token, Tokens};
use std::alloc::Global;
use std::marker::Model;

/// Whether a lexer goes on.
#[derive(Clone, Copy, Debug, PartialEq, Eq)]
pub enum State {
    /// Bytes may be fed.
    Running,
    /// An earlier call answered this error, and so does each later one.
    Failed(LexError),
    /// `finish` was Ok.
    Finished,
}

/// Reads a text that comes in pieces. A token that has begun is kept until its end comes, in whatever piece.
#[derive(Drop)]
pub struct Lexer {
    alloc: Global,
    start: u64,
    pending: Vec<u8>,
    state: State,
}

impl Model for Lexer {
    ghost use Rattle.std.specs.Prelude.{◌≡◌, true};
    ghost use Rattle.edif_lexer.specs.Reading.{Reading, is_pending};

    ghost Value = { Reading };

    ghost view = { λ s. record { start = s.start; pending = s.pending.items; state = s.state } };

    ghost invariant = { λ s. is_pending s.pending.items ≡ true };
}

impl Lexer {
    /// A lexer that was fed no bytes. Takes no memory.
    pub fn new(alloc: Global) -> Lexer
        ensures { HasRead result [] [] }
    {
        Lexer {
            alloc,
            start: 0,
            pending: Vec::new(alloc),
            state: State::Running,
        }
    }

    /// One more byte of a token.
    #[inline(always)]
    fn keep(&mut self, byte: u8) -> Result<(), LexError>
        requires { is_pending (self.old.pending ++ byte ∷ []) ≡ true }
        ensures ok { OnOk result (self.new ≡ record self.old { pending = self.old.pending ++ byte ∷ [] }) }
        ensures err { OnErr result (self.new ≡ self.old) }
        ensures memory { IsOkUnless result LexError.NoMemory }
    {
        self.pending.push(byte)?;
        Ok(())
    }

    /// The place behind the next so many bytes. There is no memory for a place that a `u64` does not count.
    #[inline(always)]
    fn behind(&self, count: u64) -> Result<u64, LexError>
        ensures ok { IfOk result (λ place. place ≡ self.now.start + count) }
        ensures memory { IsOkUnless result LexError.NoMemory }
    {
        self.start.checked_add(count).ok_or(LexError::NoMemory)
    }

    /// The bytes up to a place are read.
    #[inline(always)]
    fn pass_to(&mut self, place: u64)
        ensures { self.new ≡ record self.old { start = place; pending = [] } }
    {
        self.start = place;
        self.pending.clear();
    }

    /// The next bytes up to here are read, which are of no token.
    #[inline(always)]
    fn pass(&mut self, count: u64) -> Result<(), LexError>
        ensures ok { OnOk result (self.new ≡ record self.old { start = self.old.start + count; pending = [] }) }
        ensures err { OnErr result (self.new ≡ self.old) }
        ensures memory { IsOkUnless result LexError.NoMemory }
    {
        let place = self.behind(count)?;
        self.pass_to(place);
        Ok(())
    }

    /// A token of so many bytes ends here.
    #[inline(always)]
    fn hand_out<S: Tokens>(
        &mut self,
        kind: LentKind<'_>,
        count: u64,
        out: &mut S,
    ) -> Result<(), LexError>
        requires { IsNamed kind }
        ensures ok { OnOk result (Gains S.took out.old out.new (token_at (kind_of kind.entry) self.old.start ∷ [])
            × (self.new ≡ record self.old { start = self.old.start + count; pending = [] })) }
        ensures err { OnErr result (Gains S.took out.old out.new []) }
        ensures memory { IsOkUnless result LexError.NoMemory }
    {
        let place = self.behind(count)?;
        out.take(kind, self.start)?;
        self.pass_to(place);
        Ok(())
    }

    /// The first byte of a token, or a byte of none.
    #[inline(always)]
    fn begin<S: Tokens>(&mut self, byte: u8, out: &mut S) -> Result<(), LexError>
        requires { self.old.pending ≡ [] }
        ensures { (gained : List Token) × Gains S.took out.old out.new gained
            × Advances Anything self.old (byte ∷ []) self.new gained result }
    {
        match byte {
            b'(' => self.hand_out(LentKind::LeftParen, 1, out),
            b')' => self.hand_out(LentKind::RightParen, 1, out),
            b'"' => self.keep(byte),
            _ if byte.is_ascii_whitespace() => self.pass(1),
            _ if is_word_byte(byte) => self.keep(byte),
            _ => Err(LexError::At {
                kind: LexKind::BadByte,
                place: self.start,
            }),
        }
    }

    /// No more bytes of the word come.
    fn end_word<S: Tokens>(&mut self, out: &mut S) -> Result<(), LexError>
        requires begun { 0 < length self.old.pending }
        requires word { list_all is_word_byte self.old.pending ≡ true }
        ensures read { (gained : List Token) × Gains S.took out.old out.new gained
            × Advances (EndsRun is_word_byte) self.old [] self.new gained result }
        ensures ended { OnOk result (self.new.pending ≡ []) }
    {
        let place = self.behind(self.pending.len() as u64)?;
        match word_kind(&self.pending) {
            Ok(kind) => out.take(kind, self.start)?,
            Err(kind) => {
                return Err(LexError::At {
                    kind,
                    place: self.start,
                });
            }
        }
        self.pass_to(place);
        Ok(())
    }

    /// The closing quote of the string comes.
    fn end_string<S: Tokens>(&mut self, out: &mut S) -> Result<(), LexError>
        requires { is_open_string self.old.pending ≡ true }
        ensures { (gained : List Token) × Gains S.took out.old out.new gained
            × Advances Anything self.old (34 ∷ []) self.new gained result }
    {
        let count = self.pending.len() as u64;
        match decode(self.alloc, &self.pending[1..], true)? {
            Ok(text) => self.hand_out(LentKind::String(text.as_slice()), count + 1, out),
            Err(at) => Err(self.bad_escape(at)),
        }
    }

    /// The fault of an escape before whose `%` so many bytes of the string stand.
    fn bad_escape(&self, at: usize) -> LexError
        ensures { BadEscapeOf self.now at result }
    {
        match self.start.checked_add(at as u64) {
            Some(before) if before < u64::MAX => LexError::At {
                kind: LexKind::BadEscape,
                place: before + 1,
            },
            _ => LexError::NoMemory,
        }
    }

    /// The next byte of the text, whatever it is.
    #[cold]
    #[inline(never)]
    fn step<S: Tokens>(&mut self, byte: u8, out: &mut S) -> Result<(), LexError>
        ensures { (gained : List Token) × Gains S.took out.old out.new gained
            × Advances Anything self.old (byte ∷ []) self.new gained result }
    {
        match self.pending.first().copied() {
            None => self.begin(byte, out),
            Some(b'"') => {
                if byte == b'"' {
                    self.end_string(out)
                } else {
                    self.keep(byte)
                }
            }
            Some(_) => {
                if is_word_byte(byte) {
                    self.keep(byte)
                } else {
                    self.end_word(out)?;
                    self.begin(byte, out)
                }
            }
        }
    }

    /// More bytes of a token, or the first of a word.
    fn keep_all(&mut self, bytes: &[u8]) -> Result<(), LexError>
        requires { is_pending (self.old.pending ++ bytes.now) ≡ true }
        ensures ok { OnOk result (self.new ≡ record self.old { pending = self.old.pending ++ bytes.now }) }
        ensures err { OnErr result (self.new ≡ self.old) }
        ensures memory { IsOkUnless result LexError.NoMemory }
    {
        self.pending.extend_from_slice(bytes)?;
        Ok(())
    }

    /// How many of the next bytes go on with the token, or begin a word.
    #[inline(always)]
    fn kept(&self, rest: &[u8]) -> usize
        ensures within { result ≤ length rest.now }
        ensures kept { is_pending (self.now.pending ++ take result rest.now) ≡ true }
    {
        match self.pending.first().copied() {
            Some(b'"') => unquoted(rest),
            _ => word_bytes(rest),
        }
    }

    /// How many of the next bytes are blanks between tokens.
    #[inline(always)]
    fn passed(&self, rest: &[u8]) -> usize
        ensures within { result ≤ length rest.now }
        ensures passed { list_all is_space (take result rest.now) ≡ true }
        ensures between { 0 < result → self.now.pending ≡ [] }
    {
        if self.pending.is_empty() {
            return blanks(rest);
        }
        0
    }

    /// How many bytes the name has that begins and ends in these bytes, where no token has begun; 0 where there is none, or its first byte
    /// is `&`.
    #[inline(always)]
    fn whole_name(&self, rest: &[u8]) -> usize
        requires { 0 < length rest.now }
        ensures within { 0 < result → result < length rest.now }
        ensures spells { 0 < result → SpellsName (take result rest.now) (take result rest.now) }
        ensures ends { 0 < result → is_word_byte (get_or rest.now result 0) ≡ false }
        ensures between { 0 < result → self.now.pending ≡ [] }
    {
        if !self.pending.is_empty() || rest[0].is_ascii_digit() {
            return 0;
        }
        let count = name_bytes(rest);
        if count < rest.len() && !is_word_byte(rest[count]) {
            count
        } else {
            0
        }
    }

    /// A name in front of a byte that ends it, and that byte, where no token has begun.
    #[inline(always)]
    fn name_before<S: Tokens>(&mut self, name: &[u8], byte: u8, out: &mut S) -> Result<(), LexError>
        requires between { self.old.pending ≡ [] }
        requires spells { SpellsName name.now name.now }
        requires ends { is_word_byte byte ≡ false }
        ensures { (gained : List Token) × Gains S.took out.old out.new gained
            × Advances Anything self.old (name.now ++ byte ∷ []) self.new gained result }
    {
        self.hand_out(LentKind::Word(name), name.len() as u64, out)?;
        self.begin(byte, out)
    }

    /// What stands between the quotes of the string that begins and ends in these bytes and has no escape, where no token has begun.
    #[inline(always)]
    fn whole_string<'a>(&self, rest: &'a [u8]) -> Option<&'a [u8]>
        ensures quoted { IfSome result (λ text. IsQuoted rest.now text.now) }
        ensures between { IfSome result (λ _. self.now.pending ≡ []) }
    {
        if !self.pending.is_empty() {
            return None;
        }
        quoted(rest)
    }

    /// A string without escapes, by what stands between its quotes, where no token has begun.
    #[inline(always)]
    fn plain_string<S: Tokens>(&mut self, text: &[u8], out: &mut S) -> Result<(), LexError>
        requires between { self.old.pending ≡ [] }
        requires plain { list_all is_plain text.now ≡ true }
        ensures { (gained : List Token) × Gains S.took out.old out.new gained
            × Advances Anything self.old (34 ∷ (text.now ++ 34 ∷ [])) self.new gained result }
    {
        self.hand_out(LentKind::String(text), text.len() as u64 + 2, out)
    }

    /// The next byte of the text, alone.
    #[inline(always)]
    fn one_byte<S: Tokens>(&mut self, rest: &[u8], out: &mut S) -> Result<usize, LexError>
        requires { 0 < length rest.now }
        ensures read { (gained : List Token) × Gains S.took out.old out.new gained
            × ReadsFront self.old rest.now self.new gained result }
        ensures some { IfOk result (λ count. (0 < count) × (count ≤ length rest.now)) }
    {
        self.step(rest[0], out)?;
        Ok(1)
    }

    /// The next byte of the text, alone, where no token has begun.
    #[inline(always)]
    fn first_byte<S: Tokens>(&mut self, rest: &[u8], out: &mut S) -> Result<usize, LexError>
        requires some { 0 < length rest.now }
        requires between { self.old.pending ≡ [] }
        ensures read { (gained : List Token) × Gains S.took out.old out.new gained
            × ReadsFront self.old rest.now self.new gained result }
        ensures some { IfOk result (λ count. (0 < count) × (count ≤ length rest.now)) }
    {
        self.begin(rest[0], out)?;
        Ok(1)
    }

    /// The next bytes of the text, of which there is one at least: how many were read. Bytes of one word or string and blanks are read
    /// together.
    #[inline(always)]
    fn advance<S: Tokens>(&mut self, rest: &[u8], out: &mut S) -> Result<usize, LexError>
        requires { 0 < length rest.now }
        ensures read { (gained : List Token) × Gains S.took out.old out.new gained
            × ReadsFront self.old rest.now self.new gained result }
        ensures some { IfOk result (λ count. (0 < count) × (count ≤ length rest.now)) }
    {
        if is_paren(rest[0]) && self.pending.is_empty() {
            return self.first_byte(rest, out);
        }
        let passed = self.passed(rest);
        if passed > 0 {
            self.pass(passed as u64)?;
            return Ok(passed);
        }
        let name = self.whole_name(rest);
        if name > 0 {
            self.name_before(&rest[..name], rest[name], out)?;
            return Ok(name + 1);
        }
        if let Some(text) = self.whole_string(rest) {
            self.plain_string(text, out)?;
            return Ok(text.len() + 2);
        }
        let kept = self.kept(rest);
        if kept > 0 {
            self.keep_all(&rest[..kept])?;
            return Ok(kept);
        }
        self.one_byte(rest, out)
    }

    /// The next bytes of the text.
    fn run<S: Tokens>(&mut self, piece: &[u8], out: &mut S) -> Result<(), LexError>
        ensures { (gained : List Token) × Gains S.took out.old out.new gained
            × Advances Anything self.old piece.now self.new gained result }
    {
        let mut read = 0;
        'bytes: while read < piece.len() {
            read += self.advance(&piece[read..], out)?;
        }
        Ok(())
    }

    /// No more bytes come.
    fn end<S: Tokens>(&mut self, out: &mut S) -> Result<u64, LexError>
        ensures { (gained : List Token) × Gains S.took out.old out.new gained
            × Ends self.old gained result }
    {
        match self.pending.first().copied() {
            None => Ok(self.start),
            Some(b'"') => Err(self.open_string()),
            Some(_) => {
                self.end_word(out)?;
                Ok(self.start)
            }
        }
    }

    /// The text ends inside a string.
    fn open_string(&self) -> LexError
        requires { is_open_string self.now.pending ≡ true }
        ensures { StopsAtEnd self.now [] result }
    {
        match decode(self.alloc, &self.pending[1..], false) {
            Ok(Ok(_)) => LexError::At {
                kind: LexKind::BadString,
                place: self.start,
            },
            Ok(Err(at)) => self.bad_escape(at),
            Err(_) => LexError::NoMemory,
        }
    }

    /// From here on each call answers this error.
    fn fail(&mut self, error: LexError) -> LexError
        ensures value { result ≡ error }
        ensures kept { self.new ≡ record self.old { state = State.Failed error } }
    {
        self.state = State::Failed(error);
        error
    }

    /// Reads the next piece, and appends to `out` the tokens that it completes: those after which the text may go on in any
    /// way. A word at the end of the piece is not complete, since more of it may come.
    ///
    /// `LexError::At` is the first lexical fault of the text whatever follows, and the tokens before it are all appended. It need
    /// not come at the first byte that makes it certain: the fault of a word or a string comes where that ends, so a bad escape
    /// at the closing quote, or at the end of the text. After `LexError::NoMemory` a prefix of the tokens is appended. After
    /// either error each later call answers the same error and appends nothing.
    pub fn feed(&mut self, piece: &[u8], out: &mut Vec<Token>) -> Result<(), LexError>
        requires { self.old.state ≢ State.Finished }
        ensures read { (gained : List Token) × (out.new.items ≡ out.old.items ++ gained)
            × ((fed : List ℕ) (handed : List Token) → HasRead self.old fed handed
            → Feeds fed piece.now handed gained self.new result) }
        ensures ok { OnOk result (self.new.state ≡ State.Running) }
        ensures err { IfErr result (λ error. self.new.state ≡ State.Failed error) }
        ensures again { (error : LexError) → self.old.state ≡ State.Failed error
            → (result ≡ Err error) × (self.new ≡ self.old) × (out.new.items ≡ out.old.items) }
    {
        self.feed_to(piece, out)
    }

    /// Reads the next piece as `feed` does, and hands each token that it completes to `out` as it comes, the names lent from the piece.
    ///
    /// The errors are those of `feed`. After `LexError::At` the tokens before the fault were all taken, and after `LexError::NoMemory`
    /// a prefix of the tokens. After either error each later call answers the same error, and `out` stays.
    pub fn feed_to<S: Tokens>(&mut self, piece: &[u8], out: &mut S) -> Result<(), LexError>
        requires { self.old.state ≢ State.Finished }
        ensures read { (gained : List Token) × Gains S.took out.old out.new gained
            × ((fed : List ℕ) (handed : List Token) → HasRead self.old fed handed
            → Feeds fed piece.now handed gained self.new result) }
        ensures ok { OnOk result (self.new.state ≡ State.Running) }
        ensures err { IfErr result (λ error. self.new.state ≡ State.Failed error) }
        ensures again { (error : LexError) → self.old.state ≡ State.Failed error
            → (result ≡ Err error) × (self.new ≡ self.old) × (out.new ≡ out.old) }
    {
        if let State::Failed(error) = self.state {
            return Err(error);
        }
        match self.run(piece, out) {
            Ok(()) => Ok(()),
            Err(error) => Err(self.fail(error)),
        }
    }

    /// The text ends here: appends a last word to `out`, and answers the number of bytes of the text. After Ok the lexer is
    /// done.
    ///
    /// `LexError::At` is the first lexical fault of the text, and the tokens before it are all appended. After
    /// `LexError::NoMemory` a prefix of the tokens is appended. After either error each later call answers the same error
    /// and appends nothing.
    pub fn finish(&mut self, out: &mut Vec<Token>) -> Result<u64, LexError>
        requires { self.old.state ≢ State.Finished }
        ensures read { (gained : List Token) × (out.new.items ≡ out.old.items ++ gained)
            × ((fed : List ℕ) (handed : List Token) → HasRead self.old fed handed
            → Finishes fed handed gained result) }
        ensures ok { OnOk result (self.new.state ≡ State.Finished) }
        ensures err { IfErr result (λ error. self.new.state ≡ State.Failed error) }
        ensures again { (error : LexError) → self.old.state ≡ State.Failed error
            → (result ≡ Err error) × (self.new ≡ self.old) × (out.new.items ≡ out.old.items) }
    {
        self.finish_to(out)
    }

    /// The text ends here, as in `finish`: a last word is handed to `out`. Answers the number of bytes of the text. After Ok the lexer is
    /// done.
    ///
    /// The errors are those of `finish`. After `LexError::At` the tokens before the fault were all taken, and after `LexError::NoMemory`
    /// a prefix of the tokens. After either error each later call answers the same error, and `out` stays.
    pub fn finish_to<S: Tokens>(&mut self, out: &mut S) -> Result<u64, LexError>
        requires { self.old.state ≢ State.Finished }
        ensures read { (gained : List Token) × Gains S.took out.old out.new gained
            × ((fed : List ℕ) (handed : List Token) → HasRead self.old fed handed
            → Finishes fed handed gained result) }
        ensures ok { OnOk result (self.new.state ≡ State.Finished) }
        ensures err { IfErr result (λ error. self.new.state ≡ State.Failed error) }
        ensures again { (error : LexError) → self.old.state ≡ State.Failed error
            → (result ≡ Err error) × (self.new ≡ self.old) × (out.new ≡ out.old) }
    {
        if let State::Failed(error) = self.state {
            return Err(error);
        }
        match self.end(out) {
            Ok(count) => {
                self.state = State::Finished;
                Ok(count)
            }
            Err(error) => Err(self.fail(error)),
        }
    }
}
