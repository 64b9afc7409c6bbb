//! Texts in pieces, and their tokens.
use crate::checks::same;
use edif_lexer::{LexError, LexKind, Lexer, Token, TokenKind};
use std::alloc::{AllocError, Global};
use std::test::Fail;

/// The front of a file.
pub const HEAD: &str = "(edif e (edifVersion 2 0 0) (edifLevel 0) (keywordMap (keywordLevel 0))";

/// What follows HEAD, and the fault of the two.
static FAULTS: [(&str, LexKind, u64); 14] = [
    (" (comment \"x", LexKind::BadString, 81),
    (" (comment \"%1", LexKind::BadString, 81),
    (" (comment \"%256%\"))", LexKind::BadEscape, 82),
    (" (comment \"%300", LexKind::BadEscape, 82),
    (" (comment \"%1 2\"))", LexKind::BadEscape, 82),
    (" (comment \"%34%%1x%\"", LexKind::BadEscape, 86),
    (" 99999999999999999999)", LexKind::BadNumber, 72),
    (" -9223372036854775809)", LexKind::BadNumber, 72),
    (")) 9x", LexKind::BadNumber, 74),
    (" +", LexKind::BadNumber, 72),
    (" (a - b)", LexKind::BadNumber, 75),
    (" a-b", LexKind::BadByte, 72),
    (" &", LexKind::BadByte, 72),
    (" a.b \"", LexKind::BadByte, 73),
];

/// What follows HEAD in a file with a cell.
const CELL: &str =
    " (library w (edifLevel 0) (technology) (cell &1 (cellType GENERIC) (view v (viewType NETLIST) (interface (port (rename a_0_ \"a[0]\") (direction INPUT))) (property K (string \"%34 37%\"))))))";

const SMALL: &str = "(net &1 (n +07 -3) \"a%34 37%\" _b)";

/// The tokens of SMALL: place, kind and, of a word and a string, the bytes.
const SMALL_TOKENS: &str =
    "0 ( 1 word [110, 101, 116] 5 word [49] 8 ( 9 word [110] 11 7 15 -3 17 ) 19 string [97, 34, 37] 30 word [95, 98] 32 ) ";

/// Reads a text that comes in two pieces: appends its tokens, and answers the number of its bytes.
pub fn read_two(
    alloc: Global,
    front: &[u8],
    back: &[u8],
    out: &mut Vec<Token>,
) -> Result<u64, LexError> {
    let mut lexer = Lexer::new(alloc);
    lexer.feed(front, out)?;
    lexer.feed(back, out)?;
    lexer.finish(out)
}

/// The same of a text that comes byte by byte.
fn read_bytes(alloc: Global, text: &[u8], out: &mut Vec<Token>) -> Result<u64, LexError> {
    let mut lexer = Lexer::new(alloc);
    for byte in text.chunks(1) {
        lexer.feed(byte, out)?;
    }
    lexer.finish(out)
}

/// The tokens of a text, and the number of its bytes.
pub fn tokens_of(alloc: Global, text: &[u8]) -> Result<(Vec<Token>, u64), LexError> {
    let mut out = Vec::new(alloc);
    let count = read_two(alloc, text, b"", &mut out)?;
    Ok((out, count))
}

/// Whether a text has this error, and is told it again when more is fed.
fn fails_again(alloc: Global, text: &[u8], error: LexError, out: &mut Vec<Token>) -> bool {
    let mut lexer = Lexer::new(alloc);
    let first = match lexer.feed(text, out) {
        Ok(()) => lexer.finish(out).err(),
        Err(error) => Some(error),
    };
    first == Some(error) && lexer.feed(b" more", out).err() == Some(error)
}

/// Whether a text has this error, whole and byte by byte.
fn fails(alloc: Global, text: &[u8], error: LexError) -> bool {
    let mut out = Vec::new(alloc);
    fails_again(alloc, text, error, &mut out)
        && read_bytes(alloc, text, &mut out).err() == Some(error)
}

/// Whether HEAD and what follows it have this error.
fn fails_behind(alloc: Global, rest: &str, error: LexError) -> Result<bool, AllocError> {
    let text = format!(in alloc; "{HEAD}{rest}")?;
    Ok(fails(alloc, text.as_bytes(), error))
}

#[test]
fn texts_have_their_first_fault(rt: HostRuntime) -> Result<(), Fail> {
    for (rest, kind, place) in &FAULTS {
        let (kind, place) = (*kind, *place);
        let fails = fails_behind(rt.alloc(), rest, LexError::At { kind, place })?;
        assert!(rt; fails, "{rest}");
    }
    Ok(())
}

fn shown(alloc: Global, token: &Token) -> Result<String, AllocError> {
    let place = token.place;
    match &token.kind {
        TokenKind::LeftParen => format!(in alloc; "{place} ( "),
        TokenKind::RightParen => format!(in alloc; "{place} ) "),
        TokenKind::Word(name) => format!(in alloc; "{place} word {:?} ", name.as_slice()),
        TokenKind::Integer(number) => format!(in alloc; "{place} {number} "),
        TokenKind::String(text) => format!(in alloc; "{place} string {:?} ", text.as_slice()),
    }
}

fn show(alloc: Global, token: &Token, seen: &mut String) -> Result<(), AllocError> {
    let shown = shown(alloc, token)?;
    seen.push_str(&shown)
}

fn show_all(alloc: Global, tokens: &[Token]) -> Result<String, AllocError> {
    let mut seen = String::new(alloc);
    for token in tokens {
        show(alloc, token, &mut seen)?;
    }
    Ok(seen)
}

/// The tokens of a text, as they are shown.
fn shown_of(alloc: Global, text: &[u8]) -> Result<String, Fail> {
    let (tokens, _) = tokens_of(alloc, text)?;
    Ok(show_all(alloc, &tokens)?)
}

#[test]
fn a_text_has_its_tokens(rt: HostRuntime) -> Result<(), Fail> {
    let shown = shown_of(rt.alloc(), SMALL.as_bytes())?;
    same(&rt, &shown.as_str(), &SMALL_TOKENS, SMALL);
    Ok(())
}

/// Whether the tokens of a text that is cut in two are these.
fn are_in_two(alloc: Global, front: &[u8], back: &[u8], tokens: &[Token], count: u64) -> bool {
    let mut out = Vec::new(alloc);
    read_two(alloc, front, back, &mut out) == Ok(count) && out.as_slice() == tokens
}

/// Whether the tokens of a text that is cut behind each byte are these.
fn are_in_bytes(alloc: Global, text: &[u8], tokens: &[Token], count: u64) -> bool {
    let mut out = Vec::new(alloc);
    read_bytes(alloc, text, &mut out) == Ok(count) && out.as_slice() == tokens
}

/// Whether the tokens are these wherever the text is cut in two, and where it is cut behind each byte.
fn are_in_pieces(alloc: Global, text: &[u8], tokens: &[Token], count: u64) -> bool {
    for cut in 0..text.len() {
        if !are_in_two(alloc, &text[..cut], &text[cut..], tokens, count) {
            return false;
        }
    }
    are_in_bytes(alloc, text, tokens, count)
}

/// Whether a text has the same tokens in any pieces.
fn are_same_in_pieces(alloc: Global, text: &[u8]) -> Result<bool, LexError> {
    let (tokens, count) = tokens_of(alloc, text)?;
    Ok(are_in_pieces(alloc, text, &tokens, count))
}

/// The same of HEAD and a cell.
fn is_cell_same_in_pieces(alloc: Global) -> Result<bool, Fail> {
    let cell = format!(in alloc; "{HEAD}{CELL}")?;
    Ok(are_same_in_pieces(alloc, cell.as_bytes())?)
}

#[test]
fn tokens_are_the_same_in_any_pieces(rt: HostRuntime) -> Result<(), Fail> {
    assert!(rt; are_same_in_pieces(rt.alloc(), SMALL.as_bytes())?);
    assert!(rt; is_cell_same_in_pieces(rt.alloc())?);
    Ok(())
}
