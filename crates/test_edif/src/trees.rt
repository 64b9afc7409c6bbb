//! Texts, and the trees of their tokens.
use crate::checks::same;
use crate::lexing::{HEAD, read_two, tokens_of};
use edif_lexer::{Lexer, Token};
use edif_spelling_spec::TreeKind;
use edif_tree::{Shape, Tree, TreeError, TreeMaker, read_tree};
use std::alloc::{AllocError, Global};
use std::test::Fail;

/// What follows HEAD, and the first tree fault of the two.
static FAULTS: [(&str, TreeKind, u64); 9] = [
    ("", TreeKind::Unended, 71),
    (" (comment \"y\"", TreeKind::Unended, 84),
    (") (comment \"y\")", TreeKind::Trailing, 73),
    (") \"y\" )", TreeKind::Trailing, 73),
    (") 5 a", TreeKind::Trailing, 73),
    ("))", TreeKind::ExtraClose, 72),
    (") ) a", TreeKind::ExtraClose, 73),
    (" a) ) (", TreeKind::ExtraClose, 75),
    (" ()) (", TreeKind::Trailing, 76),
];

/// Texts that begin otherwise, and their first tree fault.
static BEGINNINGS: [(&str, TreeKind, u64); 7] = [
    ("", TreeKind::Unended, 0),
    ("  ", TreeKind::Unended, 2),
    ("a (b)", TreeKind::NotForm, 0),
    (" 5", TreeKind::NotForm, 1),
    ("\"s\" )", TreeKind::NotForm, 0),
    (" ) a", TreeKind::ExtraClose, 1),
    ("(", TreeKind::Unended, 1),
];

/// The tree of a text, whose tokens are read into a list.
fn tree_by(alloc: Global, text: &str, tokens: &mut Vec<Token>) -> Result<Tree, Fail> {
    let end = read_two(alloc, text.as_bytes(), b"", tokens)?;
    Ok(read_tree(alloc, tokens, end)?)
}

/// The tree of a text. The test fails where it has none.
pub fn tree_of(alloc: Global, text: &str) -> Result<Tree, Fail> {
    let mut tokens = Vec::new(alloc);
    tree_by(alloc, text, &mut tokens)
}

/// The tree fault of a text that has no lexical fault.
fn fault_of(alloc: Global, text: &str) -> Result<Option<TreeError>, Fail> {
    let (tokens, end) = tokens_of(alloc, text.as_bytes())?;
    Ok(read_tree(alloc, &tokens, end).err())
}

/// Feeds a maker one token. `false` where that has a fault.
fn feed(alloc: Global, maker: &mut TreeMaker, token: Token) -> Result<bool, AllocError> {
    let mut piece = Vec::new(alloc);
    piece.push(token)?;
    Ok(maker.feed(piece).is_ok())
}

/// Feeds a maker tokens one at a time, up to the first that has a fault.
fn feed_all(alloc: Global, maker: &mut TreeMaker, tokens: Vec<Token>) -> Result<(), AllocError> {
    for token in tokens {
        if !feed(alloc, maker, token)? {
            break;
        }
    }
    Ok(())
}

/// The tree or the tree fault of a text, by a maker that is fed the tokens one at a time.
fn made_of(alloc: Global, text: &str) -> Result<Result<Tree, TreeError>, Fail> {
    let (tokens, end) = tokens_of(alloc, text.as_bytes())?;
    let mut maker = TreeMaker::new(alloc);
    feed_all(alloc, &mut maker, tokens)?;
    Ok(maker.finish(end))
}

/// The tree or the tree fault of a text, whose lexer hands the tokens to a maker.
fn handed_of(alloc: Global, text: &str) -> Result<Result<Tree, TreeError>, Fail> {
    let mut lexer = Lexer::new(alloc);
    let mut maker = TreeMaker::new(alloc);
    lexer.feed_to(text.as_bytes(), &mut maker)?;
    let end = lexer.finish_to(&mut maker)?;
    Ok(maker.finish(end))
}

/// The tree faults of a text, of its tokens at once, one at a time, and as its lexer hands them on.
fn faults_of(alloc: Global, text: &str) -> Result<[Option<TreeError>; 3], Fail> {
    let made = made_of(alloc, text)?.err();
    let handed = handed_of(alloc, text)?.err();
    Ok([fault_of(alloc, text)?, made, handed])
}

/// The same of HEAD and what follows it.
fn faults_behind(alloc: Global, rest: &str) -> Result<[Option<TreeError>; 3], Fail> {
    let text = format!(in alloc; "{HEAD}{rest}")?;
    faults_of(alloc, &text)
}

fn push_times(text: &mut String, piece: &str, times: u32) -> Result<(), AllocError> {
    for _ in 0..times {
        text.push_str(piece)?;
    }
    Ok(())
}

/// Appends HEAD, a form, so many forms one in another, and what closes them all.
fn push_nested(text: &mut String, levels: u32) -> Result<(), AllocError> {
    text.push_str(HEAD)?;
    text.push_str(" (userData x ")?;
    push_times(text, "(a ", levels)?;
    push_times(text, ")", levels)?;
    text.push_str("))")
}

/// The tree fault of so many forms one in another.
fn nested_fault(alloc: Global, levels: u32) -> Result<Option<TreeError>, Fail> {
    let mut text = String::new(alloc);
    push_nested(&mut text, levels)?;
    fault_of(alloc, &text)
}

#[test]
fn texts_have_their_first_tree_fault(rt: HostRuntime) -> Result<(), Fail> {
    let alloc = rt.alloc();
    for (rest, kind, place) in &FAULTS {
        let (kind, place) = (*kind, *place);
        let wanted = [Some(TreeError::At { kind, place }); 3];
        let faults = faults_behind(alloc, rest)?;
        same(&rt, &faults, &wanted, rest);
    }
    for (text, kind, place) in &BEGINNINGS {
        let (kind, place) = (*kind, *place);
        let wanted = [Some(TreeError::At { kind, place }); 3];
        let faults = faults_of(alloc, text)?;
        same(&rt, &faults, &wanted, text);
    }
    Ok(())
}

#[test]
fn forms_nest_up_to_a_limit(rt: HostRuntime) -> Result<(), Fail> {
    let kind = TreeKind::TooDeep;
    assert_eq!(rt; nested_fault(rt.alloc(), 254)?, None);
    let deeper = nested_fault(rt.alloc(), 255)?;
    assert_eq!(rt; deeper, Some(TreeError::At { kind, place: 846 }));
    Ok(())
}

/// The place of a tree's root, and the number of its arguments.
fn root_of(tree: &Tree) -> Option<(u64, usize)> {
    let root = tree.root();
    match root.shape() {
        Shape::Form(arguments) => Some((root.place(), arguments.len())),
        _ => None,
    }
}

/// The same of the tree of a text.
fn root_in(alloc: Global, text: &str) -> Result<Option<(u64, usize)>, Fail> {
    let tree = made_of(alloc, text)??;
    Ok(root_of(&tree))
}

#[test]
fn a_text_has_a_tree(rt: HostRuntime) -> Result<(), Fail> {
    let root = root_in(rt.alloc(), " (a () (b 5 \"st\") c_1)")?;
    assert_eq!(rt; root, Some((1, 4)));
    Ok(())
}
